// The path arithmetic: pairs (u, v) modulo 2^31 - 1, turned by the powers of a root.
#![tactic(auto)]

ghost use Rattle.std.specs.Prelude.{◌≡◌, ◌+◌, ◌*◌, ◌%◌};
ghost use Rattle.path.specs.Paths.{modulus, element, opposite, times, inverse, residue, signed, sampled, paths};
ghost use Rattle.path.specs.Root.{Order};
ghost use Rattle.path.specs.Worked.{Worked};
ghost use Rattle.path.specs.Laws;

mod powers;

use arithmetic::Arithmetic;
use rooted::power;

// Both words are taken by 2^31 - 1.
pub const MODULUS: u64 = 2147483647;

const SPAN: u64 = 4608;

// The span times this leaves 1 by the modulus.
const SPAN_INVERSE: u32 = 477684622;

type Residue = residues::Residue<MODULUS>;

// Any two words are an element: its value is what they leave by the modulus.
#[derive(Clone, Copy, Debug, Default, PartialEq, Eq)]
#[repr(C)]
pub struct Path {
    pub u: u32,
    pub v: u32,
}

impl Path {
    // A sample of a path enters as the residues of its two counts.
    pub fn sample(x: i16, y: i16) -> Path
        ensures answer { result ≡ sampled x y }
    {
        Path {
            u: signed(x),
            v: signed(y),
        }
    }

    fn reduced(self) -> Reduced
        ensures answer { element result ≡ residue self.u self.v }
    {
        Reduced {
            u: Residue::of_word(self.u),
            v: Residue::of_word(self.v),
        }
    }

    fn times(self, other: Reduced) -> Reduced
        ensures answer { element result ≡ times self (element other) }
    {
        Reduced {
            u: first(self, other),
            v: second(self, other),
        }
    }
}

// An element whose words are below the modulus.
#[derive(Clone, Copy, Debug, PartialEq, Eq)]
pub struct Reduced {
    u: Residue,
    v: Residue,
}

impl Reduced {
    // A method and not a `From`, which would say no more and stand in the clauses of every user.
    fn path(self) -> Path
        ensures answer { result ≡ element self }
    {
        Path {
            u: self.u.word,
            v: self.v.word,
        }
    }
}

// The residue of a signed count: that of -1 is the modulus less 1.
fn signed(x: i16) -> u32
    ensures answer { result ≡ signed x }
{
    i32::from(x).rem_euclid(MODULUS as i32) as u32
}

// The first part of the product; the second factor is reduced so that both products fit.
fn first(a: Path, b: Reduced) -> Residue
    ensures answer { result.word ≡ (a.u * b.u.word + opposite (a.v * b.v.word)) % modulus }
{
    let taken = a.v as u64 * (MODULUS - b.v.word as u64);
    Residue::of(a.u as u64 * b.u.word as u64 + taken)
}

// The second part.
fn second(a: Path, b: Reduced) -> Residue
    ensures answer { result.word ≡ (a.u * b.v.word + a.v * b.u.word) % modulus }
{
    Residue::of(a.u as u64 * b.v.word as u64 + a.v as u64 * b.u.word as u64)
}

// No more than this arithmetic's numbers, for the inverse that both have in `residues`.
fn inverse(n: u32) -> Residue
    ensures answer { result.word ≡ inverse n }
{
    Residue { word: SPAN_INVERSE }.inverse_of_part(SPAN as u32, n)
}

impl Arithmetic for Path {
    type Reading = (u32, u32);

    ghost meaning = { paths };

    ghost lawful = { Laws.lawful };

    fn zero() -> Path {
        Path { u: 0, v: 0 }
    }

    fn sum(self, other: Path) -> Path {
        let (a, b) = (self.reduced(), other.reduced());
        Path {
            u: (a.u + b.u).word,
            v: (a.v + b.v).word,
        }
    }

    fn difference(self, other: Path) -> Path {
        let (a, b) = (self.reduced(), other.reduced());
        Path {
            u: (a.u - b.u).word,
            v: (a.v - b.v).word,
        }
    }

    fn turn(self, e: u32) -> Path {
        self.times(power::<SPAN, Path>(e)).path()
    }

    fn product(self, other: Path) -> Path {
        self.times(other.reduced()).path()
    }

    fn part(self, n: u32) -> Path {
        let factor = inverse(n);
        Path {
            u: (factor * self.u).word,
            v: (factor * self.v).word,
        }
    }

    fn read(self) -> (u32, u32) {
        let Path { u, v } = self.reduced().path();
        (u, v)
    }

    fn span() -> u32 {
        SPAN as u32
    }

    fn exact() -> bool {
        true
    }

    fn full() -> bool {
        true
    }
}

// The root has the order of the span.
pub fn root_stands()
    ensures answer { Order }
{}

// The square of (0, 1), and a half, in numbers.
pub fn cases_stand()
    ensures answer { Worked }
{}
