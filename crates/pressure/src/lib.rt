// The pressure arithmetic: the whole numbers modulo 15·2^27 + 1, turned by the powers of a root.
#![tactic(auto)]

ghost use Rattle.std.specs.Prelude.{◌≡◌, ◌%◌};
ghost use Rattle.pressure.specs.Pressures.{modulus, inverse, counted, pressures};
ghost use Rattle.pressure.specs.Root.{Order};
ghost use Rattle.pressure.specs.Worked.{Worked};
ghost use Rattle.pressure.specs.Laws;

mod powers;

use arithmetic::Arithmetic;
use rooted::power;

const MODULUS: u64 = 2013265921;

const SPAN: u64 = 7680;

// The span times this leaves 1 by the modulus.
const SPAN_INVERSE: u32 = 2013003777;

type Residue = residues::Residue<MODULUS>;

// Any word is an element: its value is what it leaves by the modulus.
#[derive(Clone, Copy, Debug, Default, PartialEq, Eq)]
#[repr(C)]
pub struct Pressure {
    pub word: u32,
}

impl Pressure {
    // A count of pressure enters as its number.
    pub fn count(n: u16) -> Pressure
        ensures answer { result ≡ counted n }
    {
        Pressure { word: u32::from(n) }
    }

    fn residue(self) -> Residue
        ensures answer { result.word ≡ self.word % modulus }
    {
        Residue::of_word(self.word)
    }
}

// No more than this arithmetic's numbers, for the inverse that both have in `residues`.
fn inverse(n: u32) -> Residue
    ensures answer { result.word ≡ inverse n }
{
    Residue { word: SPAN_INVERSE }.inverse_of_part(SPAN as u32, n)
}

impl Arithmetic for Pressure {
    type Reading = u32;

    ghost meaning = { pressures };

    ghost lawful = { Laws.lawful };

    fn zero() -> Pressure {
        Pressure { word: 0 }
    }

    fn sum(self, other: Pressure) -> Pressure {
        Pressure {
            word: (self.residue() + other.residue()).word,
        }
    }

    fn difference(self, other: Pressure) -> Pressure {
        Pressure {
            word: (self.residue() - other.residue()).word,
        }
    }

    fn turn(self, e: u32) -> Pressure {
        Pressure {
            word: (power::<SPAN, Pressure>(e) * self.word).word,
        }
    }

    fn product(self, other: Pressure) -> Pressure {
        Pressure {
            word: Residue::of(self.word as u64 * other.word as u64).word,
        }
    }

    fn part(self, n: u32) -> Pressure {
        Pressure {
            word: (inverse(n) * self.word).word,
        }
    }

    fn read(self) -> u32 {
        self.residue().word
    }

    fn span() -> u32 {
        SPAN as u32
    }

    fn exact() -> bool {
        true
    }

    fn full() -> bool {
        true
    }
}

// The root has the order of the span.
pub fn root_stands()
    ensures answer { Order }
{}

// A half, and the tones of two samples, in numbers.
pub fn cases_stand()
    ensures answer { Worked }
{}
