// The powers of a root, which an arithmetic turns by: they come from two constant tables.
#![tactic(auto)]

ghost use Rattle.std.specs.Prelude.{◌≡◌, ℕ, ◌+◌, ◌*◌, ◌/◌, ◌%◌};
ghost use Rattle.residues.specs.Residues.{Modulus};
ghost use Rattle.rooted.specs.Powers.{step};

use residues::Residue;

// One table has the powers below STEP, the other those by its multiples.
pub const STEP: u32 = 64;

// Elements with a root, whose power by SPAN is one.
pub trait Powers<const SPAN: u64>: Copy {
    // A power, with reduced words.
    type Power: Copy;

    ghost element: { Self.Power → Self };

    ghost product: { Self → Self → Self };

    ghost power: { ℕ → Self };

    // The power by the last multiple of STEP up to e.
    fn high(e: Residue<SPAN>) -> Self::Power
        ensures answer { element result ≡ power (step * (e.entry.word / step)) };

    // The power by the rest of e.
    fn low(e: Residue<SPAN>) -> Self::Power
        ensures answer { element result ≡ power (e.entry.word % step) };

    fn times(a: Self::Power, b: Self::Power) -> Self::Power
        ensures answer { element result ≡ product (element a) (element b) };

    ghost span_is: { Modulus SPAN };

    ghost sums: { (e f : ℕ) → product (power e) (power f) ≡ power (e + f) };

    ghost goes_round: { (e : ℕ) → power (e % SPAN) ≡ power e };
}

// The root's power e, for every e. A transform turns by less than the span, so that its exponent is spared the division.
pub fn power<const SPAN: u64, P: Powers<SPAN>>(e: u32) -> P::Power
    ensures answer { P.element result ≡ P.power e }
{
    let e = Residue::<SPAN>::of_word(e);
    P::times(P::high(e), P::low(e))
}
