// The circle of an arithmetic's turns, gone round by the same number of places from turn to turn.
ghost use Rattle.std.specs.Prelude.{◌≡◌, ◌+◌, ◌%◌, ◌^◌, ◌<◌};

use arithmetic::Arithmetic;

// One step round a circle of `span` places, with no division.
pub(crate) fn onward(at: usize, step: usize, span: usize) -> usize
    requires { (at < span) × ((step < span) × (span < 2 ^ 32)) }
    ensures answer { result ≡ (at + step) % span }
{
    let next = at + step;
    if next < span { next } else { next - span }
}

// A place on a circle of `span` places, and how far it is to the next turn.
#[derive(Debug, Clone, Copy, PartialEq, Eq)]
pub struct Angle {
    at: usize,
    step: usize,
    span: usize,
    pub ghost inside: { at < span },
    pub ghost less: { step < span },
    pub ghost fits: { span < 2 ^ 32 },
}

impl Angle {
    // The first place of the arithmetic's circle, to go on by `step` places each time.
    pub fn by<X: Arithmetic>(step: usize) -> Angle
        ensures at { result.at ≡ 0 }
        ensures step { result.step ≡ step % X.Arithmetic.meaning.span }
        ensures span { result.span ≡ X.Arithmetic.meaning.span }
    {
        let span = X::span() as usize;
        let step = if step < span { step } else { step % span };
        Angle { at: 0, step, span }
    }

    // How many places past the first.
    pub fn place(self) -> u32
        ensures { result ≡ self.at }
    {
        self.at as u32
    }

    // One step on, with no division.
    pub fn onward(self) -> Angle
        ensures at { result.at ≡ (self.at + self.step) % self.span }
        ensures step { result.step ≡ self.step }
        ensures span { result.span ≡ self.span }
    {
        Angle {
            at: onward(self.at, self.step, self.span),
            step: self.step,
            span: self.span,
        }
    }
}
