// The blocks that one stage combines.
ghost use Rattle.std.specs.Prelude.{◌≡◌, ◌*◌, ◌/◌};
ghost use Rattle.spectrum.specs.Shapes.{Sound};

use arithmetic::Arithmetic;
use std::marker::PhantomData;

// Blocks of `radix` parts with `len` tones each, whose size divides the span.
// From part to part tone `k` turns by `k * unit` more.
#[derive(Drop)]
pub(crate) struct Shape<X: Arithmetic> {
    pub(crate) radix: usize,
    pub(crate) len: usize,
    pub(crate) unit: usize,
    of: PhantomData<X>,
    ghost sound: { Sound X.Arithmetic.meaning.span radix len },
    ghost circle: { unit ≡ X.Arithmetic.meaning.span / (radix * len) },
}

impl<X: Arithmetic> Shape<X> {
    pub(crate) fn new(radix: usize, len: usize) -> Shape<X>
        requires { Sound X.Arithmetic.meaning.span radix len }
        ensures { (result.radix ≡ radix) × (result.len ≡ len) }
    {
        Shape {
            radix,
            len,
            unit: X::span() as usize / (radix * len),
            of: PhantomData,
        }
    }
}
