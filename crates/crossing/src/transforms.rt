// The transform, the inverse and the convolution.
ghost use Rattle.crossing.specs.Spectra.{Transforms, Inverts, Convolves};

use crate::status::{Status, answered, settled};
use arithmetic::Arithmetic;

pub fn transform<X: Arithmetic>(
    radices: &[u8],
    buf: &mut [X],
    work: &mut [X],
    turns: &mut usize,
) -> Status
    ensures made { Transforms X.Arithmetic.meaning radices.now turns.old buf.old work.old result turns.new buf.new work.new }
{
    answered(spectrum::transform(radices, buf, work), turns)
}

pub fn inverse<X: Arithmetic>(radices: &[u8], buf: &mut [X], work: &mut [X]) -> Status
    ensures made { Inverts X.Arithmetic.meaning radices.now buf.old work.old result buf.new work.new }
{
    settled(spectrum::inverse(radices, buf, work))
}

pub fn convolve<X: Arithmetic>(
    radices: &[u8],
    a: &[X],
    b: &[X],
    out: &mut [X],
    work: &mut [X],
) -> Status
    ensures made { Convolves X.Arithmetic.meaning radices.now a.now b.now out.old work.old result out.new work.new }
{
    settled(spectrum::convolve(radices, a, b, out, work))
}
