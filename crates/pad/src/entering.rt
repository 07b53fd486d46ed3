// The samples of a stroke on their way into the fixed arithmetic.
ghost use Rattle.std.specs.Prelude.{◌≡◌, length, slice_index_or};
ghost use Rattle.fixed.specs.Pairs.{origin, entered};
ghost use Rattle.stroke.specs.Reading.{contents};

use arithmetic::Arithmetic;
use fixed::Fixed;
use stroke::Stroke;

// Sample i as it enters, and zero past the last.
fn entering(stroke: &Stroke<'_>, i: usize) -> Fixed
    ensures answer { result ≡ slice_index_or (entered (contents stroke.now).path) i origin }
{
    stroke
        .path(i)
        .map_or(Fixed::zero(), |(x, y)| Fixed::sample(x, y))
}

// Not by handover's `copy`: pad stands below it, and a public one would ask of its callers that the closure may be called.
pub(crate) fn enter(stroke: &Stroke<'_>, out: &mut [Fixed])
    requires { length out.old ≡ length (contents stroke.now).path }
    ensures after { out.new ≡ entered (contents stroke.now).path }
{
    for (i, sample) in out.iter_mut().enumerate() {
        *sample = entering(stroke, i);
    }
}
