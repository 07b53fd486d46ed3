// Plans, the transform, the inverse and the convolution, each in the arithmetics that have it.
ghost use Rattle.fixed.specs.Pairs.{fixed};
ghost use Rattle.path.specs.Paths.{paths};
ghost use Rattle.pressure.specs.Pressures.{pressures};
ghost use Rattle.crossing.specs.Plans.{Plans};
ghost use Rattle.crossing.specs.Spectra.{Transforms, Inverts, Convolves};

use crossing::Status;
use fixed::Fixed;
use path::Path;
use pressure::Pressure;

#[unsafe(no_mangle)]
pub extern "C" fn strokes_standard_plan(n: usize, radices: &mut [u8], count: &mut usize) -> Status
    ensures made { Plans n count.old radices.old result count.new radices.new }
{
    crossing::standard_plan(n, radices, count)
}

#[unsafe(no_mangle)]
pub extern "C" fn strokes_transform_fixed(
    radices: &[u8],
    buf: &mut [Fixed],
    work: &mut [Fixed],
    turns: &mut usize,
) -> Status
    ensures made { Transforms fixed radices.now turns.old buf.old work.old result turns.new buf.new work.new }
{
    crossing::transform::<Fixed>(radices, buf, work, turns)
}

#[unsafe(no_mangle)]
pub extern "C" fn strokes_transform_path(
    radices: &[u8],
    buf: &mut [Path],
    work: &mut [Path],
    turns: &mut usize,
) -> Status
    ensures made { Transforms paths radices.now turns.old buf.old work.old result turns.new buf.new work.new }
{
    crossing::transform::<Path>(radices, buf, work, turns)
}

#[unsafe(no_mangle)]
pub extern "C" fn strokes_transform_pressure(
    radices: &[u8],
    buf: &mut [Pressure],
    work: &mut [Pressure],
    turns: &mut usize,
) -> Status
    ensures made { Transforms pressures radices.now turns.old buf.old work.old result turns.new buf.new work.new }
{
    crossing::transform::<Pressure>(radices, buf, work, turns)
}

#[unsafe(no_mangle)]
pub extern "C" fn strokes_inverse_path(
    radices: &[u8],
    buf: &mut [Path],
    work: &mut [Path],
) -> Status
    ensures made { Inverts paths radices.now buf.old work.old result buf.new work.new }
{
    crossing::inverse::<Path>(radices, buf, work)
}

#[unsafe(no_mangle)]
pub extern "C" fn strokes_inverse_pressure(
    radices: &[u8],
    buf: &mut [Pressure],
    work: &mut [Pressure],
) -> Status
    ensures made { Inverts pressures radices.now buf.old work.old result buf.new work.new }
{
    crossing::inverse::<Pressure>(radices, buf, work)
}

#[unsafe(no_mangle)]
pub extern "C" fn strokes_convolve_path(
    radices: &[u8],
    a: &[Path],
    b: &[Path],
    out: &mut [Path],
    work: &mut [Path],
) -> Status
    ensures made { Convolves paths radices.now a.now b.now out.old work.old result out.new work.new }
{
    crossing::convolve::<Path>(radices, a, b, out, work)
}

#[unsafe(no_mangle)]
pub extern "C" fn strokes_convolve_pressure(
    radices: &[u8],
    a: &[Pressure],
    b: &[Pressure],
    out: &mut [Pressure],
    work: &mut [Pressure],
) -> Status
    ensures made { Convolves pressures radices.now a.now b.now out.old work.old result out.new work.new }
{
    crossing::convolve::<Pressure>(radices, a, b, out, work)
}
