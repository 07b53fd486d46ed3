// Stroke files, lent strokes and their samples.
ghost use Rattle.std.specs.Prelude.{◌≡◌};
ghost use Rattle.fixed.specs.Pairs.{sampled as fixed_sample};
ghost use Rattle.path.specs.Paths.{sampled as path_sample};
ghost use Rattle.pressure.specs.Pressures.{counted};
ghost use Rattle.handover.specs.Lending.{lent_stroke, Writes};
ghost use Rattle.handover.specs.Matching.{Matches};
ghost use Rattle.handover.specs.Reading.{Reads};

use crossing::Status;
use fixed::Fixed;
use handover::{Counts, Heading, Lags, Sum};
use path::Path;
use pressure::Pressure;

#[unsafe(no_mangle)]
pub extern "C" fn strokes_read(
    bytes: &[u8],
    path: &mut [Counts],
    pressure: &mut [u16],
    heading: &mut Heading,
) -> Status
    ensures made { Reads bytes.now heading.old path.old pressure.old result heading.new path.new pressure.new }
{
    handover::read(bytes, path, pressure, heading)
}

#[unsafe(no_mangle)]
pub extern "C" fn strokes_write(
    path: &[Counts],
    pressure: &[u16],
    out: &mut [u8],
    length: &mut usize,
) -> Status
    ensures made { Writes path.now pressure.now length.old out.old result length.new out.new }
{
    handover::write(path, pressure, out, length)
}

#[unsafe(no_mangle)]
pub extern "C" fn strokes_match(
    a: &[Counts],
    p: &[u16],
    b: &[Counts],
    q: &[u16],
    out: &mut [Sum],
    best: &mut Lags,
) -> Status
    ensures made { Matches (lent_stroke a.now p.now) (lent_stroke b.now q.now) best.old out.old result best.new out.new }
{
    handover::match_strokes(a, p, b, q, out, best)
}

#[unsafe(no_mangle)]
pub extern "C" fn strokes_sample_fixed(x: i16, y: i16) -> Fixed
    ensures answer { result ≡ fixed_sample x y }
{
    Fixed::sample(x, y)
}

#[unsafe(no_mangle)]
pub extern "C" fn strokes_sample_path(x: i16, y: i16) -> Path
    ensures answer { result ≡ path_sample x y }
{
    Path::sample(x, y)
}

#[unsafe(no_mangle)]
pub extern "C" fn strokes_sample_pressure(count: u16) -> Pressure
    ensures answer { result ≡ counted count }
{
    Pressure::count(count)
}
