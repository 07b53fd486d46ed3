// Runs, which C holds as the radices of the plan and how many stages are done.
ghost use Rattle.std.specs.Prelude.{◌≡◌, length, replicate};
ghost use Rattle.fixed.specs.Pairs.{fixed};
ghost use Rattle.path.specs.Paths.{paths};
ghost use Rattle.pressure.specs.Pressures.{pressures};
ghost use Rattle.crossing.specs.Runs.{Deals, Steps, Finishes};

use arithmetic::Arithmetic;
use crossing::Status;
use fixed::Fixed;
use path::Path;
use pressure::Pressure;

#[unsafe(no_mangle)]
pub extern "C" fn strokes_deal_fixed(
    radices: &[u8],
    buf: &mut [Fixed],
    work: &mut [Fixed],
) -> Status
    ensures made { Deals fixed radices.now buf.old work.old result buf.new work.new }
{
    crossing::deal::<Fixed>(radices, buf, work)
}

#[unsafe(no_mangle)]
pub extern "C" fn strokes_deal_path(radices: &[u8], buf: &mut [Path], work: &mut [Path]) -> Status
    ensures made { Deals paths radices.now buf.old work.old result buf.new work.new }
{
    crossing::deal::<Path>(radices, buf, work)
}

#[unsafe(no_mangle)]
pub extern "C" fn strokes_deal_pressure(
    radices: &[u8],
    buf: &mut [Pressure],
    work: &mut [Pressure],
) -> Status
    ensures made { Deals pressures radices.now buf.old work.old result buf.new work.new }
{
    crossing::deal::<Pressure>(radices, buf, work)
}

#[unsafe(no_mangle)]
pub extern "C" fn strokes_stage_fixed(
    radices: &[u8],
    done: usize,
    buf: &mut [Fixed],
    work: &mut [Fixed],
) -> Status
    ensures made { Steps fixed radices.now done buf.old work.old result buf.new work.new }
{
    crossing::stage::<Fixed>(radices, done, buf, work)
}

#[unsafe(no_mangle)]
pub extern "C" fn strokes_stage_path(
    radices: &[u8],
    done: usize,
    buf: &mut [Path],
    work: &mut [Path],
) -> Status
    ensures made { Steps paths radices.now done buf.old work.old result buf.new work.new }
{
    crossing::stage::<Path>(radices, done, buf, work)
}

#[unsafe(no_mangle)]
pub extern "C" fn strokes_stage_pressure(
    radices: &[u8],
    done: usize,
    buf: &mut [Pressure],
    work: &mut [Pressure],
) -> Status
    ensures made { Steps pressures radices.now done buf.old work.old result buf.new work.new }
{
    crossing::stage::<Pressure>(radices, done, buf, work)
}

#[unsafe(no_mangle)]
pub extern "C" fn strokes_finish(radices: &[u8], done: usize, turns: &mut usize) -> Status
    ensures made { Finishes radices.now done turns.old result turns.new }
{
    crossing::finish(radices, done, turns)
}

#[unsafe(no_mangle)]
pub extern "C" fn strokes_give_up_fixed(buf: &mut [Fixed])
    ensures after { buf.new ≡ replicate (length buf.old) fixed.zero }
{
    buf.fill(Fixed::zero());
}

#[unsafe(no_mangle)]
pub extern "C" fn strokes_give_up_path(buf: &mut [Path])
    ensures after { buf.new ≡ replicate (length buf.old) paths.zero }
{
    buf.fill(Path::zero());
}

#[unsafe(no_mangle)]
pub extern "C" fn strokes_give_up_pressure(buf: &mut [Pressure])
    ensures after { buf.new ≡ replicate (length buf.old) pressures.zero }
{
    buf.fill(Pressure::zero());
}
