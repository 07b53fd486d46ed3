// Sheets, which C holds as their cells and their length.
ghost use Rattle.path.specs.Paths.{paths};
ghost use Rattle.pressure.specs.Pressures.{pressures};
ghost use Rattle.cells.specs.Plain.{edit, shift, mirror, lay};
ghost use Rattle.crossing.specs.Sheets.{Opens, Calls, both, Sounds};

use crossing::Status;
use path::Path;
use pressure::Pressure;

#[unsafe(no_mangle)]
pub extern "C" fn strokes_sheet_open_path(
    radices: &[u8],
    cells: &mut [Path],
    work: &mut [Path],
    n: &mut usize,
) -> Status
    ensures made { Opens paths radices.now n.old cells.old work.old result n.new cells.new work.new }
{
    crossing::open::<Path>(radices, cells, work, n)
}

#[unsafe(no_mangle)]
pub extern "C" fn strokes_sheet_open_pressure(
    radices: &[u8],
    cells: &mut [Pressure],
    work: &mut [Pressure],
    n: &mut usize,
) -> Status
    ensures made { Opens pressures radices.now n.old cells.old work.old result n.new cells.new work.new }
{
    crossing::open::<Pressure>(radices, cells, work, n)
}

#[unsafe(no_mangle)]
pub extern "C" fn strokes_sheet_edit_path(cells: &mut [Path], n: usize, i: usize, v: Path) -> Status
    ensures made { Calls paths n (edit i v) cells.old result cells.new }
{
    crossing::edit::<Path>(cells, n, i, v)
}

#[unsafe(no_mangle)]
pub extern "C" fn strokes_sheet_edit_pressure(
    cells: &mut [Pressure],
    n: usize,
    i: usize,
    v: Pressure,
) -> Status
    ensures made { Calls pressures n (edit i v) cells.old result cells.new }
{
    crossing::edit::<Pressure>(cells, n, i, v)
}

#[unsafe(no_mangle)]
pub extern "C" fn strokes_sheet_shift_path(cells: &mut [Path], n: usize, h: usize) -> Status
    ensures made { Calls paths n (shift h) cells.old result cells.new }
{
    crossing::shift::<Path>(cells, n, h)
}

#[unsafe(no_mangle)]
pub extern "C" fn strokes_sheet_shift_pressure(cells: &mut [Pressure], n: usize, h: usize) -> Status
    ensures made { Calls pressures n (shift h) cells.old result cells.new }
{
    crossing::shift::<Pressure>(cells, n, h)
}

#[unsafe(no_mangle)]
pub extern "C" fn strokes_sheet_mirror_path(cells: &mut [Path], n: usize) -> Status
    ensures made { Calls paths n mirror cells.old result cells.new }
{
    crossing::mirror::<Path>(cells, n)
}

#[unsafe(no_mangle)]
pub extern "C" fn strokes_sheet_mirror_pressure(cells: &mut [Pressure], n: usize) -> Status
    ensures made { Calls pressures n mirror cells.old result cells.new }
{
    crossing::mirror::<Pressure>(cells, n)
}

#[unsafe(no_mangle)]
pub extern "C" fn strokes_sheet_lay_path(cells: &mut [Path], n: usize, laid: &[Path]) -> Status
    ensures made { Calls paths n (lay laid.now) cells.old result cells.new }
{
    crossing::lay::<Path>(cells, n, laid)
}

#[unsafe(no_mangle)]
pub extern "C" fn strokes_sheet_lay_pressure(
    cells: &mut [Pressure],
    n: usize,
    laid: &[Pressure],
) -> Status
    ensures made { Calls pressures n (lay laid.now) cells.old result cells.new }
{
    crossing::lay::<Pressure>(cells, n, laid)
}

#[unsafe(no_mangle)]
pub extern "C" fn strokes_sheet_tone_path(
    cells: &mut [Path],
    n: usize,
    k: usize,
    tone: &mut Path,
) -> Status
    ensures made { Sounds paths both n k cells.old tone.old result tone.new cells.new }
{
    crossing::path_tone(cells, n, k, tone)
}

#[unsafe(no_mangle)]
pub extern "C" fn strokes_sheet_tone_pressure(
    cells: &mut [Pressure],
    n: usize,
    k: usize,
    tone: &mut u32,
) -> Status
    ensures made { Sounds pressures (λ reading. reading) n k cells.old tone.old result tone.new cells.new }
{
    crossing::pressure_tone(cells, n, k, tone)
}
