// Sheets that are held as their cells and their length.
ghost use Rattle.std.specs.Prelude.{◌≡◌};
ghost use Rattle.std.specs.Result.{result_map_both};
ghost use Rattle.path.specs.Paths.{paths};
ghost use Rattle.pressure.specs.Pressures.{pressures};
ghost use Rattle.cells.specs.Plain.{edit, shift, mirror, lay};
ghost use Rattle.cells.specs.Cells.{heard};
ghost use Rattle.crossing.specs.Sheets.{Opens, Calls, both, Sounds};

use crate::status::{Status, answered, settled};
use arithmetic::Arithmetic;
use path::Path;
use pressure::Pressure;
use refusal::Fault;
use sheet::Sheet;

pub fn open<X: Arithmetic>(radices: &[u8], cells: &mut [X], work: &mut [X], n: &mut usize) -> Status
    ensures made { Opens X.Arithmetic.meaning radices.now n.old cells.old work.old result n.new cells.new work.new }
{
    answered(sheet::open(radices, cells, work), n)
}

pub fn edit<X: Arithmetic>(cells: &mut [X], n: usize, i: usize, v: X) -> Status
    ensures made { Calls X.Arithmetic.meaning n (edit i v) cells.old result cells.new }
{
    settled(Sheet::over(cells, n).edit(i, v))
}

pub fn shift<X: Arithmetic>(cells: &mut [X], n: usize, h: usize) -> Status
    ensures made { Calls X.Arithmetic.meaning n (shift h) cells.old result cells.new }
{
    settled(Sheet::over(cells, n).shift(h))
}

pub fn mirror<X: Arithmetic>(cells: &mut [X], n: usize) -> Status
    ensures made { Calls X.Arithmetic.meaning n mirror cells.old result cells.new }
{
    settled(Sheet::over(cells, n).mirror())
}

pub fn lay<X: Arithmetic>(cells: &mut [X], n: usize, laid: &[X]) -> Status
    ensures made { Calls X.Arithmetic.meaning n (lay laid.now) cells.old result cells.new }
{
    settled(Sheet::over(cells, n).lay(laid))
}

pub fn pressure_tone(cells: &mut [Pressure], n: usize, k: usize, tone: &mut u32) -> Status
    ensures made { Sounds pressures (λ reading. reading) n k cells.old tone.old result tone.new cells.new }
{
    answered(Sheet::over(cells, n).tone(k), tone)
}

// The tone as an element, since no tuple crosses.
fn heard_path(cells: &mut [Path], n: usize, k: usize) -> Result<Path, Fault>
    ensures answer { result ≡ result_map_both both (λ f. f) (heard paths n k cells.old) }
    ensures same { cells.new ≡ cells.old }
{
    let (u, v) = Sheet::over(cells, n).tone(k)?;
    Ok(Path { u, v })
}

pub fn path_tone(cells: &mut [Path], n: usize, k: usize, tone: &mut Path) -> Status
    ensures made { Sounds paths both n k cells.old tone.old result tone.new cells.new }
{
    answered(heard_path(cells, n, k), tone)
}
