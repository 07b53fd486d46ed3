// The calls on a sheet's cells, for a caller that holds them and their length and no sheet: each is the sheet's method.
ghost use Rattle.std.specs.Prelude.{◌≡◌};
ghost use Rattle.cells.specs.Plain.{edit, shift, mirror, lay};
ghost use Rattle.cells.specs.Cells.{granted, cells_after, heard};

use crate::sheets::Sheet;
use arithmetic::Arithmetic;
use refusal::Fault;

// Sample `i` becomes `v`, and the tones follow.
pub fn edit_cells<X: Arithmetic>(cells: &mut [X], n: usize, i: usize, v: X) -> Result<(), Fault>
    ensures answer { result ≡ granted X.Arithmetic.meaning n (edit i v) cells.old }
    ensures after { cells.new ≡ cells_after result X.Arithmetic.meaning n (edit i v) cells.old }
{
    Sheet::over(cells, n).edit(i, v)
}

// Sample t becomes the old sample (t + h) mod N, and the tones follow.
pub fn shift_cells<X: Arithmetic>(cells: &mut [X], n: usize, h: usize) -> Result<(), Fault>
    ensures answer { result ≡ granted X.Arithmetic.meaning n (shift h) cells.old }
    ensures after { cells.new ≡ cells_after result X.Arithmetic.meaning n (shift h) cells.old }
{
    Sheet::over(cells, n).shift(h)
}

// Sample t becomes the old sample (N - t) mod N, and the tones follow.
pub fn mirror_cells<X: Arithmetic>(cells: &mut [X], n: usize) -> Result<(), Fault>
    ensures answer { result ≡ granted X.Arithmetic.meaning n mirror cells.old }
    ensures after { cells.new ≡ cells_after result X.Arithmetic.meaning n mirror cells.old }
{
    Sheet::over(cells, n).mirror()
}

// The laid samples are added place by place, and the tones follow.
pub fn lay_cells<X: Arithmetic>(cells: &mut [X], n: usize, laid: &[X]) -> Result<(), Fault>
    ensures answer { result ≡ granted X.Arithmetic.meaning n (lay laid.now) cells.old }
    ensures after { cells.new ≡ cells_after result X.Arithmetic.meaning n (lay laid.now) cells.old }
{
    Sheet::over(cells, n).lay(laid)
}

// Tone `k`, read.
pub fn read_cell<X: Arithmetic>(cells: &mut [X], n: usize, k: usize) -> Result<X::Reading, Fault>
    ensures answer { result ≡ heard X.Arithmetic.meaning n k cells.old }
    ensures same { cells.new ≡ cells.old }
{
    Sheet::over(cells, n).tone(k)
}
