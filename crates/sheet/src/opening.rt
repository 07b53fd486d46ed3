// Opening a sheet: its cells are checked, and then the second half takes the tones of the first.
ghost use Rattle.std.specs.Prelude.{◌≡◌, length, take, IfOk};
ghost use Rattle.cells.specs.Holding.{Holds};
ghost use Rattle.cells.specs.Opening.{sized as sized_for, opened, filled};
ghost use Rattle.spectrum.specs.Granted.{where_granted, cleared};

use arithmetic::Arithmetic;
use cells::fits;
use plan::Plan;
use refusal::Fault;
use spectrum::{SCRATCH, transform};

// The length that the radices are for, where a sheet of it fits into `len` cells.
pub fn sized<X: Arithmetic>(radices: &[u8], len: usize) -> Result<usize, Fault>
    ensures answer { result ≡ sized_for X.Arithmetic.meaning radices.now len }
{
    let n = Plan::new(radices)?.len();
    fits::<X>(n, len)?;
    Ok(n)
}

// Answers the length, with which a sheet can be made over the cells: they hold the samples and their defining sums.
// A refusal changes nothing, and a granted call leaves zeros in `work`.
pub fn open<X: Arithmetic>(radices: &[u8], cells: &mut [X], work: &mut [X]) -> Result<usize, Fault>
    ensures answer { result ≡ opened X.Arithmetic.meaning radices.now (length cells.old) (length work.old) }
    ensures after { cells.new ≡ where_granted result (filled X.Arithmetic.meaning radices.now cells.old) cells.old }
    ensures sheet { IfOk result (λ n. Holds X.Arithmetic.meaning (take n cells.old) cells.new) }
    ensures work { work.new ≡ cleared X.Arithmetic.meaning result work.old }
{
    let n = sized::<X>(radices, cells.len())?;
    if work.len() < n + SCRATCH {
        return Err(Fault::Work);
    }
    work[0..n].copy_from_slice(&cells[0..n]);
    cells[n..2 * n].copy_from_slice(&work[0..n]);
    transform(radices, &mut cells[n..2 * n], work)?;
    Ok(n)
}
