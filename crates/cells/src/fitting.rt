// What every call on a sheet tests first.
ghost use Rattle.std.specs.Prelude.{◌≡◌};
ghost use Rattle.cells.specs.Plain.{numbered};
ghost use Rattle.cells.specs.Cells.{sheet_for};

use arithmetic::Arithmetic;
use refusal::Fault;
use spectrum::divides;

// Refuses a length that does not divide the span, an arithmetic that is not exact, and cells that are not two lengths.
pub fn fits<X: Arithmetic>(n: usize, len: usize) -> Result<(), Fault>
    ensures answer { result ≡ sheet_for X.Arithmetic.meaning n len }
{
    divides::<X>(n)?;
    if !X::exact() {
        return Err(Fault::Unfit);
    }
    if len != 2 * n {
        return Err(Fault::Length);
    }
    Ok(())
}

// Refuses a number of which a sheet of `n` samples has no sample and no tone.
pub(crate) fn within(n: usize, k: usize) -> Result<(), Fault>
    ensures answer { result ≡ numbered n k }
{
    if k < n { Ok(()) } else { Err(Fault::Place(k)) }
}
