// What holds of every sheet, as a contract that callers learn from.
ghost use Rattle.cells.specs.SheetLaws.{SheetLaws};

use arithmetic::Arithmetic;

// Over an exact arithmetic a sheet keeps up with the plain sheet that is asked the same, call by call.
pub fn sheets_stand<X: Arithmetic>()
    ensures answer { SheetLaws X.Arithmetic.meaning }
{}
