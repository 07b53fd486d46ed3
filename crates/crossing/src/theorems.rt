// What holds of a run that is held as numbers, as a contract that callers learn from.
ghost use Rattle.crossing.specs.Runs.{RunsStand};

use arithmetic::Arithmetic;

// Dealing and then stages in turn make the tones that a run makes, block by block.
pub fn runs_stand<X: Arithmetic>()
    ensures answer { RunsStand X.Arithmetic.meaning }
{}
