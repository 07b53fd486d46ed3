// What both makers are held to, in one contract.
#![tactic(auto)]

ghost use Rattle.agreement.specs.Agreement.{Agreement};

use arithmetic::Arithmetic;

// Holds over every arithmetic that keeps the laws of the interface.
pub fn agreement<X: Arithmetic>()
    ensures answer { Agreement X.Arithmetic.meaning }
{}
