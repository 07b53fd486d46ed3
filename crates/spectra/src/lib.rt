// Spectra by their definitions, and what holds of them: the tones of the recursion, the defining sums, the inverse and the convolution.
#![tactic(auto)]

ghost use Rattle.spectra.specs.SpectraLaws.{SpectraLaws};

use arithmetic::Arithmetic;

// All plans of a length agree, the inverse restores the samples, and the product of two spectra is that of the convolution.
pub fn spectra_stand<X: Arithmetic>()
    ensures { SpectraLaws X.Arithmetic.meaning }
{}
