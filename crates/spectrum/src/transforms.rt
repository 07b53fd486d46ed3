// The transform: the tones of samples, in the buffer where these were.
ghost use Rattle.std.specs.Prelude.{◌≡◌, ◌+◌, ◌≤◌, true, length, replicate, OnOk};
ghost use Rattle.plan.specs.Radices.{size, turns, largest_radix};
ghost use Rattle.plan.specs.Planned.{radices_of};
ghost use Rattle.spectra.specs.Tones.{tones};
ghost use Rattle.spectra.specs.SpectraLaws.{TonesOf};
ghost use Rattle.spectrum.specs.Granted.{transformed, where_granted, cleared};

use crate::engine::clear;
use crate::suited::Suited;
use crate::tested::suiting;
use arithmetic::Arithmetic;
use refusal::Fault;

impl<X: Arithmetic> Suited<X> {
    // The recursion's tones of the samples in `buf`, in their place, and then zeros in `work`. Answers the turns made.
    // The lengths of lent slices stay in `requires`: a struct of two slices was tried, and its caller's proof does not learn what they hold afterwards.
    fn tones_in_place(&self, buf: &mut [X], work: &mut [X]) -> usize
        requires whole { length buf.old ≡ size (radices_of self.now.plan) }
        requires room { length buf.old + largest_radix ≤ length work.old }
        ensures after { buf.new ≡ tones X.Arithmetic.meaning (radices_of self.now.plan) buf.old }
        ensures sums { X.Arithmetic.meaning.exact ≡ true → TonesOf X.Arithmetic.meaning buf.old buf.new }
        ensures work { work.new ≡ replicate (length work.old) X.Arithmetic.meaning.zero }
        ensures turns { result ≡ turns (radices_of self.now.plan) }
    {
        self.deal(buf, work);
        let made = self.stages(buf, work);
        clear(work);
        made
    }
}

// The recursion's tones of the samples in `buf`, in their place; answers the turns made.
// Over an exact arithmetic they are the defining sums, so all plans of a length agree.
// A refusal changes nothing, and a granted call leaves zeros in `work`.
pub fn transform<X: Arithmetic>(
    radices: &[u8],
    buf: &mut [X],
    work: &mut [X],
) -> Result<usize, Fault>
    ensures answer { result ≡ transformed X.Arithmetic.meaning.span radices.now (length buf.old) (length work.old) }
    ensures after { buf.new ≡ where_granted result (tones X.Arithmetic.meaning radices.now buf.old) buf.old }
    ensures sums { OnOk result (X.Arithmetic.meaning.exact ≡ true → TonesOf X.Arithmetic.meaning buf.old buf.new) }
    ensures work { work.new ≡ cleared X.Arithmetic.meaning result work.old }
{
    let suited = suiting::<X>(radices, buf.len(), work.len())?;
    Ok(suited.tones_in_place(buf, work))
}
