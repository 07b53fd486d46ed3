// The inverse: the samples of tones, in the buffer where these were.
ghost use Rattle.std.specs.Prelude.{◌≡◌, ◌+◌, ◌^◌, ◌<◌, ◌≤◌, true, List, map, length, replicate, Ok, OnOk};
ghost use Rattle.std.specs.Result.{result_and, result_map_both};
ghost use Rattle.plan.specs.Radices.{size, largest_radix};
ghost use Rattle.plan.specs.Planned.{radices_of};
ghost use Rattle.spectra.specs.Spectra.{inverse as inverse_of};
ghost use Rattle.spectra.specs.SpectraLaws.{TonesOf};
ghost use Rattle.spectra.specs.Moves.{mirrored};
ghost use Rattle.spectrum.specs.Granted.{filled, inverted, where_granted, cleared};

use crate::engine::clear;
use crate::suited::Suited;
use crate::tested::lent;
use arithmetic::Arithmetic;
use refusal::Fault;

// Refuses an arithmetic that has no product and no part.
pub(crate) fn full<X: Arithmetic>() -> Result<(), Fault>
    ensures answer { result ≡ filled X.Arithmetic.meaning.full }
{
    if X::full() { Ok(()) } else { Err(Fault::Unfit) }
}

// Place t takes place (N - t) mod N: the first stays, and the others turn round.
pub fn mirror<X: Arithmetic>(buf: &mut [X])
    ensures after { buf.new ≡ mirrored X.Arithmetic.meaning.zero buf.old }
{
    if let [_, others @ ..] = buf {
        others.reverse();
    }
}

// Each of N elements becomes one of N equal parts of itself.
fn part_each<X: Arithmetic>(buf: &mut [X])
    requires { length buf.old < 2 ^ 32 }
    ensures after { buf.new ≡ map (λ x. X.Arithmetic.meaning.part x (length buf.old)) buf.old }
{
    let n = buf.len() as u32;
    for x in buf.iter_mut() {
        *x = x.part(n);
    }
}

impl<X: Arithmetic> Suited<X> {
    // The inverse of the tones in `buf`, in their place, and then zeros in `work`.
    // The lengths of lent slices stay in `requires`: a struct of two slices was tried, and its caller's proof does not learn what they hold afterwards.
    pub(crate) fn restore(&self, buf: &mut [X], work: &mut [X])
        requires full { X.Arithmetic.meaning.full ≡ true }
        requires whole { length buf.old ≡ size (radices_of self.now.plan) }
        requires room { length buf.old + largest_radix ≤ length work.old }
        ensures after { buf.new ≡ inverse_of X.Arithmetic.meaning buf.old }
        ensures restores { (a : List X) → TonesOf X.Arithmetic.meaning a buf.old → buf.new ≡ map X.Arithmetic.meaning.value a }
        ensures work { work.new ≡ replicate (length work.old) X.Arithmetic.meaning.zero }
    {
        self.deal(buf, work);
        self.stages(buf, work);
        mirror(buf);
        part_each(buf);
        clear(work);
    }
}

// The plan of these radices, where the arithmetic can invert and the lent memory suits.
fn invertible<X: Arithmetic>(radices: &[u8], buf: usize, work: usize) -> Result<Suited<X>, Fault>
    ensures answer { result_map_both (λ suited. radices_of suited.plan) (λ f. f) result ≡ result_and (inverted X.Arithmetic.meaning radices.now buf work) (Ok radices.now) }
{
    let suited = Suited::new(radices)?;
    full::<X>()?;
    lent(suited.plan.len(), buf, work)?;
    Ok(suited)
}

// The samples of the tones in `buf`, in their place: those whose defining sums the tones are.
// A refusal changes nothing, and a granted call leaves zeros in `work`.
pub fn inverse<X: Arithmetic>(radices: &[u8], buf: &mut [X], work: &mut [X]) -> Result<(), Fault>
    ensures answer { result ≡ inverted X.Arithmetic.meaning radices.now (length buf.old) (length work.old) }
    ensures after { buf.new ≡ where_granted result (inverse_of X.Arithmetic.meaning buf.old) buf.old }
    ensures restores { OnOk result ((a : List X) → TonesOf X.Arithmetic.meaning a buf.old → buf.new ≡ map X.Arithmetic.meaning.value a) }
    ensures work { work.new ≡ cleared X.Arithmetic.meaning result work.old }
{
    let suited = invertible::<X>(radices, buf.len(), work.len())?;
    suited.restore(buf, work);
    Ok(())
}
