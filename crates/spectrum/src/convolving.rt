// The cyclic convolution of two lists of samples, by way of their spectra.
ghost use Rattle.std.specs.Prelude.{◌≡◌, ◌+◌, ◌≤◌, true, length, replicate, Ok, OnOk};
ghost use Rattle.std.specs.Result.{result_and, result_map_both};
ghost use Rattle.plan.specs.Radices.{size, largest_radix};
ghost use Rattle.plan.specs.Planned.{radices_of};
ghost use Rattle.spectra.specs.Tones.{tones as tones_of};
ghost use Rattle.spectra.specs.Spectra.{spectrum, spectra_product, convolution};
ghost use Rattle.spectrum.specs.Granted.{whole as whole_for, convolved, where_granted, cleared};

use crate::inverses::full;
use crate::suited::Suited;
use crate::tested::lent;
use arithmetic::Arithmetic;
use refusal::Fault;

// Refuses a list that is not of the length.
fn whole(n: usize, len: usize) -> Result<(), Fault>
    ensures answer { result ≡ whole_for n len }
{
    if len == n { Ok(()) } else { Err(Fault::Length) }
}

// The product of two spectra, tone by tone, where the first stands.
fn multiply<X: Arithmetic>(tones: &mut [X], others: &[X])
    requires { length others.now ≡ length tones.old }
    ensures after { tones.new ≡ spectra_product X.Arithmetic.meaning tones.old others.now }
{
    // By number: tried, and after `for (tone, other) in tones.iter_mut().zip(others)` a proof knows how many tones there are, and not which.
    for (k, other) in others.iter().enumerate() {
        tones[k] = tones[k].product(*other);
    }
}

impl<X: Arithmetic> Suited<X> {
    // The tones of samples that stay where they are, into `out`.
    // The lengths of lent slices stay in `requires`: a struct of two slices was tried, and its caller's proof does not learn what they hold afterwards.
    fn tones_into(&self, samples: &[X], out: &mut [X], scratch: &mut [X])
        requires samples { length samples.now ≡ size (radices_of self.now.plan) }
        requires out { length out.old ≡ size (radices_of self.now.plan) }
        requires scratch { largest_radix ≤ length scratch.old }
        ensures after { out.new ≡ tones_of X.Arithmetic.meaning (radices_of self.now.plan) samples.now }
    {
        self.scatter(samples, out);
        self.stages(out, scratch);
    }

    // The inverse of the product of both lists' tones, in `out`, and then zeros in `work`.
    // The tones of `b` wait at the front of `work` while those of `a` are made.
    fn convolve_by(&self, a: &[X], b: &[X], out: &mut [X], work: &mut [X])
        requires full { X.Arithmetic.meaning.full ≡ true }
        requires first { length a.now ≡ size (radices_of self.now.plan) }
        requires second { length b.now ≡ size (radices_of self.now.plan) }
        requires out { length out.old ≡ size (radices_of self.now.plan) }
        requires room { length out.old + largest_radix ≤ length work.old }
        ensures after { out.new ≡ convolution X.Arithmetic.meaning a.now b.now }
        ensures spectra { spectrum X.Arithmetic.meaning out.new ≡ spectra_product X.Arithmetic.meaning (spectrum X.Arithmetic.meaning a.now) (spectrum X.Arithmetic.meaning b.now) }
        ensures work { work.new ≡ replicate (length work.old) X.Arithmetic.meaning.zero }
    {
        let n = self.plan.len();
        self.tones_into(b, out, work);
        work[0..n].copy_from_slice(out);
        self.tones_into(a, out, &mut work[n..]);
        multiply(out, &work[0..n]);
        self.restore(out, work);
    }
}

// The plan of these radices, where the arithmetic can convolve and the lists and the lent memory suit.
fn convolvable<X: Arithmetic>(
    radices: &[u8],
    a: usize,
    b: usize,
    out: usize,
    work: usize,
) -> Result<Suited<X>, Fault>
    ensures answer { result_map_both (λ suited. radices_of suited.plan) (λ f. f) result ≡ result_and (convolved X.Arithmetic.meaning radices.now a b out work) (Ok radices.now) }
{
    let suited = Suited::new(radices)?;
    let n = suited.plan.len();
    full::<X>()?;
    whole(n, a)?;
    whole(n, b)?;
    lent(n, out, work)?;
    Ok(suited)
}

// The cyclic convolution of `a` and `b` in `out`: its spectrum is the product of theirs.
// A refusal changes nothing, and a granted call leaves zeros in `work`.
pub fn convolve<X: Arithmetic>(
    radices: &[u8],
    a: &[X],
    b: &[X],
    out: &mut [X],
    work: &mut [X],
) -> Result<(), Fault>
    ensures answer { result ≡ convolved X.Arithmetic.meaning radices.now (length a.now) (length b.now) (length out.old) (length work.old) }
    ensures after { out.new ≡ where_granted result (convolution X.Arithmetic.meaning a.now b.now) out.old }
    ensures spectra { OnOk result (spectrum X.Arithmetic.meaning out.new ≡ spectra_product X.Arithmetic.meaning (spectrum X.Arithmetic.meaning a.now) (spectrum X.Arithmetic.meaning b.now)) }
    ensures work { work.new ≡ cleared X.Arithmetic.meaning result work.old }
{
    let suited = convolvable::<X>(radices, a.len(), b.len(), out.len(), work.len())?;
    suited.convolve_by(a, b, out, work);
    Ok(())
}
