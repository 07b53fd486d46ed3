// What every call under a plan tests before it writes.
ghost use Rattle.std.specs.Prelude.{◌≡◌};
ghost use Rattle.std.specs.Result.{result_and, result_map_both};
ghost use Rattle.plan.specs.Planned.{radices_of};
ghost use Rattle.plan.specs.Radices.{size};
ghost use Rattle.spectrum.specs.Granted.{divided, lent as lent_for, suited};

use crate::suited::Suited;
use arithmetic::Arithmetic;
use plan::Plan;
use refusal::Fault;

// What a stage takes of the work beside the length: one element for each row of the largest radix.
pub const SCRATCH: usize = 8;

// Refuses a length that does not divide the span, as no span is divided by 0.
pub fn divides<X: Arithmetic>(n: usize) -> Result<(), Fault>
    ensures answer { result ≡ divided X.Arithmetic.meaning.span n }
{
    if n > 0 && X::span() as usize % n == 0 {
        Ok(())
    } else {
        Err(Fault::Span(n))
    }
}

// Refuses a buffer that is not of the length, then a work buffer that is too short for it.
pub(crate) fn lent(n: usize, buf: usize, work: usize) -> Result<(), Fault>
    ensures answer { result ≡ lent_for n buf work }
{
    if buf != n {
        return Err(Fault::Length);
    }
    if work < SCRATCH || work - SCRATCH < n {
        return Err(Fault::Work);
    }
    Ok(())
}

// Refuses a length that does not divide the span, or lent memory that does not suit it: for a caller that has no plan.
pub fn suits<X: Arithmetic>(n: usize, buf: usize, work: usize) -> Result<(), Fault>
    ensures answer { result ≡ result_and (divided X.Arithmetic.meaning.span n) (lent_for n buf work) }
{
    divides::<X>(n)?;
    lent(n, buf, work)
}

// Refuses a plan whose length does not divide the span, or lent memory that does not suit it: a caller that has
// something to write into the buffer first asks here, so that a refusal finds the buffer as it was.
pub fn granted<X: Arithmetic>(plan: &Plan, buf: usize, work: usize) -> Result<(), Fault>
    ensures answer { result ≡ result_and (divided X.Arithmetic.meaning.span (size (radices_of plan.now))) (lent_for (size (radices_of plan.now)) buf work) }
{
    suits::<X>(plan.len(), buf, work)
}

// The plan of these radices, where the span and the lent memory suit its length.
pub(crate) fn suiting<X: Arithmetic>(
    radices: &[u8],
    buf: usize,
    work: usize,
) -> Result<Suited<X>, Fault>
    ensures answer { result_map_both (λ suited. radices_of suited.plan) (λ f. f) result ≡ suited X.Arithmetic.meaning.span radices.now buf work radices.now }
{
    let suited = Suited::new(radices)?;
    lent(suited.plan.len(), buf, work)?;
    Ok(suited)
}
