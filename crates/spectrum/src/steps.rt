// Dealing and one stage as calls of their own, for a caller that takes a transform step by step.
ghost use Rattle.std.specs.Prelude.{◌≡◌, length};
ghost use Rattle.std.specs.Result.{result_map_both};
ghost use Rattle.plan.specs.Dealing.{dealt};
ghost use Rattle.plan.specs.Planned.{radices_of};
ghost use Rattle.spectra.specs.Stages.{staged};
ghost use Rattle.spectrum.specs.Granted.{suited, stage_suited, stage_turned, where_granted, cleared};

use crate::engine::clear;
use crate::shape::Shape;
use crate::tested::{SCRATCH, divides, suiting};
use arithmetic::Arithmetic;
use plan::Plan;
use refusal::Fault;

// Deals the samples in `buf`, and answers the plan that the radices are.
// A refusal changes nothing, and a granted call leaves zeros in `work`.
pub fn deal<X: Arithmetic>(radices: &[u8], buf: &mut [X], work: &mut [X]) -> Result<Plan, Fault>
    ensures answer { result_map_both radices_of (λ f. f) result ≡ suited X.Arithmetic.meaning.span radices.now (length buf.old) (length work.old) radices.now }
    ensures after { buf.new ≡ where_granted result (dealt X.Arithmetic.meaning.zero radices.now buf.old) buf.old }
    ensures work { work.new ≡ cleared X.Arithmetic.meaning result work.old }
{
    let suited = suiting::<X>(radices, buf.len(), work.len())?;
    suited.deal(buf, work);
    clear(work);
    Ok(suited.plan)
}

// Refuses a radix that no plan has, blocks whose size does not divide the span, and lent memory that does not suit them.
fn stage_suits<X: Arithmetic>(radix: u8, len: u32, buf: usize, work: usize) -> Result<(), Fault>
    ensures answer { result ≡ stage_suited X.Arithmetic.meaning.span radix len buf work }
{
    Plan::new(&[radix])?;
    let size = radix as usize * len as usize;
    divides::<X>(size)?;
    if buf % size != 0 || buf > u32::MAX as usize {
        return Err(Fault::Length);
    }
    if work < SCRATCH {
        return Err(Fault::Work);
    }
    Ok(())
}

// The stage of one radix, where the radices after it have the product `len`, on whatever the blocks in `buf` hold;
// answers the turns made.
// A refusal changes nothing, and a granted call leaves zeros in `work`.
pub fn stage<X: Arithmetic>(
    radix: u8,
    len: u32,
    buf: &mut [X],
    work: &mut [X],
) -> Result<usize, Fault>
    ensures answer { result ≡ stage_turned X.Arithmetic.meaning.span radix len (length buf.old) (length work.old) }
    ensures after { buf.new ≡ where_granted result (staged X.Arithmetic.meaning radix len buf.old) buf.old }
    ensures work { work.new ≡ cleared X.Arithmetic.meaning result work.old }
{
    stage_suits::<X>(radix, len, buf.len(), work.len())?;
    let made = Shape::new(radix as usize, len as usize).stage(buf, work);
    clear(work);
    Ok(made)
}
