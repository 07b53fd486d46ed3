// The spectrum of the stroke in a file.
ghost use Rattle.std.specs.Prelude.{◌≡◌, length, replicate, Ok};
ghost use Rattle.std.specs.Result.{result_and, result_map_both};
ghost use Rattle.fixed.specs.Pairs.{fixed, origin, entered};
ghost use Rattle.plan.specs.Planned.{radices_of};
ghost use Rattle.plan.specs.Radices.{size, turns};
ghost use Rattle.quarter.specs.Entries.{circle};
ghost use Rattle.spectrum.specs.Granted.{divided, lent};
ghost use Rattle.spectra.specs.Tones.{tones};
ghost use Rattle.stroke.specs.Reading.{contents};
ghost use Rattle.pad.specs.Files.{file_spectrum, summary, in_front, cleared};

use crate::entering::enter;
use arithmetic::Arithmetic;
use fixed::Fixed;
use plan::Plan;
use refusal::Fault;
use stroke::Stroke;

// How many tones a spectrum has, and how many turns made them. The tones lie in the front of what was lent: none is taken for them.
#[derive(Clone, Copy, Debug, PartialEq, Eq)]
pub struct Summary {
    pub count: usize,
    pub turns: usize,
}

// The tones of the stroke's path under a plan that was granted; answers the turns made.
fn fill(stroke: &Stroke<'_>, plan: &Plan, buf: &mut [Fixed], work: &mut [Fixed]) -> usize
    requires whole { size (radices_of plan.now) ≡ length (contents stroke.now).path }
    requires granted { Ok tt ≡ result_and (divided circle (size (radices_of plan.now))) (lent (size (radices_of plan.now)) (length buf.old) (length work.old)) }
    ensures answer { result ≡ turns (radices_of plan.now) }
    ensures after { buf.new ≡ tones fixed (radices_of plan.now) (entered (contents stroke.now).path) }
    ensures work { work.new ≡ replicate (length work.old) origin }
{
    enter(stroke, buf);
    spectrum::transform(plan.radices(), buf, work).unwrap()
}

// Transforms the stroke in `bytes` under the standard plan of its length N. The tones take the first N elements of
// `tones`, which has at least as many; `work` has N + 8 or more. Every refusal comes before the first write.
pub fn file_tones(bytes: &[u8], tones: &mut [Fixed], work: &mut [Fixed]) -> Result<Summary, Fault>
    ensures answer { result ≡ result_map_both summary (λ f. f) (file_spectrum (length tones.old) (length work.old) bytes.now) }
    ensures after { tones.new ≡ in_front (file_spectrum (length tones.old) (length work.old) bytes.now) tones.old }
    ensures work { work.new ≡ cleared (file_spectrum (length tones.old) (length work.old) bytes.now) work.old }
{
    let stroke = stroke::read(bytes)?;
    let plan = Plan::standard(stroke.len())?;
    let count = plan.len();
    spectrum::granted::<Fixed>(&plan, tones.len().min(count), work.len())?;
    let turns = fill(&stroke, &plan, &mut tones[0..count], work);
    Ok(Summary { count, turns })
}
