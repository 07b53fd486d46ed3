// Runs that are driven from their samples on: part of the way, and all of it.
ghost use Rattle.std.specs.Prelude.{◌≡◌, length, take, drop, IfOk, MatchResult};
ghost use Rattle.spectra.specs.Tones.{tones};
ghost use Rattle.spectrum.specs.Granted.{transformed, where_granted, cleared};
ghost use Rattle.runs.specs.Runs.{as_seen, IsHeld, begun, polled_run};
ghost use Rattle.spectra.specs.ByBlocks.{ByBlocks};

use crate::run::Run;
use arithmetic::Arithmetic;
use refusal::Fault;

// Deals the samples in `buf` and takes so many stages, or all where there are fewer. Each block of the buffer then
// holds the tones of its samples under the radices that are done.
// A refusal changes nothing, and a granted call leaves zeros in `work`.
pub fn poll<X: Arithmetic>(
    radices: &[u8],
    polls: usize,
    buf: &mut [X],
    work: &mut [X],
) -> Result<Run, Fault>
    ensures answer { as_seen result ≡ begun X.Arithmetic.meaning.span radices.now (length buf.old) (length work.old) (polled_run radices.now polls) }
    ensures held { IfOk result IsHeld }
    ensures after { MatchResult result (λ run. ByBlocks X.Arithmetic.meaning (take run.left radices.now) (drop run.left radices.now) buf.old buf.new) (λ _. buf.new ≡ buf.old) }
    ensures work { work.new ≡ cleared X.Arithmetic.meaning result work.old }
{
    let mut run = Run::deal(radices, buf, work)?;
    let count = polls.min(run.left());
    for _i in 0..count {
        run = run.stage(buf, work).unwrap();
    }
    Ok(run)
}

// The tones of the samples in `buf`, one stage at a poll: what a transform makes and answers.
pub fn poll_through<X: Arithmetic>(
    radices: &[u8],
    buf: &mut [X],
    work: &mut [X],
) -> Result<usize, Fault>
    ensures answer { result ≡ transformed X.Arithmetic.meaning.span radices.now (length buf.old) (length work.old) }
    ensures after { buf.new ≡ where_granted result (tones X.Arithmetic.meaning radices.now buf.old) buf.old }
    ensures work { work.new ≡ cleared X.Arithmetic.meaning result work.old }
{
    let run = poll(radices, radices.len(), buf, work)?;
    Ok(run.finish().unwrap())
}
