// Runs that are held as numbers: the radices of the plan, and how many stages are done.
ghost use Rattle.std.specs.Prelude.{◌≡◌, length};
ghost use Rattle.spectrum.specs.Granted.{where_granted, cleared};
ghost use Rattle.crossing.specs.Runs.{stepping, next_stage, finishing, Deals, Steps, Finishes};

use crate::status::{Status, answered, settled};
use arithmetic::Arithmetic;
use fixed::Fixed;
use refusal::Fault;
use runs::Run;

// Lets the token go, since its numbers are with the caller. There is nothing to clear.
fn set_down(run: Run) {
    run.give_up::<Fixed>(&mut []);
}

// Why a run was handed back. It is set down too.
fn refused(handed_back: (Run, Fault)) -> Fault
    ensures answer { result ≡ handed_back.1 }
{
    let (run, fault) = handed_back;
    set_down(run);
    fault
}

pub fn deal<X: Arithmetic>(radices: &[u8], buf: &mut [X], work: &mut [X]) -> Status
    ensures made { Deals X.Arithmetic.meaning radices.now buf.old work.old result buf.new work.new }
{
    settled(Run::deal(radices, buf, work).map(set_down))
}

fn step<X: Arithmetic>(
    radices: &[u8],
    done: usize,
    buf: &mut [X],
    work: &mut [X],
) -> Result<(), Fault>
    ensures answer { result ≡ stepping X.Arithmetic.meaning.span radices.now done (length buf.old) (length work.old) }
    ensures after { buf.new ≡ where_granted result (next_stage X.Arithmetic.meaning radices.now done buf.old) buf.old }
    ensures work { work.new ≡ cleared X.Arithmetic.meaning result work.old }
{
    let run = Run::resume(radices, done)?;
    run.stage(buf, work).map(set_down).map_err(refused)
}

fn finish_held(radices: &[u8], done: usize) -> Result<usize, Fault>
    ensures answer { result ≡ finishing radices.now done }
{
    let run = Run::resume(radices, done)?;
    run.finish().map_err(refused)
}

// The stage after `done` of them.
pub fn stage<X: Arithmetic>(radices: &[u8], done: usize, buf: &mut [X], work: &mut [X]) -> Status
    ensures made { Steps X.Arithmetic.meaning radices.now done buf.old work.old result buf.new work.new }
{
    settled(step(radices, done, buf, work))
}

pub fn finish(radices: &[u8], done: usize, turns: &mut usize) -> Status
    ensures made { Finishes radices.now done turns.old result turns.new }
{
    answered(finish_held(radices, done), turns)
}
