// Reads a stroke file on standard input and prints its spectrum, or why it is refused.
#![tactic(auto)]

use anyhow::bail;
use casework::file_bytes;
use pad::{Failure, refusal_text, report_on};
use refusal::Fault;
use std::process::ExitCode;

// Prints the spectrum; answers why there is none where the file is refused. A refusal is an answer, printed on standard output,
// and no error: so it stands in a Result of its own.
fn run(rt: &HostRuntime) -> anyhow::Result<Result<(), Fault>> {
    let bytes = file_bytes(rt.alloc(), rt.stdin())?;
    match report_on(rt.alloc(), &bytes) {
        Ok(text) => print!(rt; "{text}")?,
        Err(Failure::Refused(fault)) => return Ok(Err(fault)),
        Err(Failure::Text(_)) => bail!("no memory for the text"),
    }
    Ok(Ok(()))
}

// As the main of `compare`, but for what may stop it, which each says under its own name.
fn main(rt: HostRuntime) -> anyhow::Result<ExitCode> {
    match run(&rt) {
        Ok(Ok(())) => return Ok(ExitCode::SUCCESS),
        Ok(Err(fault)) => {
            let line = refusal_text(rt.alloc(), fault)?;
            print!(rt; "{line}")?;
        }
        Err(e) => eprintln!(rt; "tones: {e}")?,
    }
    Ok(ExitCode::FAILURE)
}
