// Matches the strokes in two files, which its arguments name, and prints their best lags, or why they are refused.
#![tactic(auto)]

use casework::file_bytes;
use comparison::report_on;
use pad::{Failure, refusal_text};
use refusal::Fault;
use std::process::ExitCode;
use std::{env, fs, io};
use thiserror::Error;

// What is printed on standard error where there is no answer.
#[derive(Debug, Drop, Error)]
enum Stop {
    #[error("usage: compare FIRST SECOND, the names of two stroke files")]
    Usage,
    #[error("compare: cannot read {0}: {1}")]
    Unread(String, io::Error),
    #[error("compare: no memory for the text")]
    Text,
    #[error("compare: {0}")]
    Io(#[from] io::Error),
}

fn contents(rt: &HostRuntime, name: &str) -> io::Result<Vec<u8>> {
    file_bytes(rt.alloc(), fs::open(rt, name)?)
}

// The bytes of a file; names it where it cannot be read.
fn file(rt: &HostRuntime, name: String) -> Result<Vec<u8>, Stop> {
    contents(rt, name.as_str()).map_err(|e| Stop::Unread(name, e))
}

// Prints the comparison; answers why there is none where a file is refused. A refusal is an answer, printed on standard
// output, and no error: so it stands in a Result of its own.
fn run(rt: &HostRuntime) -> Result<Result<(), Fault>, Stop> {
    // The first word is the program's name.
    let mut words = env::args(rt)?.skip(1);
    let (Some(first), Some(second), None) = (words.next(), words.next(), words.next()) else {
        return Err(Stop::Usage);
    };
    let first = file(rt, first)?;
    let second = file(rt, second)?;
    match report_on(rt.alloc(), &first, &second) {
        Ok(text) => print!(rt; "{text}")?,
        Err(Failure::Refused(fault)) => return Ok(Err(fault)),
        Err(Failure::Text(_)) => return Err(Stop::Text),
    }
    Ok(Ok(()))
}

fn main(rt: HostRuntime) -> anyhow::Result<ExitCode> {
    match run(&rt) {
        Ok(Ok(())) => return Ok(ExitCode::SUCCESS),
        Ok(Err(fault)) => {
            let line = refusal_text(rt.alloc(), fault)?;
            print!(rt; "{line}")?;
        }
        Err(stop) => eprintln!(rt; "{stop}")?,
    }
    Ok(ExitCode::FAILURE)
}
