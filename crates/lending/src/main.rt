// Matches lent strokes, or writes them as files, by the cases of standard input, and prints each answer or refusal. It also
// says where a refusal has changed the output, and where a file that was written is not read back as the stroke.
//
// A case is a line. 'match ROOM LAGS: STROKE | STROKE' prints the pairs of the lags that are named, joined by commas,
// or of every lag where LAGS is 'all'. 'write ROOM: STROKE' prints all of the output. ROOM is how long the output is.
// A stroke is its path, a '/' and its pressures, or '-' for none at all. 'V*N' stands for N times V.
#![tactic(auto)]

mod given;
mod matches;
mod writes;

use anyhow::anyhow;
use casework::script;
use matches::run_match;
use pad::refusal_text;
use refusal::Fault;
use writes::run_write;

pub(crate) fn print_refusal(rt: &HostRuntime, fault: Fault, changed: bool) -> anyhow::Result<()> {
    let line = refusal_text(rt.alloc(), fault)?;
    print!(rt; "{line}")?;
    if changed {
        println!(rt; "the output has changed")?;
    }
    Ok(())
}

fn case(rt: &HostRuntime, line: &str) -> anyhow::Result<()> {
    let mut parts = line.split(':');
    let head = parts.next().unwrap_or("");
    let strokes = parts.next().unwrap_or("");
    println!(rt; "{head}")?;
    let mut words = head.split(' ');
    let call = words.next().unwrap_or("");
    let room = words.next().unwrap_or("").parse::<usize>()?;
    // Each word is looked at once, here: an enum of the calls would only name them a second time.
    match call {
        "match" => run_match(rt, room, words.next().unwrap_or(""), strokes),
        "write" => run_write(rt, room, strokes),
        _ => Err(anyhow!("no such call")),
    }
}

// A loop over lines, as in `exacts`: what they share is the reading of the script.
fn main(rt: HostRuntime) -> anyhow::Result<()> {
    let text = script(rt.alloc(), rt.stdin())?;
    for line in text.as_str().lines() {
        case(&rt, line)?;
    }
    Ok(())
}
