// The cases of matching.
use crate::given::Given;
use crate::print_refusal;
use matching::{Match, match_strokes};

// What fills the output before a call, so that a change shows.
const MARK: (i64, i64) = (77, -77);

fn print_pair(rt: &HostRuntime, lag: usize, pair: Option<&(i64, i64)>) -> anyhow::Result<()> {
    match pair {
        Some((x, y)) => println!(rt; "{lag} {x} {y}")?,
        None => println!(rt; "{lag} is no lag")?,
    }
    Ok(())
}

fn print_pairs(rt: &HostRuntime, out: &[(i64, i64)], lags: &str) -> anyhow::Result<()> {
    if lags == "all" {
        for (lag, pair) in out.iter().enumerate() {
            print_pair(rt, lag, Some(pair))?;
        }
    } else {
        for word in lags.split(',') {
            let lag = word.parse::<usize>()?;
            print_pair(rt, lag, out.get(lag))?;
        }
    }
    Ok(())
}

fn print_match(rt: &HostRuntime, found: Match) -> anyhow::Result<()> {
    let lag = found.lag;
    match found.pressure {
        Some(pressure) => println!(rt; "lag {lag} pressure {pressure}")?,
        None => println!(rt; "lag {lag} no pressure")?,
    }
    Ok(())
}

pub(crate) fn run_match(
    rt: &HostRuntime,
    room: usize,
    lags: &str,
    strokes: &str,
) -> anyhow::Result<()> {
    let mut strokes = strokes.split('|');
    let a = Given::parse(rt.alloc(), strokes.next().unwrap_or(""))?;
    let b = Given::parse(rt.alloc(), strokes.next().unwrap_or(""))?;
    let mut out = vec![in rt.alloc(); MARK; room]?;
    match match_strokes(&a.lent(), &b.lent(), &mut out) {
        Ok(found) => {
            print_match(rt, found)?;
            print_pairs(rt, &out, lags)
        }
        Err(fault) => print_refusal(rt, fault, !out.iter().all(|pair| *pair == MARK)),
    }
}
