// Polls runs in the fixed arithmetic and prints what the buffer holds after each stage; gives a run up half way; and
// has each call refused, after which the run goes on and is finished.
#![tactic(auto)]

use anyhow::anyhow;
use arithmetic::Arithmetic;
use casework::Element;
use fixed::Fixed;
use pad::refusal_text;
use pressure::Pressure;
use refusal::Fault;
use runs::Run;
use std::alloc::{AllocError, Global};

// How many different samples there are, each way.
const COUNTS: usize = 2047;

// Work enough for every plan.
const ROOM: usize = 520;

// Sample t of a path that goes all over the pad.
fn sample(t: usize) -> Fixed {
    let x = t.wrapping_mul(389) % COUNTS;
    let y = t.wrapping_mul(911).wrapping_add(500) % COUNTS;
    Fixed::sample(x as i16 - 1023, y as i16 - 1023)
}

fn samples(heap: Global, n: usize) -> Result<Vec<Fixed>, AllocError> {
    (0..n).map(sample).collect(heap)
}

// Lines like those of a spectrum, under a heading of its own.
fn show(rt: &HostRuntime, heading: &str, number: usize, buf: &[Fixed]) -> anyhow::Result<()> {
    println!(rt; "{heading} {number}")?;
    for (k, value) in buf.iter().enumerate() {
        println!(rt; "{k} {} {}", value.x, value.y)?;
    }
    Ok(())
}

// Two lines, as in each program: the crate that has the text prints nothing.
fn refused(rt: &HostRuntime, fault: Fault) -> anyhow::Result<()> {
    let line = refusal_text(rt.alloc(), fault)?;
    print!(rt; "{line}")?;
    Ok(())
}

// The run goes on where its buffer could be shown, and is given up where not.
fn go_on(run: Run, buf: &mut [Fixed], shown: anyhow::Result<()>) -> anyhow::Result<Run> {
    match shown {
        Ok(()) => Ok(run),
        Err(e) => {
            run.give_up(buf);
            Err(e)
        }
    }
}

// Every stage of a run, and what the buffer holds before, between and after.
fn poll_all(
    rt: &HostRuntime,
    radices: &[u8],
    buf: &mut [Fixed],
    work: &mut [Fixed],
) -> anyhow::Result<()> {
    let mut run = match Run::deal(radices, buf, work) {
        Ok(run) => run,
        Err(fault) => return refused(rt, fault),
    };
    for _i in 0..run.left() {
        let shown = show(rt, "left", run.left(), buf);
        run = go_on(run, buf, shown)?;
        run = match run.stage(buf, work) {
            Ok(next) => next,
            Err((held, fault)) => {
                held.give_up(buf);
                return refused(rt, fault);
            }
        };
    }
    match run.finish() {
        Ok(turns) => show(rt, "turns", turns, buf),
        Err((held, fault)) => {
            held.give_up(buf);
            refused(rt, fault)
        }
    }
}

fn case(rt: &HostRuntime, radices: &[u8], n: usize) -> anyhow::Result<()> {
    println!(rt; "plan {radices:?}")?;
    let mut buf = samples(rt.alloc(), n)?;
    let mut work = vec![in rt.alloc(); Fixed::mark(); ROOM]?;
    poll_all(rt, radices, &mut buf, &mut work)?;
    if !work.iter().all(|x| *x == Fixed::zero()) {
        println!(rt; "the work is not cleared")?;
    }
    Ok(())
}

// What dealing says to these radices, and to buffers of these lengths. A run that it begins is given up.
fn deal_only(rt: &HostRuntime, radices: &[u8], n: usize, room: usize) -> anyhow::Result<()> {
    let before = samples(rt.alloc(), n)?;
    let mut buf = before.clone()?;
    let mut work = vec![in rt.alloc(); Fixed::mark(); room]?;
    match Run::deal(radices, &mut buf, &mut work) {
        Ok(run) => {
            run.give_up(&mut buf);
            println!(rt; "granted")?;
        }
        Err(fault) => {
            refused(rt, fault)?;
            if buf != before || !work.iter().all(|x| *x == Fixed::mark()) {
                println!(rt; "a lent buffer has changed")?;
            }
        }
    }
    Ok(())
}

// A stage, and why it was refused where it was. The run goes on in either case.
fn try_stage<X: Arithmetic>(run: Run, buf: &mut [X], work: &mut [X]) -> (Run, Option<Fault>) {
    match run.stage(buf, work) {
        Ok(next) => (next, None),
        Err((held, fault)) => (held, Some(fault)),
    }
}

fn say(rt: &HostRuntime, heard: Option<Fault>) -> anyhow::Result<()> {
    match heard {
        Some(fault) => refused(rt, fault),
        None => {
            println!(rt; "granted")?;
            Ok(())
        }
    }
}

// A run that is granted.
fn begin<X: Arithmetic>(radices: &[u8], buf: &mut [X], work: &mut [X]) -> anyhow::Result<Run> {
    Run::deal(radices, buf, work).map_err(|_| anyhow!("a run was refused"))
}

// Its turns, where no stage is left.
fn end<X: Arithmetic>(run: Run, buf: &mut [X]) -> anyhow::Result<usize> {
    match run.finish() {
        Ok(turns) => Ok(turns),
        Err((held, _)) => {
            held.give_up(buf);
            Err(anyhow!("a stage was left"))
        }
    }
}

// A run that is given up after its first stage, over a buffer of some other length.
fn abandon(rt: &HostRuntime, n: usize) -> anyhow::Result<()> {
    let mut buf = samples(rt.alloc(), 8)?;
    let mut work = vec![in rt.alloc(); Fixed::mark(); ROOM]?;
    let mut other = samples(rt.alloc(), n)?;
    let run = begin(&[2, 2, 2], &mut buf, &mut work)?;
    let (run, heard) = try_stage(run, &mut buf, &mut work);
    let left = run.left();
    run.give_up(&mut other);
    say(rt, heard)?;
    show(rt, "given up with left", left, &other)
}

// A run that is refused before, between and after its stages, goes on each time and is finished.
fn insist(rt: &HostRuntime) -> anyhow::Result<()> {
    let mut buf = samples(rt.alloc(), 8)?;
    let mut work = vec![in rt.alloc(); Fixed::mark(); 16]?;
    let mut other = samples(rt.alloc(), 7)?;
    let mut short = vec![in rt.alloc(); Fixed::mark(); 15]?;
    let run = begin(&[4, 2], &mut buf, &mut work)?;
    let (run, length) = try_stage(run, &mut other, &mut short);
    let (run, room) = try_stage(run, &mut buf, &mut short);
    let (run, first) = try_stage(run, &mut buf, &mut work);
    let (run, early) = match run.finish() {
        Ok(_) => return Err(anyhow!("a run was finished too early")),
        Err(e) => e,
    };
    let (run, second) = try_stage(run, &mut buf, &mut work);
    let (run, late) = try_stage(run, &mut buf, &mut work);
    let (run, room_first) = try_stage(run, &mut buf, &mut short);
    let turns = end(run, &mut buf)?;
    for heard in [length, room, first, Some(early), second, late, room_first] {
        say(rt, heard)?;
    }
    if !short.iter().all(|x| *x == Fixed::mark()) || other != samples(rt.alloc(), 7)? {
        println!(rt; "a lent buffer has changed")?;
    }
    show(rt, "turns", turns, &buf)
}

// A run of three samples, whose length the fixed arithmetic refuses and the pressure arithmetic grants.
fn change(rt: &HostRuntime) -> anyhow::Result<()> {
    let mut fixed = samples(rt.alloc(), 3)?;
    let mut fixed_work = vec![in rt.alloc(); Fixed::mark(); ROOM]?;
    let mut counts = vec![in rt.alloc(); Pressure::count(1023); 3]?;
    let mut work = vec![in rt.alloc(); Pressure::count(1); ROOM]?;
    let run = begin(&[3], &mut counts, &mut work)?;
    let (run, outside) = try_stage(run, &mut fixed, &mut fixed_work);
    let (run, inside) = try_stage(run, &mut counts, &mut work);
    let turns = end(run, &mut counts)?;
    say(rt, outside)?;
    say(rt, inside)?;
    show(rt, "turns", turns, &fixed)
}

fn main(rt: HostRuntime) -> anyhow::Result<()> {
    case(&rt, &[], 1)?;
    case(&rt, &[2], 2)?;
    case(&rt, &[2, 2], 4)?;
    case(&rt, &[4, 2], 8)?;
    case(&rt, &[2, 4], 8)?;
    case(&rt, &[2, 2, 2], 8)?;
    case(&rt, &[2, 8, 4], 64)?;
    case(&rt, &[8, 8, 8], 512)?;
    deal_only(&rt, &[2, 2, 2, 2, 2, 2, 2, 2, 2, 2], 4, ROOM)?;
    deal_only(&rt, &[2, 9], 4, ROOM)?;
    deal_only(&rt, &[8, 8, 8, 2], 4, ROOM)?;
    deal_only(&rt, &[3], 4, 11)?;
    deal_only(&rt, &[4], 3, 11)?;
    deal_only(&rt, &[4], 4, 11)?;
    deal_only(&rt, &[4], 4, 12)?;
    abandon(&rt, 8)?;
    abandon(&rt, 3)?;
    insist(&rt)?;
    change(&rt)
}
