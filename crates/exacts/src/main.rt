// Runs transform, inverse and convolve in each arithmetic on the cases of standard input, and prints each result or
// refusal. It also says where a refusal has changed a lent buffer, or a granted call has left something in the work.
//
// A case is a line: the arithmetic, the call, the radices joined by commas ('-' for none), and how many elements of
// work are lent. After a ':' come the lent lists, a '|' between two: one for transform and inverse; for convolve both
// factors, and what lies where the result goes. The words of one element are joined by a comma, and what stands after a
// second one is not read.
#![tactic(auto)]

use anyhow::anyhow;
use casework::{Element, front_elements, radices, script};
use fixed::Fixed;
use pad::refusal_text;
use path::Path;
use pressure::Pressure;
use refusal::Fault;
use spectrum::{convolve, inverse, transform};

// How many elements are printed on a line.
const ROW: usize = 8;

fn print_elements<X: Element>(rt: &HostRuntime, buf: &[X]) -> anyhow::Result<()> {
    for row in buf.chunks(ROW) {
        let mut text = String::new(rt.alloc());
        for x in row {
            text.push(' ')?;
            X::write(x.read(), &mut text)?;
        }
        println!(rt; "{text}")?;
    }
    Ok(())
}

// Prints what a call answered and left in the buffer, which held `before`, and in the work, which held marks.
fn print_end<X: Element>(
    rt: &HostRuntime,
    answer: Result<(), Fault>,
    before: &[X],
    buf: &[X],
    work: &[X],
) -> anyhow::Result<()> {
    match answer {
        Ok(()) => {
            print_elements(rt, buf)?;
            if !work.iter().all(|x| *x == X::zero()) {
                println!(rt; "the work is not cleared")?;
            }
        }
        Err(fault) => {
            let line = refusal_text(rt.alloc(), fault)?;
            print!(rt; "{line}")?;
            if buf != before || !work.iter().all(|x| *x == X::mark()) {
                println!(rt; "a lent buffer has changed")?;
            }
        }
    }
    Ok(())
}

// A call on one list, where it lies. It answers the turns made, if it counts any.
fn run_in_place<X: Element, F: FnOnce(&mut [X], &mut [X]) -> Result<Option<usize>, Fault>>(
    rt: &HostRuntime,
    call: F,
    lists: &str,
    work: &mut [X],
) -> anyhow::Result<()>
    requires { F.IsAlwaysCallable call }
{
    let before = front_elements::<X>(rt.alloc(), lists)?;
    let mut buf = before.clone()?;
    let answer = call(&mut buf, work);
    if let Ok(Some(turns)) = &answer {
        println!(rt; "turns {turns}")?;
    }
    print_end(rt, answer.map(|_| ()), &before, &buf, work)
}

fn run_convolve<X: Element>(
    rt: &HostRuntime,
    radices: &[u8],
    lists: &str,
    work: &mut [X],
) -> anyhow::Result<()> {
    let mut lists = lists.split('|');
    let first = lists.next().unwrap_or("");
    let second = lists.next().unwrap_or("");
    let a = front_elements::<X>(rt.alloc(), first)?;
    let b = front_elements::<X>(rt.alloc(), second)?;
    let before = front_elements::<X>(rt.alloc(), lists.next().unwrap_or(""))?;
    let mut out = before.clone()?;
    let answer = convolve(radices, &a, &b, &mut out, work);
    if a != front_elements::<X>(rt.alloc(), first)?
        || b != front_elements::<X>(rt.alloc(), second)?
    {
        println!(rt; "a factor has changed")?;
    }
    print_end(rt, answer, &before, &out, work)
}

// Runs a call by what stands after the arithmetic: the call's name, the radices and how much work is lent.
fn run<X: Element>(rt: &HostRuntime, words: &str, lists: &str) -> anyhow::Result<()> {
    let mut words = words.split(' ');
    let call = words.next().unwrap_or("");
    let radices = radices(rt.alloc(), words.next().unwrap_or(""))?;
    let lent = words.next().unwrap_or("").parse::<usize>()?;
    let mut work = vec![in rt.alloc(); X::mark(); lent]?;
    // Each word is looked at once, here: an enum of the calls would only name them a second time.
    match call {
        "transform" => {
            let call = |buf: &mut [X], work: &mut [X]| transform(&radices, buf, work).map(Some);
            run_in_place(rt, call, lists, &mut work)
        }
        "inverse" => {
            let call = |buf: &mut [X], work: &mut [X]| inverse(&radices, buf, work).map(|()| None);
            run_in_place(rt, call, lists, &mut work)
        }
        "convolve" => run_convolve(rt, &radices, lists, &mut work),
        _ => Err(anyhow!("no such call")),
    }
}

fn case(rt: &HostRuntime, line: &str) -> anyhow::Result<()> {
    let mut parts = line.split(':');
    let head = parts.next().unwrap_or("");
    let lists = parts.next().unwrap_or("");
    println!(rt; "{head}")?;
    let (arithmetic, words) = head.split_once(' ').unwrap_or((head, ""));
    // This word too is looked at once, here.
    match arithmetic {
        "pressure" => run::<Pressure>(rt, words, lists),
        "path" => run::<Path>(rt, words, lists),
        "fixed" => run::<Fixed>(rt, words, lists),
        _ => Err(anyhow!("no such arithmetic")),
    }
}

fn main(rt: HostRuntime) -> anyhow::Result<()> {
    let text = script(rt.alloc(), rt.stdin())?;
    for line in text.as_str().lines() {
        case(&rt, line)?;
    }
    Ok(())
}
