// Transforms stroke files under chosen plans with chosen work buffers, and prints each spectrum or refusal. It also
// says where a refusal has changed a lent buffer, or a granted call has left something in the work buffer.
//
// The arguments come by threes: a stroke file by its name; a plan, which is 'standard', '-' for the empty one, or radices joined
// by commas; and how many elements of work are lent.
#![tactic(auto)]

use arithmetic::Arithmetic;
use casework::{Element, radices};
use fixed::Fixed;
use pad::{Failure, refusal_text, report_on, spectrum_text};
use refusal::Fault;
use spectrum::transform;
use std::alloc::{AllocError, Global};
use std::{env, fs};
use stroke::Stroke;

fn samples(heap: Global, stroke: &Stroke<'_>) -> Result<Vec<Fixed>, AllocError> {
    (0..stroke.len())
        .filter_map(|i| stroke.path(i))
        .map(|(x, y)| Fixed::sample(x, y))
        .collect(heap)
}

// Two lines, as in each program: the crate that has the text prints nothing.
fn refused(rt: &HostRuntime, fault: Fault) -> anyhow::Result<()> {
    let line = refusal_text(rt.alloc(), fault)?;
    print!(rt; "{line}")?;
    Ok(())
}

// The standard plan, by the call that the program `tones` makes.
fn standard(rt: &HostRuntime, bytes: &[u8]) -> anyhow::Result<()> {
    match report_on(rt.alloc(), bytes) {
        Ok(text) => print!(rt; "{text}")?,
        Err(Failure::Refused(fault)) => refused(rt, fault)?,
        Err(Failure::Text(e)) => return Err(e.into()),
    }
    Ok(())
}

fn chosen(rt: &HostRuntime, bytes: &[u8], plan: &str, lent: usize) -> anyhow::Result<()> {
    let stroke = match stroke::read(bytes) {
        Ok(stroke) => stroke,
        Err(fault) => return refused(rt, Fault::File(fault)),
    };
    let radices = radices(rt.alloc(), plan)?;
    let before = samples(rt.alloc(), &stroke)?;
    let mut buf = before.clone()?;
    let mut work = vec![in rt.alloc(); Fixed::mark(); lent]?;
    match transform(&radices, &mut buf, &mut work) {
        Ok(turns) => {
            let text = spectrum_text(rt.alloc(), turns, &buf)?;
            print!(rt; "{text}")?;
            if !work.iter().all(|x| *x == Fixed::zero()) {
                println!(rt; "the work is not cleared")?;
            }
        }
        Err(fault) => {
            refused(rt, fault)?;
            if buf != before || !work.iter().all(|x| *x == Fixed::mark()) {
                println!(rt; "a lent buffer has changed")?;
            }
        }
    }
    Ok(())
}

fn case(rt: &HostRuntime, name: &str, plan: &str, work: &str) -> anyhow::Result<()> {
    println!(rt; "{name} under {plan} with {work}")?;
    let path = format!(in rt.alloc(); "{name}.stroke")?;
    let bytes = fs::read(rt, path.as_str())?;
    // A word that is looked at once, here.
    if plan == "standard" {
        standard(rt, &bytes)
    } else {
        chosen(rt, &bytes, plan, work.parse()?)
    }
}

fn main(rt: HostRuntime) -> anyhow::Result<()> {
    // The first word is the program's name.
    let mut words = env::args(&rt)?.skip(1);
    while let (Some(name), Some(plan), Some(work)) = (words.next(), words.next(), words.next()) {
        case(&rt, name.as_str(), plan.as_str(), work.as_str())?;
    }
    Ok(())
}
