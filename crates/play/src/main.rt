// Plays scripts on sheets, and prints what each call answers.
//
// A script begins with a line of samples after the word 'pressure' or 'path'. Every line after it is a call: 'edit N V',
// 'shift H', 'mirror', 'lay V V ..' or 'tone K'. The two words of a path element are joined by a comma.
#![tactic(auto)]

mod worked;

use agreement::agreement;
use anyhow::anyhow;
use arithmetic::Arithmetic;
use casework::{Element, elements, script};
use pad::refusal_text;
use path::Path;
use plan::Plan;
use pressure::Pressure;
use refusal::Fault;
use sheet::{Sheet, open};
use spectrum::SCRATCH;

// Two lines, as in each program: the crate that has the text prints nothing.
fn print_refusal(rt: &HostRuntime, fault: Fault) -> anyhow::Result<()> {
    let line = refusal_text(rt.alloc(), fault)?;
    print!(rt; "{line}")?;
    Ok(())
}

fn print_answer(rt: &HostRuntime, answer: Result<(), Fault>) -> anyhow::Result<()> {
    match answer {
        Ok(()) => println!(rt; "done")?,
        Err(fault) => print_refusal(rt, fault)?,
    }
    Ok(())
}

fn play_tone<X: Element>(
    rt: &HostRuntime,
    sheet: &mut Sheet<'_, X>,
    k: usize,
) -> anyhow::Result<()> {
    match sheet.tone(k) {
        Ok(tone) => {
            let mut text = String::new(rt.alloc());
            X::write(tone, &mut text)?;
            println!(rt; "tone {text}")?;
        }
        Err(fault) => print_refusal(rt, fault)?,
    }
    Ok(())
}

fn play<X: Element>(rt: &HostRuntime, sheet: &mut Sheet<'_, X>, line: &str) -> anyhow::Result<()> {
    let (call, rest) = line.split_once(' ').unwrap_or((line, ""));
    // Not read into a `replay::Call`: its `Lay` borrows the list, which one match would have to read and keep for a second.
    match call {
        "edit" => {
            let (number, value) = rest.split_once(' ').unwrap_or((rest, ""));
            print_answer(rt, sheet.edit(number.parse::<usize>()?, X::parse(value)?))
        }
        "shift" => print_answer(rt, sheet.shift(rest.parse::<usize>()?)),
        "mirror" => print_answer(rt, sheet.mirror()),
        "lay" => {
            let laid = elements::<X>(rt.alloc(), rest)?;
            print_answer(rt, sheet.lay(&laid))
        }
        "tone" => play_tone(rt, sheet, rest.parse::<usize>()?),
        _ => Err(anyhow!("no such call")),
    }
}

// Opens a sheet under the standard plan of its length.
fn opened<X: Arithmetic>(cells: &mut [X], work: &mut [X]) -> Result<usize, Fault> {
    let plan = Plan::standard(cells.len() / 2)?;
    open(plan.radices(), cells, work)
}

// Plays the calls up to the next line of samples on a sheet of these samples.
fn perform<X: Element>(rt: &HostRuntime, samples: &str, calls: &str) -> anyhow::Result<()> {
    agreement::<X>();
    let mut cells = elements::<X>(rt.alloc(), samples)?;
    let n = cells.len();
    cells.resize(n.saturating_mul(2), X::zero())?;
    let mut work = vec![in rt.alloc(); X::zero(); n.saturating_add(SCRATCH)]?;
    match opened(&mut cells, &mut work) {
        Ok(n) => {
            let mut sheet = Sheet::over(&mut cells, n);
            for line in calls.lines() {
                print!(rt; "{line}: ")?;
                play(rt, &mut sheet, line)?;
            }
        }
        Err(fault) => print_refusal(rt, fault)?,
    }
    Ok(())
}

// A script: its first line, and its calls.
fn play_script(rt: &HostRuntime, text: &str) -> anyhow::Result<()> {
    let (first, calls) = text.split_once('\n').unwrap_or((text, ""));
    let (kind, samples) = first.split_once(' ').unwrap_or((first, ""));
    println!(rt; "{kind}")?;
    // The word is looked at once, here: an enum of the two would only name them a second time.
    match kind {
        "pressure" => perform::<Pressure>(rt, samples, calls),
        "path" => perform::<Path>(rt, samples, calls),
        _ => Err(anyhow!("no such sheet")),
    }
}

fn main(rt: HostRuntime) -> anyhow::Result<()> {
    let text = script(rt.alloc(), rt.stdin())?;
    // An empty line stands between two scripts.
    for part in text.as_str().split("\n\n") {
        play_script(&rt, part)?;
    }
    Ok(())
}
