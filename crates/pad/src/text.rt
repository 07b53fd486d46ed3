// The texts of a spectrum and of a refusal.
ghost use Rattle.std.specs.Prelude.{◌≡◌, ◌++◌, IfOk, string_bytes, OnOk};
ghost use Rattle.pad.specs.Printed.{heading, tone_line, tone_lines, printed, printed_refusal};

use fixed::Fixed;
use refusal::Fault;
use std::alloc::{AllocError, Global};

fn write_heading(text: &mut String, count: usize, turns: usize) -> Result<(), AllocError>
    ensures after { OnOk result (string_bytes text.new ≡ string_bytes text.old ++ heading count turns) }
{
    writeln!(text, "tones {count} turns {turns}")
}

fn write_tone(text: &mut String, k: usize, tone: Fixed) -> Result<(), AllocError>
    ensures after { OnOk result (string_bytes text.new ≡ string_bytes text.old ++ tone_line k tone) }
{
    writeln!(text, "{k} {} {}", tone.x, tone.y)
}

fn write_tones(text: &mut String, tones: &[Fixed]) -> Result<(), AllocError>
    ensures after { OnOk result (string_bytes text.new ≡ string_bytes text.old ++ tone_lines 0 tones.now) }
{
    for (k, tone) in tones.iter().enumerate() {
        write_tone(text, k, *tone)?;
    }
    Ok(())
}

// The lines that are printed of a spectrum.
pub fn spectrum_text(heap: Global, turns: usize, tones: &[Fixed]) -> Result<String, AllocError>
    ensures answer { IfOk result (λ text. string_bytes text ≡ printed turns tones.now) }
{
    let mut text = String::new(heap);
    write_heading(&mut text, tones.len(), turns)?;
    write_tones(&mut text, tones)?;
    Ok(text)
}

// The line that is printed of a refusal.
pub fn refusal_text(heap: Global, fault: Fault) -> Result<String, AllocError>
    ensures answer { IfOk result (λ text. string_bytes text ≡ printed_refusal fault) }
{
    let mut text = String::new(heap);
    writeln!(text, "refused {fault}")?;
    Ok(text)
}
