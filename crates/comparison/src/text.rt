// The text of a comparison.
ghost use Rattle.std.specs.Prelude.{◌≡◌, ◌++◌, IfOk, string_bytes, OnOk};
ghost use Rattle.comparison.specs.Printed.{path_lines, pressure_line, printed};

use crate::files::Comparison;
use std::alloc::{AllocError, Global};

fn write_path(text: &mut String, lag: usize, sum: (i64, i64)) -> Result<(), AllocError>
    ensures after { OnOk result (string_bytes text.new ≡ string_bytes text.old ++ path_lines lag sum) }
{
    let (x, y) = sum;
    writeln!(text, "lag {lag}\nsum {x} {y}")
}

fn write_pressure(text: &mut String, pressure: Option<usize>) -> Result<(), AllocError>
    ensures after { OnOk result (string_bytes text.new ≡ string_bytes text.old ++ pressure_line pressure) }
{
    match pressure {
        Some(lag) => writeln!(text, "pressure lag {lag}"),
        None => writeln!(text, "no pressure lag"),
    }
}

// The lines that are printed of a comparison.
pub fn comparison_text(heap: Global, comparison: Comparison) -> Result<String, AllocError>
    ensures answer { IfOk result (λ text. string_bytes text ≡ printed comparison) }
{
    let mut text = String::new(heap);
    write_path(&mut text, comparison.lag, comparison.sum)?;
    write_pressure(&mut text, comparison.pressure)?;
    Ok(text)
}
