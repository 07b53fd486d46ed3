// What is reported on two files.
ghost use Rattle.comparison.specs.Compared.{compared};
ghost use Rattle.comparison.specs.Reported.{Reports};

use crate::files::compare_files;
use crate::text::comparison_text;
use pad::Failure;
use std::alloc::Global;

// The text that is printed of the comparison of two stroke files.
pub fn report_on(heap: Global, first: &[u8], second: &[u8]) -> Result<String, Failure>
    ensures answer { Reports (compared first.now second.now) result }
{
    let comparison = compare_files(first, second)?;
    let text = comparison_text(heap, comparison)?;
    Ok(text)
}
