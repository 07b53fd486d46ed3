// What the program `compare` does with two stroke files: their match, and the text that is printed of it.
#![tactic(auto)]

mod files;
mod report;
mod samples;
mod text;

pub use files::{Comparison, compare_files};
pub use report::report_on;
pub use text::comparison_text;
