// What the program does with a stroke file: its spectrum in the fixed arithmetic, and the text that is printed of it.
#![tactic(auto)]

mod entering;
mod files;
mod report;
mod text;
mod worked;

pub use files::{Summary, file_tones};
pub use report::{Failure, report_on};
pub use text::{refusal_text, spectrum_text};
pub use worked::worked_cases_stand;
