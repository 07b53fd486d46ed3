// Sheets: samples and their tones in one lent buffer, kept together call by call.
// Radices, cells and work are handed over one by one, as a caller lends them: C has no struct of borrowed lists.
#![tactic(auto)]

mod opening;

pub use cells::Sheet;
pub use opening::{open, sized};
