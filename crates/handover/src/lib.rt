// Strokes that are handed over in lent lists of numbers: read from files, written as files, and matched.
#![tactic(auto)]

mod copying;
mod lending;
mod matches;
mod reading;

pub use lending::write;
pub use matches::{Lags, Sum, match_strokes};
pub use reading::{Counts, Heading, read};
