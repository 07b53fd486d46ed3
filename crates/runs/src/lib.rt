// Runs: a transform taken one stage at a poll. Buffer and work are handed over one by one, as a caller lends them.
#![tactic(auto)]

mod driving;
mod run;

pub use driving::{poll, poll_through};
pub use run::Run;
