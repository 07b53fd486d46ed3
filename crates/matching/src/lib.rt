// Matching two strokes: their sums at every lag, and the lags at which they agree best.
#![tactic(auto)]

mod choosing;
mod lagged;
mod matched;
mod paths;
mod pressures;

pub use matched::{Match, case_stands, match_strokes};
