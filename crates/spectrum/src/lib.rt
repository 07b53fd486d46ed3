// Spectra over any arithmetic: deal the samples, then one stage for each radix, where they stand.
// Radices, buffer and work are handed over one by one, as a caller lends them: C has no struct of borrowed lists.
#![tactic(auto)]

mod circle;
mod convolving;
mod engine;
mod inverses;
mod shape;
mod steps;
mod suited;
mod tested;
mod transforms;

pub use circle::Angle;
pub use convolving::convolve;
pub use engine::clear;
pub use inverses::{inverse, mirror};
pub use steps::{deal, stage};
pub use tested::{SCRATCH, divides, granted, suits};
pub use transforms::transform;
