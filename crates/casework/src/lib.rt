// What the programs share that run cases and read strokes: how a case's numbers and elements are written, and how much is
// read of what comes in.
#![tactic(auto)]

mod element;
mod lists;
mod reading;
#[cfg(test)]
mod tests;

pub use element::Element;
pub use lists::{elements, front_elements, radices};
pub use reading::{file_bytes, script};
