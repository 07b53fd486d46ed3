// Every call in the form in which it can be handed to other languages: numbers and lent lists alone go in and out, runs and
// sheets are held as numbers, and a refusal is three numbers.
#![tactic(auto)]

mod plans;
mod sheets;
mod status;
mod stepping;
mod theorems;
mod transforms;

pub use plans::standard_plan;
pub use sheets::{edit, lay, mirror, open, path_tone, pressure_tone, shift};
pub use status::{Status, answered, settled};
pub use stepping::{deal, finish, stage};
pub use theorems::runs_stand;
pub use transforms::{convolve, inverse, transform};
