// Plans: the factors that a transform takes a length by, and the order in which it deals the samples.
#![tactic(auto)]

mod checked;
mod dealing;
mod fault;
mod limits;
mod standard;
mod theorems;
mod validated;

pub use fault::PlanFault;
pub use theorems::{cases_stand, dealing_stands, plans_stand, standards_stand};
pub use validated::Plan;
