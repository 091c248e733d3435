//! The questions put to a query, and the plan of one that passes them.

#![tactic(auto)]

mod kinds;
mod operation;
mod plan;
mod questions;
mod step;

pub use kinds::Kinds;
pub use operation::Operation;
pub use plan::Plan;
pub use questions::check;
