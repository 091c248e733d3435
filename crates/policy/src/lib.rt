//! Policies: who may see how much of which cell.

#![tactic(auto)]

mod combine;
mod consents;
mod filters;
mod number;
mod policy;
#[cfg(test)]
mod tests;

pub use combine::{Both, Either};
pub use consents::Consents;
pub use filters::Filters;
pub use policy::Policy;
