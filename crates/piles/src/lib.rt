//! Policies that are put together while a program runs.

#![tactic(auto)]

mod parts;
mod pile;
#[cfg(test)]
mod tests;

pub use parts::Parts;
pub use pile::{Pile, Stacked};
