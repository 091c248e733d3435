//! Prefixes and cells: the values of a tariff book as they lie in memory.

#![tactic(auto)]

mod cell;
mod prefix;
#[cfg(test)]
mod tests;

pub use cell::Cell;
pub use prefix::{Prefix, is_prefix};
