//! Lists of at most so many items, in fixed memory.

#![tactic(auto)]

mod bounded;
mod full;
#[cfg(test)]
mod tests;

pub use bounded::Bounded;
pub use full::Full;
