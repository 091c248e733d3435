//! Comparing masked cells, and the truth of a condition on a row.

#![tactic(auto)]

mod comparing;
mod condition;
mod kleene;
mod plain;
#[cfg(test)]
mod tests;
mod truths;

pub use comparing::compare;
pub use condition::truth;
pub use kleene::Truth;
