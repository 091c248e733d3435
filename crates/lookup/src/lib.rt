//! Asking: what a broker is answered about a book under a policy.

#![tactic(auto)]

mod asking;
#[cfg(test)]
mod tests;

pub use asking::ask;
