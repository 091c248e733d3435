//! Writing a query: records one after another, each after its parts. It allocates, so it is for programs.

#![tactic(auto)]

mod builder;
mod condition;
mod error;
mod record;
#[cfg(test)]
mod tests;

pub use builder::Query;
pub use error::WriteError;
