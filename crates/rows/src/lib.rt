//! Rows of a view: whether two may be the same row.

#![tactic(auto)]

mod agree;
mod columns;
mod groups;
mod pairs;
#[cfg(test)]
mod tests;

pub use agree::compatible;
