//! Rows of masked cells in a lent workspace.

#![tactic(auto)]

mod block;
mod memory;
mod rows;

pub use block::Block;
pub use memory::clear;
pub use rows::Rows;
