//! Drawing a view: what a broker sees of a book under a policy.

#![tactic(auto)]

mod find;
mod mask;
mod scene;
#[cfg(test)]
mod tests;

pub use scene::draw;
