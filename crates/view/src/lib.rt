//! Views: what a broker sees of a book. The cells of a view are drawn from outside, and read here.

#![tactic(auto)]

mod masked;
mod position;
mod size;
#[cfg(test)]
mod tests;
mod view;

pub use masked::{Masked, cell_at};
pub use position::Position;
pub use view::View;
