//! What the programs share: columns and rows of tariffs, the rules of a broker, hexadecimal digits, and the
//! beginning of a reply.

#![tactic(auto)]

mod columns;
mod hexadecimal;
mod loading;
mod replies;
mod rows;
mod rules;
#[cfg(test)]
mod tests;

pub use columns::{declare, number, prefix, reader_columns};
pub use hexadecimal::from_hex;
pub use loading::three_tariffs;
pub use replies::{counts, written};
pub use rows::{THREE_TARIFFS, store};
pub use rules::filters;
