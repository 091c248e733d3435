//! The bytes of a reply and of a refusal.

#![tactic(auto)]

mod count;
mod kinds;
mod record;
mod refusal;
mod reply;
mod row;
mod sink;
#[cfg(test)]
mod tests;
mod writer;

pub use kinds::{CellKind, RecordKind, UnknownKind};
pub use refusal::refusal_record;
pub use reply::write_reply;
