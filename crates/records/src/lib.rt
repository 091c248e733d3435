//! The records of queries and of their conditions, read in place.

#![tactic(auto)]

mod condition;
mod first;
mod kind;
mod reader;
mod record;
mod term;
mod terms;

pub use first::{First, first_record};
pub use kind::{RecordKind, TermKind, UnknownKind};
pub use reader::Reader;
pub use record::Record;
pub use term::Term;
pub use terms::Terms;
