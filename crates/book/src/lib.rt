//! Tariff books: columns are declared on a draft, which is opened to a book of rows in lent memory.

#![tactic(auto)]

mod book;
mod columns;
mod draft;
mod slot;
#[cfg(test)]
mod tests;
mod walk;

pub use book::Book;
pub use draft::Draft;
pub use slot::Slot;
pub use walk::Walk;
