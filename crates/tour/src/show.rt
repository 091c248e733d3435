//! Steps and books as a person reads them.

use book::{Book, Walk};
use semantics::Refusal;
use std::fmt::Display;
use view::View;

/// A call and what it came to.
pub(crate) fn step<T: Drop>(
    rt: &HostRuntime,
    call: &str,
    done: Result<T, Refusal>,
) -> anyhow::Result<()> {
    match done {
        Ok(_) => println!(rt; "  {call:<40} done")?,
        Err(refusal) => println!(rt; "  {call:<40} {refusal}")?,
    }
    Ok(())
}

/// A row as a line of the table.
fn line<T: Display>(rt: &HostRuntime, row: usize, cells: &[T]) -> anyhow::Result<()> {
    print!(rt; "  {row:>3}")?;
    for cell in cells {
        print!(rt; "  {cell:>8}")?;
    }
    println!(rt; "")?;
    Ok(())
}

/// Rows as lines of the table, by their numbers.
#[tactic(auto, using(book::proofs::Walking::length_rows))]
fn lines<T: Display>(rt: &HostRuntime, rows: Walk<'_, T>) -> anyhow::Result<()> {
    for (row, cells) in rows.enumerate() {
        line(rt, row, cells)?;
    }
    println!(rt; "")?;
    Ok(())
}

/// The rows of table 0.
pub(crate) fn table(rt: &HostRuntime, title: &str, book: &Book<'_>) -> anyhow::Result<()> {
    let count = book.row_count(0);
    let limit = book.row_limit();
    println!(rt; "\n{title}: {count} of at most {limit} rows")?;
    println!(rt; "  row    prefix   carrier     price")?;
    lines(rt, book.rows(0))
}

/// The rows of a table as they are seen.
pub(crate) fn view(rt: &HostRuntime, head: &str, view: &View, table: usize) -> anyhow::Result<()> {
    println!(rt; "{head}")?;
    lines(rt, view.rows(table))
}
