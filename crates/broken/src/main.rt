//! Reads a table of queries, one a line as a name, a colon and hexadecimal digits, and says what each is refused with.

#![tactic(auto)]

use anyhow::Context;
use book::{Book, Draft};
use cells::Cell;
use query::check;
use semantics::Refusal;
use std::alloc::AllocError;
use tariffs::{declare, from_hex, prefix, reader_columns};

/// Table 0 has a prefix and two numbers, table 1 two numbers, table 2 a prefix, and table 3 nothing.
fn columns() -> Result<Draft, Refusal> {
    let mut draft = reader_columns();
    declare(&mut draft, 2, &[prefix(0)])?;
    Ok(draft)
}

/// What a query comes to.
fn report(rt: &HostRuntime, name: &str, query: &[u8], book: &Book<'_>) -> anyhow::Result<()> {
    match check(query, book) {
        Ok(plan) => {
            let count = plan.count();
            println!(rt; "{name:<56} passes, {count} records")?;
        }
        Err(refusal) => {
            let number = refusal.number();
            let place = refusal.place();
            println!(rt; "{name:<56} {number} at {place}")?;
        }
    }
    Ok(())
}

fn run(rt: &HostRuntime) -> anyhow::Result<()> {
    let draft = columns().context("a column was refused")?;
    let mut memory = [Cell::ZERO; 32];
    let book = draft.open(&mut memory);
    for line in rt.lines(rt.alloc()) {
        let line = line?;
        if let Some((name, digits)) = line.as_str().split_once(':') {
            let query = from_hex(rt.alloc(), digits).or(Err(AllocError))?;
            report(rt, name, query.as_slice(), &book)?;
        }
    }
    Ok(())
}

fn main(rt: HostRuntime) -> anyhow::Result<()> {
    run(&rt)
}
