//! A tariff book at work: columns are declared, rows stored, amended and struck, and bad calls refused.

use crate::{bad, show, views};
use book::{Book, Draft};
use cells::Cell;
use tariffs::{THREE_TARIFFS, declare, number, prefix, store};

/// The columns: a prefix in domain 1, the carrier's number and the price.
fn columns(rt: &HostRuntime, draft: &mut Draft) -> anyhow::Result<()> {
    for (call, column) in [
        ("declare table 0: a prefix, in domain 1", prefix(1)),
        ("declare table 0: a number, the carrier", number(0)),
        ("declare table 0: a number, the price", number(0)),
    ] {
        show::step(rt, call, declare(draft, 0, &[column]))?;
    }
    Ok(())
}

/// Stores a tariff into table 0, as a step.
fn store_tariff(
    rt: &HostRuntime,
    book: &mut Book<'_>,
    digits: &str,
    carrier: u32,
    price: u32,
) -> anyhow::Result<()> {
    let call = format!(in rt.alloc(); "store {digits}, carrier {carrier}, {price}")?;
    let done = store(book, 0, digits.as_bytes(), carrier, price);
    show::step(rt, call.as_str(), done)
}

/// Three tariffs fit in 96 cells of memory, and a fourth does not.
fn load(rt: &HostRuntime, book: &mut Book<'_>) -> anyhow::Result<()> {
    for (digits, carrier, price) in THREE_TARIFFS {
        store_tariff(rt, book, digits, carrier, price)?;
    }
    store_tariff(rt, book, "49", 2, 3000)
}

/// A price is amended, a row struck, and its place used again.
fn change(rt: &HostRuntime, book: &mut Book<'_>) -> anyhow::Result<()> {
    let price = Cell::Number(2600);
    show::step(rt, "amend row 1: price 2600", book.amend(0, 1, 2, price))?;
    show::step(rt, "strike row 0", book.strike(0, 0))?;
    store_tariff(rt, book, "49", 2, 3000)
}

/// The book from its first declaration to its last state, and what brokers see of it.
pub(crate) fn tariffs(rt: &HostRuntime) -> anyhow::Result<()> {
    println!(rt;
        "A tariff book in 96 cells of memory: four tables, of at most 96 / 32 = 3 rows each.\n"
    )?;
    let mut memory = [Cell::ZERO; 96];
    let mut draft = Draft::new();
    columns(rt, &mut draft)?;
    let mut book = draft.open(&mut memory);
    load(rt, &mut book)?;
    show::table(rt, "The book", &book)?;
    views::tariffs(rt, &book)?;
    change(rt, &mut book)?;
    show::table(rt, "The book after that", &book)?;
    bad::declarations(rt)?;
    bad::calls(rt, &mut book)?;
    show::table(rt, "The book is as it was", &book)?;
    views::offers(rt)
}
