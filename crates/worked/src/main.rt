//! Puts queries to two fixed books and shows each reply. A line of standard input has a name, a
//! colon, and then a book, a broker, the number of workspace cells, the length of the reply buffer
//! and the query in hexadecimal digits. `tests/evaluate.py` says what is to be written.

#![tactic(auto)]

mod ask;
mod marks;
mod report;
mod stock;

use anyhow::Context;
use book::{Book, Draft};
use cells::Cell;
use report::{Asked, Desk, Stock};
use semantics::Refusal;
use tariffs::{declare, number, prefix};

/// Tables 0 and 1 hold a prefix and two numbers, table 2 two numbers and a prefix, table 3 a
/// customer's number, two prefixes and three numbers. Domain 1 has prefixes, domains 2 and 3 numbers.
fn columns() -> Result<Draft, Refusal> {
    let mut draft = Draft::new();
    declare(&mut draft, 0, &[prefix(1), number(0), number(0)])?;
    declare(&mut draft, 1, &[prefix(1), number(2), number(0)])?;
    declare(&mut draft, 2, &[number(2), number(2), prefix(0)])?;
    declare(&mut draft, 3, &[number(0), prefix(1), prefix(1)])?;
    declare(&mut draft, 3, &[number(2), number(2), number(3)])?;
    Ok(draft)
}

/// Reads all lines, so that none is answered where one cannot be read.
fn read(rt: &HostRuntime) -> anyhow::Result<Vec<String>> {
    let mut texts = Vec::new(rt.alloc());
    for line in rt.lines(rt.alloc()) {
        texts.push(line?)?;
    }
    Ok(texts)
}

/// Puts the query of each line to the book that the line names.
fn lines<'b>(
    desk: &mut Desk<'_>,
    texts: &[String],
    short: &'b Book<'b>,
    tall: &'b Book<'b>,
) -> anyhow::Result<()> {
    for text in texts {
        let (name, words) = text
            .as_str()
            .split_once(':')
            .context("a line without a colon")?;
        let asked = Asked::read(desk.rt.alloc(), words)?;
        let book = match asked.stock {
            Stock::Short => short,
            Stock::Tall => tall,
        };
        desk.put(name, book, &asked)?;
    }
    Ok(())
}

/// Fills both books and goes through the lines.
fn run(rt: &HostRuntime) -> anyhow::Result<()> {
    let texts = read(rt)?;
    let mut cells = [Cell::ZERO; 256];
    let mut short = columns()?.open(&mut cells);
    stock::short(&mut short).context("a row was refused")?;
    let mut more = [Cell::ZERO; 8192];
    let mut tall = columns()?.open(&mut more);
    stock::tall(&mut tall).context("a row was refused")?;
    let policy = marks::policy().context("a rule or a consent was refused")?;
    let mut desk = Desk::new(rt, &policy)?;
    lines(&mut desk, texts.as_slice(), &short, &tall)
}

fn main(rt: HostRuntime) -> anyhow::Result<()> {
    run(&rt)
}
