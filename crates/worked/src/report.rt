//! The lines that are read and written.

use crate::ask::Lent;
use crate::marks::Brokers;
use anyhow::Context;
use book::Book;
use reply::refusal_record;
use std::alloc::{AllocError, Global};
use std::fmt;
use std::str::{FromStr, SplitWhitespace};
use tariffs::{from_hex, written};
use view::Masked;

/// The book that a line names.
#[derive(Clone, Copy)]
pub(crate) enum Stock {
    /// Three to eight rows in each table.
    Short,
    /// Up to 256 rows in a table.
    Tall,
}

/// The tall book by its name, and the short one by every other word.
impl FromStr for Stock {
    type Err = anyhow::Error;

    fn from_str(text: &str) -> anyhow::Result<Stock> {
        match text {
            "tall" => Ok(Stock::Tall),
            _ => Ok(Stock::Short),
        }
    }
}

/// What a line asks: a book, a broker, how much of the memory is lent, and a query.
#[derive(Drop)]
pub(crate) struct Asked {
    pub(crate) stock: Stock,
    broker: u16,
    cells: usize,
    bytes: usize,
    query: Vec<u8>,
}

/// The next word of a line, which has to be there.
fn word<'t>(words: &mut SplitWhitespace<'t>) -> anyhow::Result<&'t str> {
    words.next().context("a line with too few words")
}

impl Asked {
    /// Reads the words of a line. A query without bytes has no digits.
    pub(crate) fn read(heap: Global, text: &str) -> anyhow::Result<Asked> {
        let mut words = text.split_whitespace();
        let book = word(&mut words)?;
        let broker = word(&mut words)?;
        let cells = word(&mut words)?;
        let bytes = word(&mut words)?;
        Ok(Asked {
            stock: book.parse()?,
            query: from_hex(heap, words.next().unwrap_or("")).or(Err(AllocError))?,
            broker: broker.parse()?,
            cells: cells.parse()?,
            bytes: bytes.parse()?,
        })
    }
}

/// What became of the memory that was lent: whether the workspace is all zeros, and whether the rest of
/// the reply buffer is as it was.
#[derive(Clone, Copy)]
struct Left {
    clear: bool,
    kept: bool,
}

impl fmt::Display for Left {
    fn fmt<W: fmt::Write>(&self, f: &mut fmt::Formatter<W>) -> fmt::Result {
        let work = if self.clear { "clear" } else { "NOT CLEAR" };
        let rest = if self.kept { "kept" } else { "ALTERED" };
        write!(f, "{work} {rest}")
    }
}

/// Writes a line: the name, the reply or the refusal record, and what became of the memory.
fn show(rt: &HostRuntime, name: &str, bytes: &[u8], left: Left) -> anyhow::Result<()> {
    let text = hex::encode(rt.alloc(), bytes)?;
    println!(rt; "{name}: {text} {left}")?;
    Ok(())
}

/// What all lines are put with: the policy, and the memory that is lent in parts.
#[derive(Drop)]
pub(crate) struct Desk<'a> {
    pub(crate) rt: &'a HostRuntime,
    policy: &'a Brokers,
    work: Vec<Masked>,
    reply: Vec<u8>,
}

impl<'a> Desk<'a> {
    /// Memory for the largest workspace and the longest reply that a line may ask for.
    pub(crate) fn new(rt: &'a HostRuntime, policy: &'a Brokers) -> Result<Desk<'a>, AllocError> {
        Ok(Desk {
            rt,
            policy,
            work: vec![in rt.alloc(); Masked::ZERO; 131072]?,
            reply: vec![in rt.alloc(); 0; 65536]?,
        })
    }

    /// Puts a query to a book, and writes what comes of it.
    pub(crate) fn put(&mut self, name: &str, book: &Book<'_>, asked: &Asked) -> anyhow::Result<()> {
        let rt = self.rt;
        let policy = self.policy;
        let work = self.work.as_mut_slice().get_mut(..asked.cells);
        let reply = self.reply.as_mut_slice().get_mut(..asked.bytes);
        let mut lent = Lent {
            work: work.context("a line with too much memory")?,
            reply: reply.context("a line with too much memory")?,
        };
        lent.fill();
        let outcome = lent.ask(book, policy, asked.broker, asked.query.as_slice());
        let left = Left {
            clear: lent.all_zero(),
            kept: lent.kept_from(outcome.unwrap_or(0)),
        };
        match outcome {
            Ok(size) => show(rt, name, written(lent.reply, size), left),
            Err(refusal) => show(rt, name, &refusal_record(refusal), left),
        }
    }
}
