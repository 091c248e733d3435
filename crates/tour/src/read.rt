//! Reading a reply: its records, and the cells of its rows.

ghost use Rattle.std.specs.Prelude.{◌<◌, length, IfSome};
ghost use Rattle.std.specs.Iterator.{at_most};

use cells::{Cell, Prefix};
use records::first_record;
use reply::{CellKind, RecordKind};
use std::fmt;
use tariffs::counts;
use view::Masked;

/// How a row stands in the answer.
#[derive(Clone, Copy)]
pub(crate) enum Standing {
    /// It is in the answer whatever the variables stand for.
    Certain,
    /// It may be in the answer.
    Possible,
}

impl fmt::Display for Standing {
    fn fmt<W: fmt::Write>(&self, f: &mut fmt::Formatter<W>) -> fmt::Result {
        f.pad(match self {
            Standing::Certain => "certain",
            Standing::Possible => "possible",
        })
    }
}

/// A record of a reply.
#[derive(Clone, Copy)]
pub(crate) enum Record<'r> {
    /// How many rows are certain, and how many possible.
    Counts(u16, u16),
    /// A row of the answer.
    Row(Standing, Row<'r>),
}

/// What a record of this kind says, if it is of a reply that is no refusal and its body has its form.
fn said(kind: RecordKind, body: &[u8]) -> Option<Record<'_>> {
    match kind {
        RecordKind::Counts => counts(body).map(|(certain, possible)| Record::Counts(
            certain, possible,
        )),
        RecordKind::Certain => Some(Record::Row(Standing::Certain, Row(body))),
        RecordKind::Possible => Some(Record::Row(Standing::Possible, Row(body))),
        RecordKind::Refusal => None,
    }
}

/// The records of a reply, up to the first that is cut short or says nothing.
#[derive(Clone, Copy)]
pub(crate) struct Records<'r>(pub(crate) &'r [u8]);

impl<'r> Iterator for Records<'r> {
    type Item = Record<'r>;

    ghost remaining = { λ s. at_most (length s.0.now) };

    fn next(&mut self) -> Option<Record<'r>> {
        let first = first_record(self.0)?;
        self.0 = first.rest;
        said(RecordKind::try_from(first.kind).ok()?, first.body)
    }
}

/// The first cell of some bytes, and the bytes after it.
fn first_cell(bytes: &[u8]) -> Option<(Masked, &[u8])>
    ensures { IfSome result (λ first. length first.1.now < length bytes.now) }
{
    let (kind, body) = bytes.split_first()?;
    match (CellKind::try_from(*kind).ok()?, body) {
        (CellKind::Number, [a, b, c, d, rest @ ..]) => {
            let number = u32::from_le_bytes([*a, *b, *c, *d]);
            Some((Masked::Value(Cell::Number(number)), rest))
        }
        (CellKind::Prefix, [count, behind @ ..]) => {
            let (digits, rest) = behind.split_at_checked(usize::from(*count))?;
            let prefix = Prefix::from_bytes(digits).ok()?;
            Some((Masked::Value(Cell::Prefix(prefix)), rest))
        }
        (CellKind::Variable, [table, row, column, rest @ ..]) => {
            let variable = Masked::Variable {
                table: *table,
                row: *row,
                column: *column,
            };
            Some((variable, rest))
        }
        (CellKind::Pseudonym, [domain, i0, i1, rest @ ..]) => {
            let pseudonym = Masked::Pseudonym {
                domain: *domain,
                index: u16::from_le_bytes([*i0, *i1]),
            };
            Some((pseudonym, rest))
        }
        _ => None,
    }
}

/// The cells of a row, up to the first that is cut short.
#[derive(Clone, Copy)]
pub(crate) struct Row<'r>(&'r [u8]);

impl Iterator for Row<'_> {
    type Item = Masked;

    ghost remaining = { λ s. at_most (length s.0.now) };

    fn next(&mut self) -> Option<Masked> {
        let (cell, rest) = first_cell(self.0)?;
        self.0 = rest;
        Some(cell)
    }
}
