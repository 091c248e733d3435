ghost use Rattle.std.specs.Prelude.{◌≡◌, length, replicate, IfOk};
ghost use Rattle.bounded.specs.Bounded.{items};
ghost use Rattle.cells.specs.declared.cell.Cell.TheVariants.{Number};
ghost use Rattle.semantics.specs.Books.{opened};
ghost use Rattle.semantics.specs.Drafts.{blank, suits, agree, admits, added, may_declare, declared};
ghost use Rattle.semantics.specs.Lists.{every};
ghost use Rattle.semantics.specs.Outcomes.{Answers, Steps};
ghost use Rattle.book.specs.Books.{book_model, memory, UnusedAreZero};
ghost use Rattle.book.specs.Columns.{Takes};

use crate::book::{Book, Rows};
use crate::columns::Columns;
use bounded::Bounded;
use cells::Cell;
use semantics::{Column, Kind, Refusal};
use std::marker::Model;

/// The columns of four tables while they are declared. The columns of a domain are of one kind.
#[derive(Drop)]
pub struct Draft {
    tables: [Columns; 4],
}

impl Model for Draft {
    ghost use Rattle.std.specs.Prelude.{◌≡◌, true, length, List};
    ghost use Rattle.semantics.specs.declared.kind.Column.{Column};
    ghost use Rattle.semantics.specs.Drafts.{agreed};
    ghost use Rattle.book.specs.Columns.{columns_in};

    ghost Value = { List (List Column) };

    ghost view = { λ draft. columns_in draft.tables };

    ghost invariant = { λ draft. (length draft.tables ≡ 4) × (agreed (columns_in draft.tables) ≡ true) };
}

/// Whether the other column is of another domain, or of this one's kind.
fn suits(column: Column, other: Column) -> bool
    ensures { result ≡ suits column.domain column.kind other }
{
    other.domain != column.domain || other.kind == column.kind
}

/// Whether each of these columns is of another domain, or of this one's kind.
fn all_suit(column: Column, columns: &Columns) -> bool
    ensures { result ≡ every (suits column.domain column.kind) (items columns.now) }
{
    columns.as_slice().iter().all(|other| suits(column, *other))
}

impl Draft {
    /// A draft of four tables without columns.
    pub fn new() -> Draft
        ensures { result ≡ blank }
    {
        let column = Column {
            kind: Kind::Number,
            domain: 0,
        };
        Draft {
            tables: [Bounded::new(column); 4],
        }
    }

    /// Whether every column of the column's domain, in any table, has its kind.
    fn agree(&self, column: Column) -> bool
        ensures { result ≡ agree self.now column.kind column.domain }
    {
        self.tables.iter().all(|columns| all_suit(column, columns))
    }

    /// Whether the column's domain takes it.
    fn admits(&self, column: Column) -> bool
        ensures { result ≡ admits self.now column.kind column.domain }
    {
        column.domain == 0 || (column.domain < 16 && self.agree(column))
    }

    /// The questions of a declaration, and the column that it adds.
    fn may_declare(&self, table: usize, kind: u8, domain: u8) -> Result<Column, Refusal>
        ensures answers { Answers result (may_declare self.now table kind domain) }
        ensures takes { IfOk result (Takes self.now table) }
    {
        let columns = self.tables.get(table).ok_or(Refusal::NoTable)?;
        if columns.is_full() {
            return Err(Refusal::TooManyColumns);
        }
        let kind = Kind::try_from(kind)?;
        let column = Column { kind, domain };
        if !self.admits(column) {
            return Err(Refusal::WrongDomain);
        }
        Ok(column)
    }

    /// Adds a column that the table has room for and its domain takes.
    fn add(&mut self, table: usize, column: Column)
        requires { Takes self.old table column }
        ensures { self.new ≡ added self.old table column }
    {
        let columns = &mut self.tables[table];
        columns.push(column).unwrap();
    }

    /// Adds a column at the end of a table: of the kind that has this number, in this domain.
    pub fn declare(&mut self, table: usize, kind: u8, domain: u8) -> Result<(), Refusal>
        ensures { Steps result (declared self.old table kind domain) self.old self.new }
    {
        let column = self.may_declare(table, kind, domain)?;
        self.add(table, column);
        Ok(())
    }

    /// The empty book with these columns in memory that is all zeros.
    fn empty(self, cells: &mut [Cell]) -> Book<'_>
        requires { cells.old ≡ replicate (length cells.old) (Number 0) }
        ensures model { book_model result ≡ opened self (length cells.old) }
        ensures same { memory result ≡ cells.old }
    {
        let Draft { tables } = self;
        let rows = Rows {
            counts: [0; 4],
            cells,
        };
        Book { tables, rows }
    }

    /// Opens the draft to an empty book in this memory, which is cleared.
    pub fn open(self, cells: &mut [Cell]) -> Book<'_>
        ensures model { book_model result ≡ opened self (length cells.old) }
        ensures cleared { memory result ≡ replicate (length cells.old) (Number 0) }
        ensures clean { UnusedAreZero result }
    {
        cells.fill(Cell::ZERO);
        self.empty(cells)
    }
}
