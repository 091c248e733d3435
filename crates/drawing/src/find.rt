ghost use Rattle.std.specs.Prelude.{◌≡◌, ◌≤◌};
ghost use Rattle.semantics.specs.Books.{column_at, columns_of};
ghost use Rattle.semantics.specs.Values.{same_value};
ghost use Rattle.semantics.specs.Views.{content};
ghost use Rattle.cells.specs.Cells.{cell_value};
ghost use Rattle.book.specs.Books.{book_model};
ghost use Rattle.view.specs.Positions.{place_at};

use book::Book;
use cells::Cell;
use view::{Masked, Position, View};

/// The cell of a book at a position, the number 0 where there is none.
pub(crate) fn cell_at(book: &Book<'_>, at: Position) -> Cell
    ensures { cell_value result ≡ content (book_model book.now) (place_at at) }
{
    let row = book.row(at.slot.table, at.slot.row).unwrap_or(&[]);
    row.get(at.column).copied().unwrap_or(Cell::ZERO)
}

/// Whether the cell of a book at a position holds a value.
// It is compared where it stands: a copy of each cell that is searched costs more than the comparison.
#[tactic(auto, using(cells::proofs::Same::equal_cells))]
fn holds(book: &Book<'_>, at: Position, value: &Cell) -> bool
    ensures { result ≡ same_value (content (book_model book.now) (place_at at)) (cell_value value.now) }
{
    let row = book.row(at.slot.table, at.slot.row).unwrap_or(&[]);
    row.get(at.column).unwrap_or(&Cell::ZERO) == value
}

/// The domain of a column of a book, 0 where there is none.
pub(crate) fn domain_of(book: &Book<'_>, table: usize, column: usize) -> u8
    ensures { result ≡ (column_at (columns_of (book_model book.now) table) column).domain }
{
    let columns = book.columns(table);
    columns.get(column).map_or(0, |column| column.domain)
}

/// A search for a value among the cells of a domain that are drawn before a position.
#[derive(Clone, Copy)]
pub(crate) struct Search<'d> {
    pub(crate) view: &'d View,
    pub(crate) book: &'d Book<'d>,
    pub(crate) at: Position,
    pub(crate) domain: u8,
    pub(crate) value: Cell,
    ghost some: { 1 ≤ domain },
}

impl Search<'_> {
    ghost use Rattle.drawing.specs.Drawing.{rows_before};
    ghost use Rattle.drawing.specs.Searching.{Finds, InColumn, InTable, OneCell, Searched};

    /// The index of the pseudonym of a cell, where it is drawn for the value.
    fn index_at(&self, table: usize, row: usize, column: usize) -> Option<u16>
        ensures { Finds self.now (OneCell table row column) result }
    {
        let at = Position::new(table, row, column)?;
        match self.view.cell(at) {
            Masked::Pseudonym { domain: _, index } if holds(self.book, at, &self.value) => {
                Some(index)
            }
            _ => None,
        }
    }

    /// How many cells of a column stand before the position, in a table that is not a later one.
    fn rows_before(&self, table: usize, column: usize) -> usize
        ensures { result ≡ rows_before (book_model self.now.book.now) (place_at self.now.at) table column }
    {
        if table < self.at.slot.table {
            self.book.row_count(table)
        } else if column < self.at.column {
            self.at.slot.row + 1
        } else {
            self.at.slot.row
        }
    }

    /// The index of a pseudonym drawn for the value in a column, if it is of the domain.
    fn in_column(&self, table: usize, column: usize) -> Option<u16>
        ensures { Finds self.now (InColumn self.now table column) result }
    {
        if domain_of(self.book, table, column) != self.domain {
            return None;
        }
        (0..self.rows_before(table, column)).find_map(|row| self.index_at(table, row, column))
    }

    /// The index of a pseudonym drawn for the value in the columns of the domain, in one table.
    fn in_table(&self, table: usize) -> Option<u16>
        ensures { Finds self.now (InTable self.now table) result }
    {
        (0..self.book.columns(table).len()).find_map(|column| self.in_column(table, column))
    }

    /// The index of a pseudonym drawn for the value in the columns of the domain.
    // Each earlier cell is looked at: fixed memory has no room for a map of values.
    pub(crate) fn index(&self) -> Option<u16>
        ensures { Finds self.now (Searched self.now) result }
    {
        (0..=self.at.slot.table).find_map(|table| self.in_table(table))
    }
}
