ghost use Rattle.std.specs.Prelude.{◌≡◌, ◌<◌, ◌≤◌, [], map, length, take, drop, slice_index_or};
ghost use Rattle.semantics.specs.Books.{columns_of, rows_of, limit_of};
ghost use Rattle.cells.specs.Cells.{cell_value};
ghost use Rattle.book.specs.Books.{book_model, RowAt};
ghost use Rattle.book.specs.Layout.{row_start};
ghost use Rattle.book.specs.Walks.{rows_left};

use crate::book::{Book, Rows};
use crate::slot::Slot;
use crate::walk::Walk;
use cells::Cell;
use semantics::Column;

impl Rows<'_> {
    /// So many cells of a row.
    fn part(&self, at: Slot, width: usize) -> &[Cell]
        requires { (at.row < limit_of (length self.now.cells.now)) × (width ≤ 8) }
        ensures { result.now ≡ take width (drop (row_start at.table at.row) self.now.cells.now) }
    {
        let start = at.start();
        &self.cells[start..start + width]
    }
}

impl Book<'_> {
    /// How many rows each table may have.
    pub fn row_limit(&self) -> usize
        ensures { result ≡ (book_model self.now).limit }
    {
        (self.rows.cells.len() / 32).min(256)
    }

    /// The columns of a table, none where there is no such table.
    pub fn columns(&self, table: usize) -> &[Column]
        ensures { result.now ≡ columns_of (book_model self.now) table }
    {
        let columns = self.tables.get(table);
        columns.map_or(&[], |columns| columns.as_slice())
    }

    /// How many rows a table has, none where there is no such table.
    pub fn row_count(&self, table: usize) -> usize
        ensures { result ≡ length (rows_of (book_model self.now) table) }
    {
        self.rows.counts.get(table).copied().unwrap_or(0)
    }

    /// The rows of a table, none where there is no such table.
    pub fn rows(&self, table: usize) -> Walk<'_, Cell>
        ensures { map (map cell_value) (rows_left result) ≡ rows_of (book_model self.now) table }
    {
        let width = self.columns(table).len();
        Walk::of(self.rows.cells, table, width, self.row_count(table))
    }

    /// The cells of a row that there is.
    fn cells_of(&self, at: Slot) -> &[Cell]
        requires { at.row < length (rows_of (book_model self.now) at.table) }
        ensures { map cell_value result.now ≡ slice_index_or (rows_of (book_model self.now) at.table) at.row [] }
    {
        self.rows.part(at, self.tables[at.table].len())
    }

    /// The cells of a row, where there is one of this number.
    pub fn row(&self, table: usize, row: usize) -> Option<&[Cell]>
        ensures { RowAt (book_model self.now) table row result }
    {
        if row >= self.row_count(table) {
            return None;
        }
        Some(self.cells_of(Slot { table, row }))
    }
}
