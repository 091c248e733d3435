ghost use Rattle.std.specs.Prelude.{◌≡◌, ◌+◌, ◌<◌, ◌≤◌, map, length, not, position, slice_index, slice_set, zip};
ghost use Rattle.std.proofs.Math.Seq.{paste};
ghost use Rattle.semantics.specs.Books.{limit_of, fitting, may_store, stored};
ghost use Rattle.semantics.specs.Kinds.{same_kind};
ghost use Rattle.semantics.specs.Values.{kind_of};
ghost use Rattle.semantics.specs.Outcomes.{Answers, done};
ghost use Rattle.cells.specs.Cells.{cell_value};
ghost use Rattle.book.specs.Books.{book_model, Alters};
ghost use Rattle.book.specs.Layout.{next_start};

use crate::book::{Book, Rows};
use crate::slot::Slot;
use cells::Cell;
use semantics::{Column, Refusal};

/// The place of the first cell that is not of its column's kind.
fn first_unfit(columns: &[Column], row: &[Cell]) -> Option<usize>
    ensures { result ≡ position (λ (column, cell). not (same_kind column.kind (kind_of (cell_value cell)))) (zip columns.now row.now) }
{
    columns
        .iter()
        .zip(row)
        .position(|(column, cell)| column.kind != cell.kind())
}

/// Whether each cell is of its column's kind; the refusal has the place of the first that is not.
fn fitting(columns: &[Column], row: &[Cell]) -> Result<(), Refusal>
    requires { length columns.now ≤ 8 }
    ensures { Answers result (fitting 0 columns.now (map cell_value row.now)) }
{
    match first_unfit(columns, row) {
        // `as` keeps the place, which is that of one of at most 8 columns.
        Some(place) => Err(Refusal::WrongKind(place as u8)),
        None => Ok(()),
    }
}

impl Rows<'_> {
    /// Writes a row in the slot behind the last of a table that has room.
    fn push(&mut self, table: usize, row: &[Cell])
        requires { (table < 4) × ((slice_index self.old.counts table < limit_of (length self.old.cells.now)) × (length row.now ≤ 8)) }
        ensures counts { self.new.counts ≡ slice_set self.old.counts table (slice_index self.old.counts table + 1) }
        ensures cells { self.new.cells.now ≡ paste self.old.cells.now (next_start self.old.counts table) row.now (length row.now) }
    {
        let last = self.counts[table];
        let start = Slot { table, row: last }.start();
        let end = start + row.len();
        self.cells[start..end].copy_from_slice(row);
        self.counts[table] = last + 1;
    }
}

impl Book<'_> {
    /// The questions of a store.
    fn may_store(&self, table: usize, row: &[Cell]) -> Result<(), Refusal>
        ensures { Answers result (may_store (book_model self.now) table (map cell_value row.now)) }
    {
        let columns = self.tables.get(table).ok_or(Refusal::NoTable)?;
        if row.is_empty() || row.len() != columns.len() {
            return Err(Refusal::WrongWidth);
        }
        fitting(columns.as_slice(), row)?;
        if self.rows.counts[table] >= self.row_limit() {
            return Err(Refusal::TableFull);
        }
        Ok(())
    }

    /// Puts a row behind the last of a table that may have it.
    fn append(&mut self, table: usize, row: &[Cell])
        requires { may_store (book_model self.old) table (map cell_value row.now) ≡ done tt }
        ensures { stored (book_model self.old) table (map cell_value row.now) ≡ done (book_model self.new) }
    {
        self.rows.push(table, row);
    }

    /// Appends a row to a table.
    pub fn store(&mut self, table: usize, row: &[Cell]) -> Result<(), Refusal>
        ensures { Alters result (stored (book_model self.old) table (map cell_value row.now)) self.old self.new }
    {
        self.may_store(table, row)?;
        self.append(table, row);
        Ok(())
    }
}
