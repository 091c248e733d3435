ghost use Rattle.std.specs.Prelude.{◌≡◌, ◌<◌, IfOk, length, slice_set};
ghost use Rattle.semantics.specs.Books.{limit_of, may_amend, amended};
ghost use Rattle.semantics.specs.Outcomes.{AnswersAs, done};
ghost use Rattle.cells.specs.Cells.{cell_value};
ghost use Rattle.book.specs.Books.{book_model, Alters};
ghost use Rattle.book.specs.Layout.{cell_index};

use crate::book::{Book, Rows};
use crate::slot::Slot;
use cells::Cell;
use semantics::Refusal;

impl Rows<'_> {
    /// Writes one cell of a row.
    fn put(&mut self, at: Slot, column: usize, cell: Cell)
        requires { (at.row < limit_of (length self.old.cells.now)) × (column < 8) }
        ensures counts { self.new.counts ≡ self.old.counts }
        ensures cells { self.new.cells.now ≡ slice_set self.old.cells.now (cell_index at.table at.row column) cell }
    {
        self.cells[at.start() + column] = cell;
    }
}

impl Book<'_> {
    /// The questions of an amendment, and the slot of the row.
    fn may_amend(
        &self,
        table: usize,
        row: usize,
        column: usize,
        cell: Cell,
    ) -> Result<Slot, Refusal>
        ensures answers { AnswersAs (λ _. tt) result (may_amend (book_model self.now) table row column (cell_value cell)) }
        ensures at { IfOk result (λ at. (at.table ≡ table) × (at.row ≡ row)) }
    {
        let at = self.may_strike(table, row)?;
        let columns = self.columns(table);
        let column = columns.get(column).ok_or(Refusal::NoColumn)?;
        if column.kind != cell.kind() {
            return Err(Refusal::WrongKind(0));
        }
        Ok(at)
    }

    /// Replaces a cell that there is by one of its kind.
    fn replace(&mut self, at: Slot, column: usize, cell: Cell)
        requires { may_amend (book_model self.old) at.table at.row column (cell_value cell) ≡ done tt }
        ensures { amended (book_model self.old) at.table at.row column (cell_value cell) ≡ done (book_model self.new) }
    {
        self.rows.put(at, column, cell);
    }

    /// Replaces one cell of a row.
    pub fn amend(
        &mut self,
        table: usize,
        row: usize,
        column: usize,
        cell: Cell,
    ) -> Result<(), Refusal>
        ensures { Alters result (amended (book_model self.old) table row column (cell_value cell)) self.old self.new }
    {
        let at = self.may_amend(table, row, column, cell)?;
        self.replace(at, column, cell);
        Ok(())
    }
}
