ghost use Rattle.std.specs.Prelude.{◌≡◌, ◌-◌, ◌<◌, ◌≤◌, IfOk, length, slice_index, slice_set};
ghost use Rattle.semantics.specs.Books.{limit_of, may_strike, struck};
ghost use Rattle.semantics.specs.Outcomes.{AnswersAs, done};
ghost use Rattle.book.specs.Books.{book_model, Alters};
ghost use Rattle.book.specs.Layout.{Removed};

use crate::book::{Book, Rows};
use crate::slot::Slot;
use cells::Cell;
use semantics::Refusal;

impl Rows<'_> {
    /// Takes a row away: later rows of its table move up by one, and the last row's cells are cleared.
    fn remove(&mut self, at: Slot)
        requires there { at.row < slice_index self.old.counts at.table }
        requires few { slice_index self.old.counts at.table ≤ limit_of (length self.old.cells.now) }
        ensures counts { self.new.counts ≡ slice_set self.old.counts at.table (slice_index self.old.counts at.table - 1) }
        ensures cells { Removed at.table at.row (slice_index self.old.counts at.table - 1) self.old.cells.now self.new.cells.now }
    {
        let Slot { table, row } = at;
        let last = self.counts[table] - 1;
        for row in row..last {
            let start = Slot { table, row }.start();
            let next = start + 32;
            self.cells.copy_within(next..next + 8, start);
        }
        let start = Slot { table, row: last }.start();
        self.cells[start..start + 8].fill(Cell::ZERO);
        self.counts[table] = last;
    }
}

impl Book<'_> {
    /// The questions of a strike, and the slot of the row.
    pub(crate) fn may_strike(&self, table: usize, row: usize) -> Result<Slot, Refusal>
        ensures answers { AnswersAs (λ _. tt) result (may_strike (book_model self.now) table row) }
        ensures at { IfOk result (λ at. (at.table ≡ table) × (at.row ≡ row)) }
    {
        let count = self.rows.counts.get(table).ok_or(Refusal::NoTable)?;
        if row >= *count {
            return Err(Refusal::NoRow);
        }
        Ok(Slot { table, row })
    }

    /// Takes away a row that there is.
    fn remove(&mut self, at: Slot)
        requires { may_strike (book_model self.old) at.table at.row ≡ done tt }
        ensures { struck (book_model self.old) at.table at.row ≡ done (book_model self.new) }
    {
        self.rows.remove(at);
    }

    /// Strikes a row; later rows of its table move up by one.
    pub fn strike(&mut self, table: usize, row: usize) -> Result<(), Refusal>
        ensures { Alters result (struck (book_model self.old) table row) self.old self.new }
    {
        let at = self.may_strike(table, row)?;
        self.remove(at);
        Ok(())
    }
}
