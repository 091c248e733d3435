ghost use Rattle.std.specs.Prelude.{◌≡◌};
ghost use Rattle.std.specs.Iterator.{YieldsFirstRef, item_count};
ghost use Rattle.book.specs.Walks.{rows_in, rows_left};

use crate::slot::{behind, first};

/// Goes over the rows of a table, in their order, in a memory in which each row has its slot.
#[derive(Drop)]
pub struct Walk<'m, T> {
    pub(crate) left: &'m [T],
    pub(crate) width: usize,
    pub(crate) count: usize,
}

impl<'m, T> Walk<'m, T> {
    /// Over so many rows of a table that has so many columns.
    pub fn of(memory: &'m [T], table: usize, width: usize, count: usize) -> Walk<'m, T>
        ensures { rows_left result ≡ rows_in memory.now table width count }
    {
        let left = behind(memory, table.saturating_mul(8));
        Walk { left, width, count }
    }
}

impl<'m, T> Iterator for Walk<'m, T> {
    type Item = &'m [T];

    ghost next_gives = { YieldsFirstRef rows_left };

    ghost remaining = { item_count rows_left };

    #[tactic(auto, using(crate::proofs::Walking::length_rows, crate::proofs::Walking::rows_next))]
    fn next(&mut self) -> Option<&'m [T]> {
        self.count = self.count.checked_sub(1)?;
        let row = first(self.left, self.width);
        self.left = behind(self.left, 32);
        Some(row)
    }
}
