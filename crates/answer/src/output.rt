ghost use Rattle.std.specs.Prelude.{◌≡◌, ◌+◌, ◌*◌, ◌<◌, ◌≤◌, [], map, length, slice_index_or};
ghost use Rattle.semantics.specs.Answers.{same_row};
ghost use Rattle.semantics.specs.Lists.{some};
ghost use Rattle.view.specs.Views.{masked_of};

mod difference;
mod gather;
mod keep;
mod product;
mod project;
mod select;
mod table;
mod union;

use crate::row::{Row, identical};
use view::Masked;
use workspace::Block;

/// The region of a workspace that an answer is written to: `limit` rows from the first of `rows` on.
/// `rows` are those that stand there already.
#[derive(Drop)]
pub(crate) struct Output<'w> {
    pub(crate) work: &'w mut [Masked],
    pub(crate) limit: usize,
    pub(crate) rows: Block,
    ghost few: { rows.count ≤ limit },
    ghost low: { rows.first + limit ≤ 15360 },
    ghost room: { 8 * (rows.first + limit) ≤ length work.now },
}

impl Output<'_> {
    ghost use Rattle.answer.specs.Outputs.{Same, Fills, WroteIn, PushedIn, output_rows, rows_there};
    ghost use Rattle.answer.specs.Regions.{Within, inserted};
    ghost use Rattle.answer.specs.Rows.{carried};

    /// Begins anew, without rows, for rows of this width.
    fn start(&mut self, width: usize)
        requires { width ≤ 8 }
        ensures same { Same self.old self.new }
        ensures wrote { WroteIn width self.old self.new self.new.rows }
        ensures none { self.new.rows.count ≡ 0 }
    {
        self.rows.count = 0;
        self.rows.width = width;
    }

    /// Puts a row behind the others; there is room for it.
    fn push(&mut self, row: &[Masked])
        requires few { self.old.rows.count < self.old.limit }
        requires wide { length row.now ≡ self.old.rows.width }
        ensures same { Same self.old self.new }
        ensures pushed { PushedIn (map masked_of row.now) self.old self.new }
    {
        let start = 8 * (self.rows.first + self.rows.count);
        let end = start + row.len();
        self.work[start..end].copy_from_slice(row);
        self.rows.count += 1;
    }

    /// A copy of a row of a block, without cells where the block has no row of this number.
    fn copy(&self, from: Block, number: usize) -> Row
        ensures row { carried result ≡ slice_index_or (rows_there self.now from) number [] }
        ensures wide { number < from.count → Within from self.now.work.now → length (carried result) ≡ from.width }
    {
        Row::at(from, self.work, number)
    }

    /// Whether a row is identical to one of the rows.
    fn has(&self, row: &[Masked]) -> bool
        ensures { result ≡ some (same_row (map masked_of row.now)) (output_rows self.now) }
    {
        self.rows.rows(self.work).any(|other| identical(row, other))
    }

    /// Puts a row behind the others, unless one of them is identical to it; none where there is no
    /// room for it.
    fn insert(&mut self, row: &[Masked]) -> Option<()>
        requires wide { length row.now ≡ self.old.rows.width }
        ensures same { Same self.old self.new }
        ensures fills { Fills (inserted (output_rows self.old) (map masked_of row.now)) self.old self.new result }
    {
        if self.has(row) {
            return Some(());
        }
        if self.rows.count == self.limit {
            return None;
        }
        self.push(row);
        Some(())
    }
}
