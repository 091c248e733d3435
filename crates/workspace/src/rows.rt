ghost use Rattle.std.specs.Prelude.{◌≡◌};
ghost use Rattle.std.specs.Iterator.{YieldsFirstBy, item_count};
ghost use Rattle.workspace.specs.Rows.{lent_row, rows_left};

use crate::block::Block;
use std::iter::ExactSizeIterator;
use view::Masked;

/// Goes over the rows of a block, in their order.
#[derive(Drop)]
pub struct Rows<'w> {
    pub(crate) work: &'w [Masked],
    pub(crate) left: Block,
}

impl<'w> Iterator for Rows<'w> {
    type Item = &'w [Masked];

    ghost next_gives = { YieldsFirstBy lent_row rows_left };

    ghost remaining = { item_count rows_left };

    #[tactic(auto, using(crate::proofs::Reading::length_rows, crate::proofs::Reading::rows_none, crate::proofs::Reading::rows_next))]
    fn next(&mut self) -> Option<&'w [Masked]> {
        let block = self.left;
        self.left.count = block.count.checked_sub(1)?;
        self.left.first += 1;
        Some(block.row(self.work, 0))
    }
}

/// How many rows are still to come.
impl ExactSizeIterator for Rows<'_> {
    #[tactic(auto, using(crate::proofs::Reading::length_rows))]
    fn len(&self) -> usize {
        self.left.count
    }
}
