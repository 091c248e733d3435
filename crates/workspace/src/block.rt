ghost use Rattle.std.specs.Prelude.{◌≡◌, ◌+◌, ◌≤◌, [], map, slice_index_or, take, drop};

use crate::rows::Rows;
use view::Masked;

/// So many cells from a cell on, or as many as there are.
#[tactic(auto, using(std::proofs::lemmas::List::take_all, std::proofs::lemmas::List::drop_all))]
fn part(work: &[Masked], from: usize, width: usize) -> &[Masked]
    ensures { result.now ≡ take width (drop from work.now) }
{
    let behind = work.get(from..).unwrap_or(&[]);
    behind.get(..width).unwrap_or(behind)
}

/// Rows of a workspace: `count` rows from row number `first` on, each `width` cells wide. Row number
/// `k` begins at cell `8 * k`. A workspace serves 30 answers of at most 512 rows.
#[derive(Clone, Copy, PartialEq, Eq, Debug)]
pub struct Block {
    pub first: usize,
    pub count: usize,
    pub width: usize,
    ghost narrow: { width ≤ 8 },
    ghost low: { first + count ≤ 15360 },
}

impl Block {
    ghost use Rattle.view.specs.Views.{masked_of};
    ghost use Rattle.workspace.specs.Blocks.{block_rows};
    ghost use Rattle.workspace.specs.Rows.{rows_left};

    /// The cells of a row, none where the block has no row of this number.
    #[tactic(auto, using(crate::proofs::Reading::row_in, crate::proofs::Reading::row_past))]
    pub fn row<'w>(&self, work: &'w [Masked], row: usize) -> &'w [Masked]
        ensures { map masked_of result.now ≡ slice_index_or (block_rows work.now self.now) row [] }
    {
        if row >= self.count {
            return &[];
        }
        part(work, 8 * (self.first + row), self.width)
    }

    /// The rows of the block.
    pub fn rows<'w>(&self, work: &'w [Masked]) -> Rows<'w>
        ensures { rows_left result ≡ block_rows work.now self.now }
    {
        Rows { work, left: *self }
    }
}
