ghost use Rattle.std.specs.Prelude.{◌≡◌, ◌+◌, ◌*◌, ◌<◌, ◌≤◌, [], ◌++◌, map, length, slice_index_or};
ghost use Rattle.semantics.specs.Answers.{picked, same_row};
ghost use Rattle.view.specs.Views.{masked_of, width_in};
ghost use Rattle.workspace.specs.Blocks.{block_rows};
ghost use Rattle.answer.specs.Regions.{Within};
ghost use Rattle.answer.specs.Rows.{carried, seen_rows};

use bounded::Bounded;
use view::{Masked, View, cell_at};
use workspace::Block;

/// Whether two rows are identical.
// Most rows differ in their first cell: it is compared here, without a call for each pair of rows.
#[tactic(auto, using(view::proofs::Same::equal_masked, view::proofs::Same::equal_rows))]
#[inline(always)]
pub(crate) fn identical(row: &[Masked], other: &[Masked]) -> bool
    ensures { result ≡ same_row (map masked_of row.now) (map masked_of other.now) }
{
    match (row, other) {
        ([x, cells @ ..], [y, others @ ..]) => x == y && cells == others,
        _ => row.is_empty() && other.is_empty(),
    }
}

/// A row on its way into an answer: at most 8 cells.
#[derive(Clone, Copy, PartialEq, Eq, Debug)]
pub(crate) struct Row {
    cells: Bounded<Masked, 8>,
}

impl Row {
    /// A row without cells.
    fn empty() -> Row
        ensures { carried result ≡ [] }
    {
        Row {
            cells: Bounded::new(Masked::ZERO),
        }
    }

    /// A copy of some cells.
    fn of(cells: &[Masked]) -> Row
        requires { length cells.now ≤ 8 }
        ensures { carried result ≡ map masked_of cells.now }
    {
        Row::empty().joined(cells)
    }

    /// A copy of a row of a block, without cells where the block has no row of this number.
    pub(crate) fn at(block: Block, work: &[Masked], number: usize) -> Row
        ensures row { carried result ≡ slice_index_or (block_rows work.now block) number [] }
        ensures wide { number < block.count → Within block work.now → length (carried result) ≡ block.width }
    {
        Row::of(block.row(work, number))
    }

    /// A copy of a row of a view.
    pub(crate) fn seen(view: &View, table: usize, number: usize) -> Row
        ensures row { number < length (seen_rows view.now table) → carried result ≡ slice_index_or (seen_rows view.now table) number [] }
        ensures wide { number < length (seen_rows view.now table) → length (carried result) ≡ width_in view.now table }
    {
        Row::of(view.row(table, number).unwrap_or(&[]))
    }

    /// The listed columns of some cells, in the listed order. A column that is not there is the number 0.
    pub(crate) fn picked(cells: &[Masked], columns: &[u8]) -> Row
        requires { length columns.now ≤ 8 }
        ensures { carried result ≡ picked columns.now (map masked_of cells.now) }
    {
        let mut row = Row::empty();
        for column in columns {
            row.cells.push(cell_at(cells, *column)).unwrap();
        }
        row
    }

    /// This row and then some cells.
    pub(crate) fn joined(&self, cells: &[Masked]) -> Row
        requires { length (carried self.now) + length cells.now ≤ 8 }
        ensures { carried result ≡ carried self.now ++ map masked_of cells.now }
    {
        let mut row = *self;
        row.cells.extend(cells).unwrap();
        row
    }

    /// The cells of the row.
    pub(crate) fn cells(&self) -> &[Masked]
        ensures row { map masked_of result.now ≡ carried self.now }
        ensures wide { length result.now ≡ length (carried self.now) }
        ensures few { length result.now ≤ 8 }
    {
        self.cells.as_slice()
    }
}
