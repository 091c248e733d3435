ghost use Rattle.std.specs.Prelude.{◌≡◌, ◌<◌};
ghost use Rattle.book.specs.Layout.{cell_index};

use book::Slot;

/// Where a cell of a book stands: in a column of a row, which has its slot in memory.
#[derive(Clone, Copy, PartialEq, Eq, Debug)]
pub struct Position {
    pub slot: Slot,
    pub column: usize,
    pub ghost narrow: { column < 8 },
}

impl Position {
    ghost use Rattle.view.specs.Positions.{PositionOf};

    /// The position of a column of a row of a table; none where no memory has such a cell.
    pub fn new(table: usize, row: usize, column: usize) -> Option<Position>
        ensures { PositionOf table row column result }
    {
        let slot = Slot::new(table, row)?;
        if column >= 8 {
            return None;
        }
        Some(Position { slot, column })
    }

    /// The number of the cell in memory.
    pub(crate) fn index(self) -> usize
        ensures is { result ≡ cell_index self.slot.table self.slot.row self.column }
        ensures within { result < 8192 }
    {
        self.slot.start() + self.column
    }
}
