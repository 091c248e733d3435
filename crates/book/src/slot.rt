ghost use Rattle.std.specs.Prelude.{◌≡◌, ◌<◌, take, drop};
ghost use Rattle.book.specs.Layout.{row_start};

/// So many cells of a memory, or as many as it has.
pub(crate) fn first<T>(memory: &[T], size: usize) -> &[T]
    ensures { result.now ≡ take size memory.now }
{
    &memory[..size.min(memory.len())]
}

/// The cells of a memory from a cell on.
pub(crate) fn behind<T>(memory: &[T], start: usize) -> &[T]
    ensures { result.now ≡ drop start memory.now }
{
    &memory[start.min(memory.len())..]
}

/// The part of a memory that a row of a table has: each row number has 32 cells, 8 for each of
/// four tables, and no table has more than 256 rows.
#[derive(Clone, Copy, PartialEq, Eq, Debug)]
pub struct Slot {
    pub table: usize,
    pub row: usize,
    pub ghost four: { table < 4 },
    pub ghost low: { row < 256 },
}

impl Slot {
    ghost use Rattle.book.specs.Slots.{SlotOf};

    /// The slot of a row of a table; none where no memory has one.
    pub fn new(table: usize, row: usize) -> Option<Slot>
        ensures { SlotOf table row result }
    {
        if table >= 4 || row >= 256 {
            return None;
        }
        Some(Slot { table, row })
    }

    /// The number of its first cell.
    pub fn start(self) -> usize
        ensures { result ≡ row_start self.table self.row }
    {
        32 * self.row + 8 * self.table
    }

    /// Its 8 cells of a memory, or as many as the memory has.
    pub fn cells<T>(self, memory: &[T]) -> &[T]
        ensures { result.now ≡ take 8 (drop (row_start self.table self.row) memory.now) }
    {
        first(behind(memory, self.start()), 8)
    }
}
