ghost use Rattle.std.specs.Prelude.{◌≡◌, ◌<◌, true, [], ◌∷◌, map, length, replicate, slice_index_or, slice_set};
ghost use Rattle.semantics.specs.Lists.{every};
ghost use Rattle.view.specs.Sizes.{is_size};

use crate::masked::Masked;
use crate::position::Position;
use crate::size::Size;
use book::{Slot, Walk};

/// What a broker sees of a book: the cells, each row in its slot as in the memory of a book, and
/// the size of each table.
#[derive(Drop)]
pub struct View {
    pub(crate) cells: [Masked; 8192],
    pub(crate) sizes: [Size; 4],
    ghost whole: { length cells ≡ 8192 },
    ghost four: { length sizes ≡ 4 },
    ghost low: { every is_size sizes ≡ true },
}

impl View {
    ghost use Rattle.book.specs.Walks.{rows_left};
    ghost use Rattle.cells.specs.declared.cell.Cell.TheVariants.{Number};
    ghost use Rattle.view.specs.declared.masked.Masked.TheVariants.{Value};
    ghost use Rattle.view.specs.Positions.{place_at};
    ghost use Rattle.view.specs.Sizes.{size_within};
    ghost use Rattle.view.specs.Views.{masked_of, cell_of, view_cells, view_sizes, view_tables, width_in, CellPut, RowSeen};

    /// The view of nothing: four tables without rows.
    pub fn new() -> View
        ensures { view_tables result ≡ [] ∷ [] ∷ [] ∷ [] ∷ [] }
    {
        let nothing = Size {
            rows: 0,
            columns: 0,
        };
        View {
            cells: [Masked::ZERO; 8192],
            sizes: [nothing; 4],
        }
    }

    /// How many rows a table has, none where there is no such table.
    #[tactic(auto, using(crate::proofs::Memory::counts_are))]
    pub fn row_count(&self, table: usize) -> usize
        ensures { result ≡ length (slice_index_or (view_tables self.now) table []) }
    {
        self.sizes.get(table).map_or(0, |size| size.rows)
    }

    /// How many columns a table has, none where there is no such table.
    pub fn width(&self, table: usize) -> usize
        ensures { result ≡ width_in self.now table }
    {
        self.sizes.get(table).map_or(0, |size| size.columns)
    }

    /// The rows of a table, none where there is no such table.
    pub fn rows(&self, table: usize) -> Walk<'_, Masked>
        ensures { map (map masked_of) (rows_left result) ≡ slice_index_or (view_tables self.now) table [] }
    {
        let width = self.width(table);
        Walk::of(&self.cells, table, width, self.row_count(table))
    }

    /// The cells of a row that there is.
    fn cells_of(&self, at: Slot) -> &[Masked]
        requires { at.row < length (slice_index_or (view_tables self.now) at.table []) }
        ensures { map masked_of result.now ≡ slice_index_or (slice_index_or (view_tables self.now) at.table []) at.row [] }
    {
        &at.cells(&self.cells)[..self.sizes[at.table].columns]
    }

    /// The cells of a row, where there is one of this number.
    pub fn row(&self, table: usize, row: usize) -> Option<&[Masked]>
        ensures { RowSeen (view_tables self.now) table row result }
    {
        if row >= self.row_count(table) {
            return None;
        }
        Some(self.cells_of(Slot { table, row }))
    }

    /// The cell at a position, of a row of the view or not.
    pub fn cell(&self, at: Position) -> Masked
        ensures { result ≡ cell_of (view_cells self.now) (place_at at) }
    {
        self.cells[at.index()]
    }

    /// Leaves the number 0 in every cell, of a row of the view or not.
    pub fn clear(&mut self)
        ensures cells { view_cells self.new ≡ replicate 8192 (Value (Number 0)) }
        ensures sizes { view_sizes self.new ≡ view_sizes self.old }
    {
        self.cells = [Masked::ZERO; 8192];
    }

    /// Writes the cell at a position, of a row of the view or not.
    pub fn put(&mut self, at: Position, masked: Masked)
        ensures cell { CellPut (place_at at) masked (view_cells self.old) (view_cells self.new) }
        ensures sizes { view_sizes self.new ≡ view_sizes self.old }
    {
        self.cells[at.index()] = masked;
    }

    /// Gives a table so many rows and columns, and at most 256 and 8. They hold what was put there.
    pub fn resize(&mut self, table: usize, rows: usize, columns: usize)
        ensures sizes { view_sizes self.new ≡ slice_set (view_sizes self.old) table (size_within rows columns) }
        ensures cells { view_cells self.new ≡ view_cells self.old }
    {
        if table < 4 {
            self.sizes[table] = Size {
                rows: rows.min(256),
                columns: columns.min(8),
            };
        }
    }
}
