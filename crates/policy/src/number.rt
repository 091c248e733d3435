ghost use Rattle.std.specs.Prelude.{◌≡◌, map};
ghost use Rattle.cells.specs.Cells.{cell_value};
ghost use Rattle.semantics.specs.Policies.{number_at};

use cells::Cell;

/// The number in a column of a row; none where the row has no such column or it holds a prefix.
pub(crate) fn number_at(row: &[Cell], column: usize) -> Option<u32>
    ensures { result ≡ number_at (map cell_value row.now) column }
{
    match row.get(column)? {
        Cell::Number(number) => Some(*number),
        Cell::Prefix(_) => None,
    }
}
