ghost use Rattle.std.specs.Prelude.{◌≤◌, map, length};
ghost use Rattle.std.specs.List.{flat_map};
ghost use Rattle.semantics.specs.Replies.{cell_bytes, value_bytes};
ghost use Rattle.cells.specs.Cells.{cell_value};
ghost use Rattle.view.specs.Views.{masked_of};

use crate::kinds::CellKind;
use crate::sink::Sink;
use cells::Cell;
use view::Masked;

/// Puts a value: its kind, and the number or the count of digits and the digits.
fn put_value<S: Sink>(to: &mut S, value: &Cell)
    requires { length (value_bytes (cell_value value.now)) ≤ S.room to.old }
    ensures { S.takes to.old (value_bytes (cell_value value.now)) to.new }
{
    match value {
        Cell::Number(number) => {
            to.put(&[u8::from(CellKind::Number)]);
            to.put(&number.to_le_bytes());
        }
        Cell::Prefix(prefix) => {
            let digits = prefix.digits();
            // `as` keeps the count: a prefix has at most 8 digits.
            to.put(&[u8::from(CellKind::Prefix), digits.len() as u8]);
            to.put(digits);
        }
    }
}

/// Puts a cell: a value; or its kind and the place of a variable, or the domain and the index of a
/// pseudonym.
fn put_cell<S: Sink>(to: &mut S, cell: &Masked)
    requires { length (cell_bytes (masked_of cell.now)) ≤ S.room to.old }
    ensures { S.takes to.old (cell_bytes (masked_of cell.now)) to.new }
{
    match cell {
        Masked::Value(value) => put_value(to, value),
        Masked::Variable { table, row, column } => {
            to.put(&[u8::from(CellKind::Variable), *table, *row, *column]);
        }
        Masked::Pseudonym { domain, index } => {
            to.put(&[u8::from(CellKind::Pseudonym), *domain]);
            to.put(&index.to_le_bytes());
        }
    }
}

/// Puts the cells of a row, one after another.
#[tactic(auto, using(crate::proofs::Sizes::cells_fit))]
pub(crate) fn put_cells<S: Sink>(to: &mut S, row: &[Masked])
    requires { length (flat_map cell_bytes (map masked_of row.now)) ≤ S.room to.old }
    ensures { S.takes to.old (flat_map cell_bytes (map masked_of row.now)) to.new }
{
    for cell in row {
        put_cell(to, cell);
    }
}
