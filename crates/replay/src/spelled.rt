//! Cells as a journal spells them.

ghost use Rattle.std.specs.Prelude.{◌<◌, length, IfSome};

use bounded::Bounded;
use cells::{Cell, Prefix};
use reply::CellKind;
use semantics::Refusal;

/// A cell that was spelled: a number or a prefix, or the refusal where its bytes make no prefix.
pub(crate) type Spelled = Result<Cell, Refusal>;

/// The first cell of some bytes, and the bytes after it.
pub(crate) fn first_cell(bytes: &[u8]) -> Option<(Spelled, &[u8])>
    ensures { IfSome result (λ first. length first.1.now < length bytes.now) }
{
    let (kind, body) = bytes.split_first()?;
    match (CellKind::try_from(*kind).ok()?, body) {
        (CellKind::Number, [a, b, c, d, rest @ ..]) => {
            let number = u32::from_le_bytes([*a, *b, *c, *d]);
            Some((Ok(Cell::Number(number)), rest))
        }
        (CellKind::Prefix, [count, behind @ ..]) => {
            let (digits, rest) = behind.split_at_checked(usize::from(*count))?;
            Some((Prefix::from_bytes(digits).map(Cell::Prefix), rest))
        }
        _ => None,
    }
}

/// The cells of a row: at most 16.
pub(crate) type Row = Bounded<Spelled, 16>;

/// The cells that some bytes spell, one behind another.
pub(crate) fn row(bytes: &[u8]) -> Option<Row> {
    let mut row = Bounded::new(Ok(Cell::ZERO));
    let mut rest = bytes;
    while !rest.is_empty() {
        let (cell, behind) = first_cell(rest)?;
        row.push(cell).ok()?;
        rest = behind;
    }
    Some(row)
}

/// The cells of a row, or the refusal of the first that is none.
pub(crate) fn cells(row: &Row) -> Result<Bounded<Cell, 16>, Refusal> {
    let mut cells = Bounded::new(Cell::ZERO);
    for spelled in row.as_slice() {
        cells.push((*spelled)?).unwrap();
    }
    Ok(cells)
}
