ghost use Rattle.std.specs.Prelude.{map};
ghost use Rattle.semantics.specs.Outcomes.{AnswersAs};
ghost use Rattle.cells.specs.Cells.{cell_value};
ghost use Rattle.book.specs.Books.{book_model, Alters};
ghost use Rattle.tariffs.specs.Tariffs.{tariff_row, tariff_stored};

use book::Book;
use cells::{Cell, Prefix};
use semantics::Refusal;

/// The tariffs of the programs: the digits of each, its carrier and its price.
pub const THREE_TARIFFS: [(&str, u32, u32); 3] = [
    ("47", 1, 3100),
    ("4711", 2, 2750),
    ("48", 1, 2900),
];

/// The row of a tariff: its prefix, the carrier and the price.
fn tariff(digits: &[u8], carrier: u32, price: u32) -> Result<[Cell; 3], Refusal>
    ensures { AnswersAs (map cell_value) result (tariff_row digits.now carrier price) }
{
    let prefix = Prefix::from_bytes(digits)?;
    Ok([
        Cell::Prefix(prefix),
        Cell::Number(carrier),
        Cell::Number(price),
    ])
}

/// Stores a tariff into a table.
pub fn store(
    book: &mut Book<'_>,
    table: usize,
    digits: &[u8],
    carrier: u32,
    price: u32,
) -> Result<(), Refusal>
    ensures { Alters result (tariff_stored (book_model book.old) table digits.now carrier price) book.old book.new }
{
    let row = tariff(digits, carrier, price)?;
    book.store(table, &row)
}
