ghost use Rattle.std.specs.Prelude.{◌≡◌, map};
ghost use Rattle.semantics.specs.Truths.{cell_at};
ghost use Rattle.view.specs.Views.{masked_of};

use cells::Cell;
use std::fmt;
use std::fmt::{Display, InlineText};

/// A cell of a view, in 16 bytes.
#[derive(Clone, Copy, PartialEq, Eq, Debug)]
pub enum Masked {
    /// The value of a shown cell.
    Value(Cell),
    /// The place of a cell of which nothing is seen.
    Variable { table: u8, row: u8, column: u8 },
    /// The pseudonym of a linked cell: its domain, and an index that it shares with the linked
    /// cells of the domain that hold the same value.
    Pseudonym { domain: u8, index: u16 },
}

const _: () = prove!(size_of::<Masked>() == 16);

impl Masked {
    ghost use Rattle.view.specs.Equality.{EqualAsSeen, RowsEqualAsSeen};

    /// What a cell holds that no row uses: the number 0.
    pub const ZERO: Masked = Masked::Value(Cell::ZERO);

    /// Cells are equal exactly where they are seen as the same, and rows where they are identical.
    #[tactic(auto, using(crate::proofs::Same::equal_masked, crate::proofs::Same::equal_rows))]
    pub(crate) fn are_equal_as_seen()
        ensures cells { EqualAsSeen }
        ensures rows { RowsEqualAsSeen }
    {}
}

/// The cell of a row in a column, the number 0 past the row's end.
pub fn cell_at(row: &[Masked], column: u8) -> Masked
    ensures { masked_of result ≡ cell_at (map masked_of row.now) column }
{
    let cell = row.get(usize::from(column));
    cell.copied().unwrap_or(Masked::ZERO)
}

/// Writes a text as a whole, to which a width applies. A variable takes at most 12 bytes.
fn pad<W: fmt::Write, D: Display + Drop>(f: &mut fmt::Formatter<W>, text: D) -> fmt::Result {
    f.pad(InlineText::<12>::of(text).as_str())
}

/// As it is shown to a person: a value, ?table.row.column of a variable, domain#index of a
/// pseudonym.
impl Display for Masked {
    fn fmt<W: fmt::Write>(&self, f: &mut fmt::Formatter<W>) -> fmt::Result {
        match self {
            Masked::Value(cell) => cell.fmt(f),
            Masked::Variable { table, row, column } => {
                pad(f, format_args!("?{table}.{row}.{column}"))
            }
            Masked::Pseudonym { domain, index } => pad(f, format_args!("{domain}#{index}")),
        }
    }
}
