ghost use Rattle.std.specs.Prelude.{◌≡◌};
ghost use Rattle.semantics.specs.Values.{kind_of};
ghost use Rattle.cells.specs.Cells.{cell_value};

use crate::prefix::Prefix;
use semantics::Kind;
use std::fmt;

/// A number or a prefix, in 12 bytes.
#[derive(Clone, Copy, PartialEq, Eq, Debug)]
pub enum Cell {
    Number(u32),
    Prefix(Prefix),
}

const _: () = prove!(size_of::<Cell>() == 12);

impl Cell {
    ghost use Rattle.cells.specs.Equality.{EqualByValue};

    /// What a cell holds that no row uses: the number 0.
    pub const ZERO: Cell = Cell::Number(0);

    /// The kind of column that the cell may stand in.
    pub fn kind(&self) -> Kind
        ensures { result ≡ kind_of (cell_value self.now) }
    {
        match self {
            Cell::Number(_) => Kind::Number,
            Cell::Prefix(_) => Kind::Prefix,
        }
    }

    /// Cells are equal exactly where they hold the same value.
    #[tactic(auto, using(crate::proofs::Same::equal_cells))]
    pub(crate) fn are_equal_by_value()
        ensures { EqualByValue }
    {}
}

/// As it is shown to a person.
impl fmt::Display for Cell {
    fn fmt<W: fmt::Write>(&self, f: &mut fmt::Formatter<W>) -> fmt::Result {
        match self {
            Cell::Number(number) => number.fmt(f),
            Cell::Prefix(prefix) => prefix.fmt(f),
        }
    }
}
