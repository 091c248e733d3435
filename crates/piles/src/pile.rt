ghost use Rattle.std.specs.Prelude.{◌≡◌, map};
ghost use Rattle.cells.specs.Cells.{cell_value};
ghost use Rattle.piles.specs.Piles.{pile_means};

use crate::parts::Parts;
use cells::Cell;
use policy::Policy;
use semantics::Mark;

/// Policies put together: the filters or the register of a number, or Both or Either of two such.
#[derive(Drop)]
pub enum Pile {
    Filters(usize),
    Register(usize),
    Both(Box<Pile>, Box<Pile>),
    Either(Box<Pile>, Box<Pile>),
}

impl Pile {
    /// The mark of the pile over these policies.
    fn mark(&self, parts: &Parts, broker: u16, table: usize, row: &[Cell], column: usize) -> Mark
        ensures { result ≡ pile_means parts.now self.now broker table (map cell_value row.now) column }
    {
        match self {
            Pile::Filters(number) => parts.by_filters(*number, broker, table, row, column),
            Pile::Register(number) => parts.by_register(*number, broker, table, row, column),
            Pile::Both(first, second) => {
                let first = first.mark(parts, broker, table, row, column);
                let second = second.mark(parts, broker, table, row, column);
                first.narrower(second)
            }
            Pile::Either(first, second) => {
                let first = first.mark(parts, broker, table, row, column);
                let second = second.mark(parts, broker, table, row, column);
                first.wider(second)
            }
        }
    }
}

/// A pile over the policies that it names.
#[derive(Clone, Copy)]
pub struct Stacked<'p> {
    pub parts: &'p Parts,
    pub pile: &'p Pile,
}

impl Policy for Stacked<'_> {
    ghost meaning = { λ s. pile_means s.parts.now s.pile.now };

    fn mark(&self, broker: u16, table: usize, row: &[Cell], column: usize) -> Mark {
        self.pile.mark(self.parts, broker, table, row, column)
    }
}
