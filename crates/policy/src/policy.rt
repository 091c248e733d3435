ghost use Rattle.std.specs.Prelude.{◌≡◌, map};
ghost use Rattle.cells.specs.Cells.{cell_value};
ghost use Rattle.semantics.specs.Policies.{Meaning};

use cells::Cell;
use semantics::Mark;

/// A policy answers one question, and every answer is the value of its meaning.
pub trait Policy {
    ghost meaning: { Self → Meaning };

    /// How much the broker may see of a column of a row, whose cells are these.
    fn mark(&self, broker: u16, table: usize, row: &[Cell], column: usize) -> Mark
        ensures { result ≡ meaning self.now broker table (map cell_value row.now) column };
}
