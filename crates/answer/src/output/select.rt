ghost use Rattle.std.specs.Prelude.{◌≡◌};
ghost use Rattle.answer.specs.Bounds.{selected};
ghost use Rattle.answer.specs.Outputs.{Same, Beside, WroteIn, rows_there};
ghost use Rattle.answer.specs.Selecting.{ForCondition};

use crate::bound::Bound;
use crate::output::Output;
use workspace::Block;

impl Output<'_> {
    /// The rows of a block for which a condition is true, for the high answer also those for which it
    /// is unknown.
    pub(crate) fn select(&mut self, bound: Bound, from: Block, condition: &[u8]) -> Block
        requires beside { Beside self.old from }
        ensures same { Same self.old self.new }
        ensures wrote { WroteIn from.width self.old self.new result }
        ensures holds { ForCondition condition.now (λ c. rows_there self.new result ≡ selected bound c (rows_there self.old from)) }
    {
        self.keep(from, |_, row| bound.selects(condition, row))
    }
}
