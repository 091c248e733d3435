ghost use Rattle.std.specs.Prelude.{◌≡◌};
ghost use Rattle.answer.specs.Bounds.{subtracted};
ghost use Rattle.answer.specs.Outputs.{Same, Beside, WroteIn, rows_there};

use crate::bound::Bound;
use crate::output::Output;
use workspace::Block;

impl Output<'_> {
    /// The rows of the left block that no row of the right one takes out.
    pub(crate) fn difference(&mut self, bound: Bound, left: Block, right: Block) -> Block
        requires beside { Beside self.old left × Beside self.old right }
        ensures same { Same self.old self.new }
        ensures wrote { WroteIn left.width self.old self.new result }
        ensures holds { rows_there self.new result ≡ subtracted bound (rows_there self.old left) (rows_there self.old right) }
    {
        self.keep(
            left,
            |work, row| !bound.some_takes_out(right.rows(work), row),
        )
    }
}
