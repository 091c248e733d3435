ghost use Rattle.std.specs.Prelude.{◌≡◌};
ghost use Rattle.answer.specs.Bounds.{merged};
ghost use Rattle.answer.specs.Outputs.{Same, Beside, MakesIn};
ghost use Rattle.answer.specs.Regions.{InRegion};

use crate::output::Output;
use crate::row::Row;
use workspace::Block;

impl Output<'_> {
    /// The rows of two blocks of one width, without repeats; none where there are too many, or where
    /// the widths differ.
    pub(crate) fn union(&mut self, left: Block, right: Block) -> Option<Block>
        requires beside { Beside self.old left × Beside self.old right }
        ensures same { Same self.old self.new }
        ensures within { InRegion self.old.limit self.old.rows.first result }
        ensures makes { right.width ≡ left.width → MakesIn left.width (λ rows. merged (rows left) (rows right)) self.old self.new result }
    {
        if right.width != left.width {
            return None;
        }
        self.start(left.width);
        self.gather(left.count, |work, number| Row::at(left, work, number))?;
        self.gather(right.count, |work, number| Row::at(right, work, number))
    }
}
