ghost use Rattle.std.specs.Prelude.{◌≤◌, length};
ghost use Rattle.answer.specs.Bounds.{projected};
ghost use Rattle.answer.specs.Outputs.{Same, Beside, MakesIn};

use crate::output::Output;
use crate::row::Row;
use workspace::Block;

impl Output<'_> {
    /// The listed columns of the rows of a block, without repeats; none where there are too many.
    pub(crate) fn project(&mut self, from: Block, columns: &[u8]) -> Option<Block>
        requires beside { Beside self.old from }
        requires few { length columns.now ≤ 8 }
        ensures same { Same self.old self.new }
        ensures makes { MakesIn (length columns.now) (λ rows. projected columns.now (rows from)) self.old self.new result }
    {
        self.start(columns.len());
        self.gather(from.count, |work, number| {
            Row::picked(from.row(work, number), columns)
        })
    }
}
