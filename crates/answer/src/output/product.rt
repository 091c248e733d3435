ghost use Rattle.std.specs.Prelude.{◌≡◌, ◌+◌, ◌≤◌, ◌++◌, map, length};
ghost use Rattle.semantics.specs.Answers.{paired};
ghost use Rattle.answer.specs.Outputs.{Same, Beside, WroteIn, MakesIfNarrow, output_rows, rows_there};
ghost use Rattle.answer.specs.Regions.{InRegion};
ghost use Rattle.answer.specs.Rows.{carried};

use crate::output::Output;
use crate::row::Row;
use workspace::Block;

impl Output<'_> {
    /// Puts a row, followed by each row of the right block, behind the others.
    fn pair(&mut self, row: &Row, right: Block)
        requires beside { Beside self.old right }
        requires wide { length (carried row.now) + right.width ≡ self.old.rows.width }
        requires few { self.old.rows.count + right.count ≤ self.old.limit }
        ensures same { Same self.old self.new }
        ensures wrote { WroteIn self.old.rows.width self.old self.new self.new.rows }
        ensures more { self.new.rows.count ≡ self.old.rows.count + right.count }
        ensures holds { output_rows self.new ≡ output_rows self.old ++ map (λ s. carried row.now ++ s) (rows_there self.old right) }
    {
        for number in 0..right.count {
            let both = row.joined(self.copy(right, number).cells());
            let cells = both.cells();
            self.push(cells);
        }
    }

    /// Each row of the left block followed by each row of the right one; none where that makes too
    /// many, or too wide ones.
    pub(crate) fn product(&mut self, left: Block, right: Block) -> Option<Block>
        requires beside { Beside self.old left × Beside self.old right }
        ensures same { Same self.old self.new }
        ensures within { InRegion self.old.limit self.old.rows.first result }
        ensures makes { MakesIfNarrow (left.width + right.width) (λ rows. paired (rows left) (rows right)) self.old self.new result }
    {
        let width = left.width + right.width;
        if width > 8 || left.count * right.count > self.limit {
            return None;
        }
        self.start(width);
        for number in 0..left.count {
            let row = self.copy(left, number);
            self.pair(&row, right);
        }
        Some(self.rows)
    }
}
