ghost use Rattle.std.specs.Prelude.{◌≡◌, ℕ, ◌<◌, List, IfSome};
ghost use Rattle.std.specs.Borrow.{Bor};
ghost use Rattle.view.specs.declared.masked.Masked as cell;
ghost use Rattle.answer.specs.Outputs.{Same, Fits, Gathers};

use crate::output::Output;
use crate::row::Row;
use view::Masked;
use workspace::Block;

impl Output<'_> {
    /// The row of a number, as `row` gives it from the cells of the workspace.
    fn given<F: Fn(&[Masked], usize) -> Row>(&self, row: &F, number: usize) -> Row
        requires { (cells : Bor (List cell.Masked)) → F.pre row.now cells number }
        ensures { (cells : Bor (List cell.Masked)) × (cells.now ≡ self.now.work.now) × F.post row.now cells number result }
    {
        row(self.work, number)
    }

    /// Puts `count` rows behind the others, which are without repeats, keeps it so, and answers all rows;
    /// none where that makes too many. `row` gives the row of a number, from the cells of the workspace.
    pub(super) fn gather<F: Fn(&[Masked], usize) -> Row>(
        &mut self,
        count: usize,
        row: F,
    ) -> Option<Block>
        requires callable { (cells : Bor (List cell.Masked)) (i : ℕ) → i < count → F.pre row cells i }
        requires wide { Fits (F.post row) self.old count }
        ensures same { Same self.old self.new }
        ensures fills { Gathers (F.post row) count self.old self.new result }
        ensures stands { IfSome result (λ block. block ≡ self.new.rows) }
    {
        for number in 0..count {
            let next = self.given(&row, number);
            self.insert(next.cells())?;
        }
        Some(self.rows)
    }
}
