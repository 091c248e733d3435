ghost use Rattle.std.specs.Prelude.{◌≡◌, List};
ghost use Rattle.std.specs.Borrow.{Bor};
ghost use Rattle.view.specs.declared.masked.Masked as cell;
ghost use Rattle.answer.specs.declared.row.Row as buffer;
ghost use Rattle.answer.specs.Outputs.{Same, Beside, KeptBy, WroteIn, rows_there};

use crate::output::Output;
use crate::row::Row;
use view::Masked;
use workspace::Block;

impl Output<'_> {
    /// Whether a row passes a test that is handed the cells of the workspace.
    fn passes<F: Fn(&[Masked], &Row) -> bool>(&self, test: &F, row: &Row) -> bool
        requires { (cells : Bor (List cell.Masked)) → F.pre test.now cells row }
        ensures { (cells : Bor (List cell.Masked)) × (cells.now ≡ self.now.work.now) × F.post test.now cells row.entry result }
    {
        test(self.work, row)
    }

    /// The rows of a block that pass a test, which is handed the cells of the workspace and the row.
    pub(super) fn keep<F: Fn(&[Masked], &Row) -> bool>(&mut self, from: Block, test: F) -> Block
        requires callable { (cells : Bor (List cell.Masked)) (row : Bor buffer.Row) → F.pre test cells row }
        requires beside { Beside self.old from }
        ensures same { Same self.old self.new }
        ensures wrote { WroteIn from.width self.old self.new result }
        ensures holds { KeptBy (F.post test) from self.old self.new result }
    {
        self.start(from.width);
        for number in 0..from.count {
            let row = self.copy(from, number);
            if self.passes(&test, &row) {
                self.push(row.cells());
            }
        }
        self.rows
    }

    /// The rows of a block once more.
    pub(crate) fn again(&mut self, from: Block) -> Block
        requires beside { Beside self.old from }
        ensures same { Same self.old self.new }
        ensures wrote { WroteIn from.width self.old self.new result }
        ensures holds { rows_there self.new result ≡ rows_there self.old from }
    {
        self.keep(from, |_, _| true)
    }
}
