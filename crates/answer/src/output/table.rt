ghost use Rattle.view.specs.Views.{width_in};
ghost use Rattle.answer.specs.Outputs.{Same, MakesIn};
ghost use Rattle.answer.specs.Rows.{listed};

use crate::output::Output;
use crate::row::Row;
use view::View;
use workspace::Block;

impl Output<'_> {
    /// The rows of a table of a view, without repeats; none where there are too many.
    pub(crate) fn table(&mut self, view: &View, table: usize) -> Option<Block>
        ensures same { Same self.old self.new }
        ensures makes { MakesIn (width_in view.now table) (λ rows. listed view.now table) self.old self.new result }
    {
        self.start(view.width(table));
        self.gather(view.row_count(table), |_, number| {
            Row::seen(view, table, number)
        })
    }
}
