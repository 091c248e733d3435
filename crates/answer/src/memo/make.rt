ghost use Rattle.std.specs.Prelude.{◌<◌, ◌≤◌, length};
ghost use Rattle.answer.specs.Bounds.{projected, subtracted};
ghost use Rattle.answer.specs.Notes.{Outside, Lies, Notes, NotesTable, NotesSelect, NotesProduct, NotesUnion};

use crate::bound::Bound;
use crate::memo::Memo;
use view::View;
use workspace::Block;

/// Each makes an answer of a record in its region, from those of its parts, and notes it; none where it
/// has too many rows.
impl Memo<'_> {
    pub(crate) fn table(
        &mut self,
        bound: Bound,
        number: usize,
        view: &View,
        table: usize,
    ) -> Option<Block>
        requires low { number < 15 }
        ensures lies { Lies bound number self.old self.new result }
        ensures notes { NotesTable bound number view.now table self.old self.new result }
    {
        self.turn(bound, number);
        // a table's two answers are one, and repeats are looked for once
        let made = match self.noted(bound.other(), number) {
            Some(other) => Some(self.output.again(other)),
            None => self.output.table(view, table),
        };
        self.note(bound, number, made)
    }

    pub(crate) fn select(
        &mut self,
        bound: Bound,
        number: usize,
        from: Block,
        condition: &[u8],
    ) -> Option<Block>
        requires low { number < 15 }
        requires outside { Outside self.old bound number from }
        ensures lies { Lies bound number self.old self.new result }
        ensures notes { NotesSelect bound number from condition.now self.old self.new result }
    {
        self.turn(bound, number);
        let made = self.output.select(bound, from, condition);
        self.note(bound, number, Some(made))
    }

    pub(crate) fn project(
        &mut self,
        bound: Bound,
        number: usize,
        from: Block,
        columns: &[u8],
    ) -> Option<Block>
        requires low { number < 15 }
        requires outside { Outside self.old bound number from }
        requires few { length columns.now ≤ 8 }
        ensures lies { Lies bound number self.old self.new result }
        ensures notes { Notes bound number (length columns.now) (λ rows. projected columns.now (rows from)) self.old self.new result }
    {
        self.turn(bound, number);
        let made = self.output.project(from, columns);
        self.note(bound, number, made)
    }

    pub(crate) fn product(
        &mut self,
        bound: Bound,
        number: usize,
        left: Block,
        right: Block,
    ) -> Option<Block>
        requires low { number < 15 }
        requires outside { Outside self.old bound number left × Outside self.old bound number right }
        ensures lies { Lies bound number self.old self.new result }
        ensures notes { NotesProduct bound number left right self.old self.new result }
    {
        self.turn(bound, number);
        let made = self.output.product(left, right);
        self.note(bound, number, made)
    }

    pub(crate) fn union(
        &mut self,
        bound: Bound,
        number: usize,
        left: Block,
        right: Block,
    ) -> Option<Block>
        requires low { number < 15 }
        requires outside { Outside self.old bound number left × Outside self.old bound number right }
        ensures lies { Lies bound number self.old self.new result }
        ensures notes { NotesUnion bound number left right self.old self.new result }
    {
        self.turn(bound, number);
        let made = self.output.union(left, right);
        self.note(bound, number, made)
    }

    pub(crate) fn difference(
        &mut self,
        bound: Bound,
        number: usize,
        left: Block,
        right: Block,
    ) -> Option<Block>
        requires low { number < 15 }
        requires outside { Outside self.old bound number left × Outside self.old bound number right }
        ensures lies { Lies bound number self.old self.new result }
        ensures notes { Notes bound number left.width (λ rows. subtracted bound (rows left) (rows right)) self.old self.new result }
    {
        self.turn(bound, number);
        let made = self.output.difference(bound, left, right);
        self.note(bound, number, Some(made))
    }
}
