ghost use Rattle.std.specs.Prelude.{◌≡◌, ℕ, ◌+◌, ◌<◌, [], map, length, slice_index_or};
ghost use Rattle.semantics.specs.Books.{columns_of, rows_of};
ghost use Rattle.semantics.specs.Views.{place_of};
ghost use Rattle.semantics.specs.Views as semantics;
ghost use Rattle.cells.specs.Cells.{cell_value};
ghost use Rattle.book.specs.Books.{book_model};
ghost use Rattle.view.specs.Positions.{place_at};
ghost use Rattle.view.specs.Views.{view_cells, view_tables, width_in, CellPut, UnusedAreZero};
ghost use Rattle.drawing.specs.Drawing.{HasNumber, counted};
ghost use Rattle.drawing.specs.Scenes.{DrawnTo, WholeDrawn, Sized};

use crate::mask::Masking;
use book::{Book, Slot};
use cells::Cell;
use policy::Policy;
use view::{Masked, Position, View};

/// Writes the cell at a position, and counts it where it is a pseudonym: `numbers` has how many
/// linked cells of each domain are drawn.
fn put(view: &mut View, numbers: &mut [u16; 16], at: Position, masked: Masked)
    requires { HasNumber numbers.old masked }
    ensures cell { CellPut (place_at at) masked (view_cells view.old) (view_cells view.new) }
    ensures counted { numbers.new ≡ counted numbers.old masked }
{
    view.put(at, masked);
    if let Masked::Pseudonym { domain, index: _ } = masked {
        numbers[usize::from(domain)] += 1;
    }
}

/// What is drawn: a book, as a broker sees it under a policy.
#[derive(Drop)]
struct Scene<'d, P> {
    book: &'d Book<'d>,
    policy: &'d P,
    broker: u16,
}

impl<P: Policy> Scene<'_, P> {
    /// Draws a row, all cells before which are drawn.
    fn draw_row(&self, view: &mut View, numbers: &mut [u16; 16], slot: Slot, values: &[Cell])
        requires values { map cell_value values.now ≡ slice_index_or (rows_of (book_model self.now.book.now) slot.table) slot.row [] }
        requires there { slot.row < length (rows_of (book_model self.now.book.now) slot.table) }
        requires drawn { DrawnTo P.Policy.meaning self.now (place_of slot.table slot.row 0) view.old numbers.old }
        ensures { DrawnTo P.Policy.meaning self.now (place_of slot.table (slot.row + 1) 0) view.new numbers.new }
    {
        for column in 0..values.len() {
            let mark = self.policy.mark(self.broker, slot.table, values, column);
            let at = Position { slot, column };
            let masking = Masking {
                view,
                numbers,
                book: self.book,
                at,
            };
            let masked = masking.mask(mark);
            put(view, numbers, at, masked);
        }
    }

    /// Draws a table, all cells before which are drawn.
    fn draw_table(&self, view: &mut View, numbers: &mut [u16; 16], table: usize)
        requires there { table < 4 }
        requires drawn { DrawnTo P.Policy.meaning self.now (place_of table 0 0) view.old numbers.old }
        ensures { DrawnTo P.Policy.meaning self.now (place_of (table + 1) 0 0) view.new numbers.new }
    {
        for (row, values) in self.book.rows(table).enumerate() {
            self.draw_row(view, numbers, Slot { table, row }, values);
        }
    }

    /// Draws all tables.
    fn draw(&self, view: &mut View)
        ensures { WholeDrawn P.Policy.meaning self.now view.new }
    {
        let mut numbers = [0; 16];
        view.clear();
        for table in 0..4 {
            self.draw_table(view, &mut numbers, table);
        }
    }
}

/// Gives each table of a view the size that it has in a book.
fn measure(view: &mut View, book: &Book<'_>)
    ensures cells { view_cells view.new ≡ view_cells view.old }
    ensures sized { Sized (book_model book.now) 4 view.new }
{
    for table in 0..4 {
        view.resize(table, book.row_count(table), book.columns(table).len());
    }
}

/// Draws what a broker sees of a book under a policy, which is asked once for each cell. Nothing that
/// stood in the view before is left in it.
pub fn draw<P: Policy>(view: &mut View, book: &Book<'_>, policy: &P, broker: u16)
    ensures seen { view_tables view.new ≡ semantics.view (P.Policy.meaning policy.now) broker (book_model book.now) }
    ensures wide { (t : ℕ) → width_in view.new t ≡ length (columns_of (book_model book.now) t) }
    ensures rest { UnusedAreZero view.new }
{
    let scene = Scene {
        book,
        policy,
        broker,
    };
    scene.draw(view);
    measure(view, book);
}
