ghost use Rattle.std.specs.Prelude.{◌≡◌, ◌≤◌, length};
ghost use Rattle.semantics.specs.declared.mark.Mark.TheVariants.{Linked};
ghost use Rattle.semantics.specs.Views.{domain_of};
ghost use Rattle.book.specs.Books.{book_model};
ghost use Rattle.view.specs.declared.masked.Masked.TheVariants.{Variable};
ghost use Rattle.view.specs.Positions.{place_at};

use crate::find::{Search, cell_at, domain_of};
use book::Book;
use semantics::Mark;
use view::{Masked, Position, View};

/// The variable of a position.
fn variable(at: Position) -> Masked
    ensures { result ≡ Variable at.slot.table at.slot.row at.column }
{
    // `as` keeps the numbers: a table is below 4, a row below 256 and a column below 8.
    let (table, row, column) = (at.slot.table as u8, at.slot.row as u8, at.column as u8);
    Masked::Variable { table, row, column }
}

/// The masking of a cell of a book: the view is drawn up to its position, and each domain has its
/// next number.
#[derive(Clone, Copy)]
pub(crate) struct Masking<'d> {
    pub(crate) view: &'d View,
    pub(crate) numbers: &'d [u16; 16],
    pub(crate) book: &'d Book<'d>,
    pub(crate) at: Position,
    ghost sixteen: { length numbers.now ≡ 16 },
}

impl Masking<'_> {
    ghost use Rattle.drawing.specs.Masking.{MaskedBy};

    /// The pseudonym of a linked cell of a domain: it has the index of a cell that is drawn for the
    /// same value, or else the next number of the domain.
    fn pseudonym(&self, domain: u8) -> Masked
        requires { (domain ≡ domain_of (book_model self.now.book.now) (place_at self.now.at)) × (1 ≤ domain) }
        ensures { MaskedBy self.now Linked result }
    {
        let next = self.numbers[usize::from(domain)];
        let search = Search {
            view: self.view,
            book: self.book,
            at: self.at,
            domain,
            value: cell_at(self.book, self.at),
        };
        let index = search.index().unwrap_or(next);
        Masked::Pseudonym { domain, index }
    }

    /// How the cell at the position is masked under its mark.
    pub(crate) fn mask(&self, mark: Mark) -> Masked
        ensures { MaskedBy self.now mark result }
    {
        let domain = domain_of(self.book, self.at.slot.table, self.at.column);
        match mark {
            Mark::Shown => Masked::Value(cell_at(self.book, self.at)),
            Mark::Linked if domain != 0 => self.pseudonym(domain),
            _ => variable(self.at),
        }
    }
}
