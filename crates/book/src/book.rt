ghost use Rattle.std.specs.Prelude.{◌≡◌, true, length};
ghost use Rattle.semantics.specs.Books.{lawful};
ghost use Rattle.semantics.specs.Drafts.{agreed};
ghost use Rattle.book.specs.Columns.{columns_in};
ghost use Rattle.book.specs.Layout.{Clean, model_in};

mod amend;
mod read;
mod store;
mod strike;

use crate::columns::Columns;
use cells::Cell;

/// The rows of four tables in lent memory: how many each table has, and the cells.
#[derive(Drop)]
pub(crate) struct Rows<'a> {
    pub(crate) counts: [usize; 4],
    pub(crate) cells: &'a mut [Cell],
}

/// A book of four tables in lent memory. Its rows fit their columns, no table has more rows than
/// it may, the columns of a domain are of one kind, and a cell that no row uses holds the number 0.
#[derive(Drop)]
pub struct Book<'a> {
    pub(crate) tables: [Columns; 4],
    pub(crate) rows: Rows<'a>,
    ghost four: { length tables ≡ 4 },
    ghost counted: { length rows.counts ≡ 4 },
    ghost domains: { agreed (columns_in tables) ≡ true },
    ghost fitting: { lawful (model_in (columns_in tables) rows.counts rows.cells.now) ≡ true },
    ghost clean: { Clean (columns_in tables) rows.counts rows.cells.now },
}
