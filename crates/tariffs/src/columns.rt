ghost use Rattle.std.specs.Prelude.{◌≡◌};
ghost use Rattle.semantics.specs.Outcomes.{AnswersAs};
ghost use Rattle.tariffs.specs.Columns.{declared_all, declared_up_to, number_column, prefix_column, tariff_tables, reader_tables};

use book::Draft;
use semantics::{Column, Kind, Refusal};

/// A column of numbers in a domain, 0 for none.
pub fn number(domain: u8) -> Column
    ensures { result ≡ number_column domain }
{
    Column {
        kind: Kind::Number,
        domain,
    }
}

/// A column of prefixes in a domain, 0 for none.
pub fn prefix(domain: u8) -> Column
    ensures { result ≡ prefix_column domain }
{
    Column {
        kind: Kind::Prefix,
        domain,
    }
}

/// Declares columns at the end of a table, one after another up to the first that is refused: those
/// before it stay.
pub fn declare(draft: &mut Draft, table: usize, columns: &[Column]) -> Result<(), Refusal>
    ensures answers { AnswersAs (λ _. draft.new) result (declared_all draft.old table columns.now) }
    ensures columns { draft.new ≡ declared_up_to draft.old table columns.now }
{
    for column in columns {
        draft.declare(table, u8::from(column.kind), column.domain)?;
    }
    Ok(())
}

/// Tariffs in table 0: a prefix in domain 1, the carrier's number and the price.
pub(crate) fn tariff_columns() -> Draft
    ensures { result ≡ tariff_tables }
{
    let mut draft = Draft::new();
    declare(&mut draft, 0, &[prefix(1), number(0), number(0)]).unwrap();
    draft
}

/// The columns of most readers of queries: tariffs in table 0, and two numbers in table 1.
pub fn reader_columns() -> Draft
    ensures { result ≡ reader_tables }
{
    let mut draft = tariff_columns();
    declare(&mut draft, 1, &[number(0), number(0)]).unwrap();
    draft
}
