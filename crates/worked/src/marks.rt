//! Who sees what: broker 65,535 sees all, brokers 7, 8 and 9 see parts, and no other sees anything.

use policy::{Both, Consents, Either, Filters};
use semantics::{Consent, Refusal, Rule, Sign, Test};
use std::array;

/// Rules by which a broker sees a table in so far as customers consent.
pub(crate) type Consented = Both<Filters, Consents>;

/// Rules that need no consent, or one of two sets of rules with consents.
pub(crate) type Brokers = Either<Filters, Either<Consented, Consented>>;

/// Allows a broker these columns of a table, always.
fn allow(
    filters: &mut Filters,
    broker: u16,
    table: usize,
    columns: &[usize],
) -> Result<(), Refusal> {
    for column in columns {
        filters.add(Rule {
            broker,
            table,
            column: *column,
            sign: Sign::Allow,
            test: Test::Always,
        })?;
    }
    Ok(())
}

/// Adds a rule for broker 7 and column 0 of a table, where column 1 holds a number.
fn where_one(filters: &mut Filters, table: usize, sign: Sign, number: u32) -> Result<(), Refusal> {
    filters.add(Rule {
        broker: 7,
        table,
        column: 0,
        sign,
        test: Test::Holds { column: 1, number },
    })
}

/// Broker 65,535 sees every column.
fn all() -> Result<Filters, Refusal> {
    let mut filters = Filters::new();
    allow(&mut filters, 65535, 0, &[0, 1, 2])?;
    allow(&mut filters, 65535, 1, &[0, 1, 2])?;
    allow(&mut filters, 65535, 2, &[0, 1, 2])?;
    allow(&mut filters, 65535, 3, &[0, 1, 2, 3, 4, 5])?;
    Ok(filters)
}

/// Broker 7 sees table 0 but for the prefixes of carrier 2, the prefixes of table 1 that stand by
/// the number 1, column 0 of table 2 but where column 1 holds 2, and all of table 3.
fn first_rules() -> Result<Filters, Refusal> {
    let mut filters = Filters::new();
    allow(&mut filters, 7, 0, &[0, 1, 2])?;
    where_one(&mut filters, 0, Sign::Prohibit, 2)?;
    where_one(&mut filters, 1, Sign::Allow, 1)?;
    allow(&mut filters, 7, 1, &[1, 2])?;
    allow(&mut filters, 7, 2, &[0, 1])?;
    where_one(&mut filters, 2, Sign::Prohibit, 2)?;
    allow(&mut filters, 7, 3, &[0, 1, 2, 3, 4, 5])?;
    Ok(filters)
}

/// Brokers 8 and 9 see columns of tables 0, 1 and 3, and broker 7 one column of table 3.
fn second_rules() -> Result<Filters, Refusal> {
    let mut filters = Filters::new();
    allow(&mut filters, 7, 3, &[3])?;
    allow(&mut filters, 8, 1, &[2])?;
    allow(&mut filters, 8, 3, &[0, 1, 2, 3, 4, 5])?;
    allow(&mut filters, 9, 0, &[0, 2])?;
    allow(&mut filters, 9, 1, &[0, 1, 2])?;
    allow(&mut filters, 9, 3, &[1, 2, 3])?;
    Ok(filters)
}

/// The set of these columns.
fn set(columns: &[usize]) -> [bool; 8] {
    array::from_fn(|column| columns.contains(&column))
}

/// A customer's consent.
fn consent(key: u32, shown: &[usize], linked: &[usize]) -> Consent {
    Consent {
        key,
        shown: set(shown),
        linked: set(linked),
    }
}

/// The register with these entries.
fn register(entries: &[Consent]) -> Result<Consents, Refusal> {
    let mut consents = Consents::new();
    for entry in entries {
        consents.set(*entry)?;
    }
    Ok(consents)
}

/// Customer 14 consents to nothing, and customer 13 has a linked column that is in no domain.
fn first_consents() -> Result<Consents, Refusal> {
    register(&[
        consent(10, &[0], &[1, 2, 3, 4, 5]),
        consent(11, &[0, 1], &[2, 3, 5]),
        consent(12, &[0], &[1, 3, 4, 5]),
        consent(13, &[], &[0, 1, 2]),
    ])
}

/// Customer 13 consents to nothing.
fn second_consents() -> Result<Consents, Refusal> {
    register(&[
        consent(10, &[0], &[1, 2, 3, 4, 5]),
        consent(11, &[], &[0, 1, 2, 3, 4, 5]),
        consent(12, &[1, 3], &[2, 3, 4]),
        consent(14, &[0], &[1, 2, 3, 4, 5]),
    ])
}

/// The policy of both books.
pub(crate) fn policy() -> Result<Brokers, Refusal> {
    let first = Both {
        first: first_rules()?,
        second: first_consents()?,
    };
    let second = Both {
        first: second_rules()?,
        second: second_consents()?,
    };
    let either = Either { first, second };
    Ok(Either {
        first: all()?,
        second: either,
    })
}
