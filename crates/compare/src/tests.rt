use crate::comparing::compare;
use crate::condition::truth;
use crate::kleene::Truth;
use cells::{Cell, Prefix};
use semantics::{Operator, Refusal};
use std::test::Fail;
use view::Masked;

fn prefix(digits: &[u8]) -> Result<Masked, Refusal> {
    Ok(Masked::Value(Cell::Prefix(Prefix::from_bytes(digits)?)))
}

fn variable(column: u8) -> Masked {
    Masked::Variable {
        table: 0,
        row: 0,
        column,
    }
}

fn pseudonym(domain: u8, index: u16) -> Masked {
    Masked::Pseudonym { domain, index }
}

#[test]
fn comparisons(rt: HostRuntime) -> Result<(), Fail> {
    let none = prefix(b"")?;
    let short = prefix(b"47")?;
    let long = prefix(b"4711")?;
    let (this, that, other) = (pseudonym(1, 0), pseudonym(1, 4), pseudonym(2, 0));
    let cases = [
        (Operator::Covers, none, long, Truth::Holds),
        (Operator::Covers, long, short, Truth::Fails),
        (Operator::Covers, long, long, Truth::Holds),
        (Operator::Shorter, short, long, Truth::Holds),
        (Operator::Equal, variable(1), variable(1), Truth::Holds),
        (Operator::Unequal, variable(1), variable(2), Truth::Unknown),
        (Operator::Unequal, this, that, Truth::Holds),
        (Operator::Less, this, that, Truth::Unknown),
        (Operator::Equal, this, other, Truth::Unknown),
    ];
    for (operator, left, right, truth) in cases {
        assert_eq!(rt; compare(operator, &left, &right), truth);
    }
    Ok(())
}

#[test]
fn conditions(rt: HostRuntime) -> Result<(), Fail> {
    let row = [
        prefix(b"47")?,
        variable(1),
        Masked::Value(Cell::Number(2500)),
    ];
    // Column 0 covers 4711, and column 2 is less than 3000: true.
    let both = b"\x06\x00\x12\x00\x05\x004711\
        \x06\x00\x11\x00\x03\x02\xB8\x0B\x00\x00\
        \x00\x00\x13\x00";
    assert_eq!(rt; truth(both, &row), Truth::Holds);
    // Column 1 is 5, which is unknown, and column 2 is less than 2000, which is false; or it is not
    // so that column 1 is unequal to itself: true.
    let either = b"\x06\x00\x11\x00\x01\x01\x05\x00\x00\x00\
        \x06\x00\x11\x00\x03\x02\xD0\x07\x00\x00\
        \x00\x00\x13\x00\
        \x03\x00\x10\x00\x02\x01\x01\
        \x00\x00\x15\x00\
        \x00\x00\x14\x00";
    assert_eq!(rt; truth(either, &row), Truth::Holds);
    // The first comparison alone is unknown; the first two joined by "and" are false.
    assert_eq!(rt; truth(&either[0..10], &row), Truth::Unknown);
    assert_eq!(rt; truth(&either[0..24], &row), Truth::Fails);
    Ok(())
}
