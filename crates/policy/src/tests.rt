use crate::combine::{Both, Either};
use crate::consents::Consents;
use crate::filters::Filters;
use crate::policy::Policy;
use cells::{Cell, Prefix};
use semantics::{Consent, Mark, Refusal, Rule, Sign, Test};
use std::array;
use std::test::Fail;

/// Broker 7 may see column 0 of table 3.
const ALLOW: Rule = Rule {
    broker: 7,
    table: 3,
    column: 0,
    sign: Sign::Allow,
    test: Test::Always,
};

/// Holds where this column is the number 2.
fn two_in(column: usize) -> Test {
    Test::Holds { column, number: 2 }
}

/// Column 0 is shown, 1 linked, 2 both, 7 shown, and no other.
fn consent(key: u32) -> Consent {
    Consent {
        key,
        shown: [true, false, true, false, false, false, false, true],
        linked: [false, true, true, false, false, false, false, false],
    }
}

#[test]
fn rules_are_questioned(rt: HostRuntime) -> Result<(), Fail> {
    let mut filters = Filters::new();
    assert_eq!(rt; filters.rules().len(), 0);
    let test = two_in(8);
    let no_column = Rule { column: 8, ..ALLOW };
    let no_table = Rule {
        table: 4,
        test,
        ..no_column
    };
    let faults = [
        (no_table, Refusal::NoTable),
        (no_column, Refusal::NoColumn),
        (Rule { test, ..ALLOW }, Refusal::NoColumn),
    ];
    for (rule, fault) in faults {
        assert_eq!(rt; filters.add(rule), Err(fault));
    }
    assert_eq!(rt; filters.rules().len(), 0);
    for column in 0..8 {
        let test = two_in(column);
        filters.add(Rule {
            column,
            test,
            ..ALLOW
        })?;
        filters.add(ALLOW)?;
    }
    assert_eq!(rt; filters.rules().len(), 16);
    assert_eq!(rt; filters.add(ALLOW), Err(Refusal::TooManyRules));
    Ok(())
}

#[test]
fn a_prohibition_beats_an_allowance(rt: HostRuntime) -> Result<(), Fail> {
    let mut filters = Filters::new();
    let sign = Sign::Prohibit;
    let test = two_in(1);
    filters.add(Rule {
        sign,
        test,
        ..ALLOW
    })?;
    filters.add(ALLOW)?;
    let digits = Cell::Prefix(Prefix::from_bytes(b"2")?);
    let seconds = [Cell::Number(1), Cell::Number(2), digits];
    for first in [Cell::Number(2), digits] {
        let marks = seconds.map(|second| filters.mark(7, 3, &[first, second], 0));
        assert_eq!(rt; marks, [Mark::Shown, Mark::Hidden, Mark::Shown]);
    }
    assert_eq!(rt; filters.mark(7, 3, &[], 0), Mark::Shown);
    let row = [digits, Cell::Number(1)];
    let others = [
        filters.mark(8, 3, &row, 0),
        filters.mark(7, 2, &row, 0),
        filters.mark(7, 3, &row, 1),
    ];
    assert_eq!(rt; others, [Mark::Hidden; 3]);
    Ok(())
}

#[test]
fn tests_want_a_number(rt: HostRuntime) -> Result<(), Fail> {
    let mut filters = Filters::new();
    let test = Test::Holds {
        column: 1,
        number: 47,
    };
    filters.add(Rule {
        table: 0,
        test,
        ..ALLOW
    })?;
    let (one, wanted) = (Cell::Number(1), Cell::Number(47));
    let digits = Cell::Prefix(Prefix::from_bytes(b"47")?);
    let rows: [(&[Cell], Mark); 4] = [
        (&[one, wanted], Mark::Shown),
        (&[wanted, one], Mark::Hidden),
        (&[wanted], Mark::Hidden),
        (&[one, digits], Mark::Hidden),
    ];
    for (row, mark) in rows {
        assert_eq!(rt; filters.mark(7, 0, row, 0), mark);
    }
    Ok(())
}

#[test]
fn a_register_of_64_keys(rt: HostRuntime) -> Result<(), Fail> {
    let mut consents = Consents::new();
    for key in 0..64 {
        consents.set(consent(key))?;
    }
    assert_eq!(rt; consents.set(consent(64)), Err(Refusal::RegisterFull));
    consents.set(Consent {
        key: 5,
        shown: [false; 8],
        linked: [true; 8],
    })?;
    assert_eq!(rt; consents.entries().len(), 64);
    let keys = [Cell::Number(0), Cell::Number(5), Cell::Number(63)];
    let marks = keys.map(|key| consents.mark(7, 3, &[key], 0));
    assert_eq!(rt; marks, [Mark::Shown, Mark::Linked, Mark::Shown]);
    let digits = Cell::Prefix(Prefix::from_bytes(b"5")?);
    let none = [
        consents.mark(7, 3, &[Cell::Number(64)], 0),
        consents.mark(7, 3, &[digits], 0),
        consents.mark(7, 3, &[], 0),
    ];
    assert_eq!(rt; none, [Mark::Hidden; 3]);
    let row = [Cell::Number(9), Cell::Number(4)];
    let marks: [Mark; 9] = array::from_fn(|column| consents.mark(7, 3, &row, column));
    let (shown, linked, none) = (Mark::Shown, Mark::Linked, Mark::Hidden);
    assert_eq!(rt;
        marks,
        [shown, linked, shown, none, none, none, none, shown, none]
    );
    let others = [consents.mark(7, 2, &[], 8), consents.mark(7, 4, &row, 3)];
    assert_eq!(rt; others, [shown; 2]);
    Ok(())
}

#[test]
fn both_of_either(rt: HostRuntime) -> Result<(), Fail> {
    let mut narrow = Filters::new();
    narrow.add(Rule { column: 1, ..ALLOW })?;
    let mut wide = Filters::new();
    wide.add(Rule { column: 1, ..ALLOW })?;
    wide.add(ALLOW)?;
    let mut consents = Consents::new();
    consents.set(consent(9))?;
    let stack = Both {
        first: Either {
            first: narrow,
            second: consents,
        },
        second: wide,
    };
    let known = [Cell::Number(9), Cell::Number(4), Cell::Number(4)];
    let marks: [Mark; 3] = array::from_fn(|column| stack.mark(7, 3, &known, column));
    assert_eq!(rt; marks, [Mark::Shown, Mark::Shown, Mark::Hidden]);
    let unknown = [Cell::Number(8), Cell::Number(4), Cell::Number(4)];
    let marks: [Mark; 2] = array::from_fn(|column| stack.mark(7, 3, &unknown, column));
    assert_eq!(rt; marks, [Mark::Hidden, Mark::Shown]);
    let marks: [Mark; 2] = array::from_fn(|column| stack.mark(7, 3, &[], column));
    assert_eq!(rt; marks, [Mark::Hidden, Mark::Shown]);
    assert_eq!(rt; stack.mark(8, 3, &known, 0), Mark::Hidden);
    assert_eq!(rt; stack.first.mark(8, 3, &known, 1), Mark::Linked);
    assert_eq!(rt;
        stack.first.second.mark(7, 3, &[Cell::Number(4)], 0),
        Mark::Hidden
    );
    Ok(())
}
