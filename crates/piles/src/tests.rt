use crate::{Parts, Pile, Stacked};
use cells::Cell;
use policy::Policy;
use semantics::{Consent, Mark, Refusal, Rule, Sign, Test};
use std::alloc::{AllocError, Global};
use std::test::Fail;

/// Filters 1 show column 0 of table 3 to broker 7; register 2 links columns 0 and 1 of customer 501.
fn parts() -> Result<Parts, Refusal> {
    let mut parts = Parts::new();
    parts.filters[1].add(Rule {
        broker: 7,
        table: 3,
        column: 0,
        sign: Sign::Allow,
        test: Test::Always,
    })?;
    let none = [false; 8];
    let mut linked = none;
    linked[0] = true;
    linked[1] = true;
    parts.registers[2].set(Consent {
        key: 501,
        shown: none,
        linked,
    })?;
    Ok(parts)
}

/// The filters and the register, joined either way.
fn joined(heap: Global) -> Result<(Pile, Pile), AllocError> {
    let both = Pile::Both(
        Box::new(heap, Pile::Filters(1))?,
        Box::new(heap, Pile::Register(2))?,
    );
    let either = Pile::Either(
        Box::new(heap, Pile::Filters(1))?,
        Box::new(heap, Pile::Register(2))?,
    );
    Ok((both, either))
}

/// The marks of the first two columns of customer 501 for broker 7.
fn marks(parts: &Parts, pile: &Pile) -> (Mark, Mark) {
    let row = [Cell::Number(501), Cell::Number(3100)];
    let policy = Stacked { parts, pile };
    (policy.mark(7, 3, &row, 0), policy.mark(7, 3, &row, 1))
}

#[test]
fn the_narrower_and_the_wider(rt: HostRuntime) -> Result<(), Fail> {
    let parts = parts()?;
    let (both, either) = joined(rt.alloc())?;
    assert!(rt; marks(&parts, &both) == (Mark::Linked, Mark::Hidden));
    assert!(rt; marks(&parts, &either) == (Mark::Shown, Mark::Linked));
    assert!(rt; marks(&parts, &Pile::Filters(0)) == (Mark::Hidden, Mark::Hidden));
    assert!(rt; marks(&parts, &Pile::Register(9)) == (Mark::Hidden, Mark::Hidden));
    Ok(())
}
