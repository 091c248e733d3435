use crate::ask;
use book::{Book, Draft};
use cells::Cell;
use policy::Filters;
use query::{Operation, check};
use semantics::{Refusal, Rule, Sign, Test};
use std::test::Fail;
use view::Masked;

/// The query for table 0.
const TABLE: [u8; 5] = [1, 0, 1, 0, 0];

/// Broker 7 may see column 0 of table 0.
fn policy() -> Result<Filters, Refusal> {
    let mut filters = Filters::new();
    filters.add(Rule {
        broker: 7,
        table: 0,
        column: 0,
        sign: Sign::Allow,
        test: Test::Always,
    })?;
    Ok(filters)
}

/// Table 0 has one number.
fn book(memory: &mut [Cell; 32]) -> Book<'_> {
    let mut draft = Draft::new();
    let _ = draft.declare(0, 1, 0);
    let mut book = draft.open(memory);
    let _ = book.store(0, &[Cell::Number(3100)]);
    book
}

/// Whether a workspace has been cleared.
fn is_clear(work: &[Masked]) -> bool {
    work.iter().all(|cell| *cell == Masked::ZERO)
}

#[test]
fn a_shown_cell_and_a_hidden_one(rt: HostRuntime) -> Result<(), Fail> {
    let mut memory = [Cell::ZERO; 32];
    let book = book(&mut memory);
    let policy = policy()?;
    let mut work = [Masked::ZERO; 240];
    let mut reply = [9; 18];
    let size = ask(&book, &policy, 7, &TABLE, &mut work, &mut reply)?;
    assert_eq!(rt; size, 17);
    let shown = [4, 0, 32, 0, 1, 0, 0, 0, 5, 0, 33, 0, 1, 28, 12, 0, 0, 9];
    assert!(rt; reply == shown);
    let size = ask(&book, &policy, 8, &TABLE, &mut work, &mut reply)?;
    assert_eq!(rt; size, 16);
    let hidden = [4, 0, 32, 0, 1, 0, 0, 0, 4, 0, 33, 0, 3, 0, 0, 0];
    assert!(rt; &reply[..16] == hidden.as_slice());
    assert!(rt; is_clear(&work));
    Ok(())
}

#[test]
fn a_refused_ask_leaves_no_trace(rt: HostRuntime) -> Result<(), Fail> {
    let mut memory = [Cell::ZERO; 32];
    let book = book(&mut memory);
    let policy = policy()?;
    let litter = Masked::Value(Cell::Number(5));
    let mut work = [litter; 240];
    let mut reply = [9; 16];
    let broken = ask(&book, &policy, 7, &TABLE[..4], &mut work, &mut reply);
    assert!(rt; broken == Err(Refusal::BrokenRecord(0)));
    assert!(rt; is_clear(&work));
    work.fill(litter);
    let unknown = ask(&book, &policy, 7, &[0, 0, 1, 1], &mut work, &mut reply);
    assert!(rt; unknown == Err(Refusal::UnknownRecord(0)));
    assert!(rt; is_clear(&work));
    work.fill(litter);
    let short = ask(&book, &policy, 7, &TABLE, &mut work, &mut reply);
    assert!(rt; short == Err(Refusal::ReplyTooLong(1)));
    assert!(rt; is_clear(&work));
    work.fill(litter);
    let full = ask(&book, &policy, 7, &TABLE, &mut work[..239], &mut reply);
    assert!(rt; full == Err(Refusal::TooManyRows(0)));
    assert!(rt; is_clear(&work[..239]));
    assert!(rt; reply == [9; 16]);
    Ok(())
}

#[test]
fn the_plan_of_the_longest_prefix(rt: HostRuntime) -> Result<(), Fail> {
    let mut draft = Draft::new();
    draft.declare(0, 2, 1)?;
    draft.declare(0, 1, 0)?;
    draft.declare(0, 1, 0)?;
    let mut memory = [Cell::ZERO; 96];
    let book = draft.open(&mut memory);
    let query = [
        1, 0, 1, 0, 0, 11, 0, 2, 0, 7, 0, 18, 0, 5, 0, 52, 55, 49, 49, 48, 1, 0, 1, 0, 0, 11, 0, 2,
        0, 7, 0, 18, 0, 5, 0, 52, 55, 49, 49, 48, 1, 0, 1, 0, 0, 11, 0, 2, 0, 7, 0, 18, 0, 5, 0,
        52, 55, 49, 49, 48, 0, 0, 4, 0, 7, 0, 2, 0, 3, 0, 16, 0, 6, 0, 3, 3, 0, 3, 0, 0, 1, 2, 0,
        0, 6, 0,
    ];
    let plan = check(&query, &book)?;
    assert_eq!(rt; plan.count(), 10);
    let difference = plan.operation(&query, 9);
    assert!(rt; difference == Some(Operation::Difference(1, 8)));
    let project = plan.operation(&query, 8);
    assert!(rt; project == Some(Operation::Project(7, &[0, 1, 2])));
    let product = plan.operation(&query, 6);
    assert!(rt; product == Some(Operation::Product(3, 5)));
    // The records from 2 to 6, a product of two selects, as a query of its own.
    let sides = check(&query[20..64], &book)?;
    assert_eq!(rt; sides.kinds().map(|kinds| kinds.listed().len()), Some(6));
    Ok(())
}
