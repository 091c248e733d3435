use crate::book::Book;
use crate::draft::Draft;
use cells::{Cell, Prefix};
use semantics::Refusal;
use std::array;
use std::test::Fail;

/// A cell of memory that was in use before.
const USED: Cell = Cell::Number(9);

#[test]
fn the_first_fault_of_a_declaration(rt: HostRuntime) -> Result<(), Fail> {
    let mut draft = Draft::new();
    for _ in 0..8 {
        draft.declare(0, 1, 3)?;
    }
    draft.declare(3, 2, 15)?;
    let faults = [
        (4, 3, 16, Refusal::NoTable),
        (0, 3, 16, Refusal::TooManyColumns),
        (1, 0, 16, Refusal::UnknownKind),
        (1, 3, 16, Refusal::UnknownKind),
        (1, 1, 16, Refusal::WrongDomain),
        (1, 2, 3, Refusal::WrongDomain),
        (1, 1, 15, Refusal::WrongDomain),
    ];
    for (table, kind, domain, fault) in faults {
        assert_eq!(rt; draft.declare(table, kind, domain), Err(fault));
    }
    Ok(())
}

#[test]
fn eight_columns_a_table_and_one_kind_a_domain(rt: HostRuntime) -> Result<(), Fail> {
    let mut draft = Draft::new();
    for _ in 0..7 {
        draft.declare(2, 1, 0)?;
    }
    let steps = [
        // The eighth column and the ninth, and one of another table.
        (2, 2, 0, Ok(())),
        (2, 1, 0, Err(Refusal::TooManyColumns)),
        (1, 1, 0, Ok(())),
        // No domain, 0, takes both kinds.
        (1, 2, 0, Ok(())),
        // A domain has one kind in all tables.
        (0, 2, 15, Ok(())),
        (3, 1, 15, Err(Refusal::WrongDomain)),
        (3, 2, 15, Ok(())),
        (3, 1, 14, Ok(())),
        (0, 2, 16, Err(Refusal::WrongDomain)),
    ];
    for (table, kind, domain, answer) in steps {
        assert_eq!(rt; draft.declare(table, kind, domain), answer);
    }
    Ok(())
}

#[test]
fn a_row_for_each_32_cells_up_to_256(rt: HostRuntime) -> Result<(), Fail> {
    let mut memory = [USED; 9000];
    let limits = [
        (0, 0),
        (31, 0),
        (32, 1),
        (96, 3),
        (8191, 255),
        (8192, 256),
        (9000, 256),
    ];
    for (size, limit) in limits {
        let mut draft = Draft::new();
        draft.declare(1, 1, 0)?;
        let Some(lent) = memory.get_mut(..size) else {
            return Err(Fail::new("there are fewer cells"));
        };
        let mut book = draft.open(lent);
        assert_eq!(rt; book.row_limit(), limit);
        for _ in 0..limit {
            book.store(1, &[USED])?;
        }
        assert_eq!(rt; book.store(1, &[USED]), Err(Refusal::TableFull));
    }
    Ok(())
}

#[test]
fn cells_that_no_row_uses_are_zero(rt: HostRuntime) -> Result<(), Fail> {
    let mut memory = [USED; 70];
    let mut draft = Draft::new();
    draft.declare(1, 1, 0)?;
    let mut book = draft.open(&mut memory);
    book.store(1, &[Cell::Number(5)])?;
    book.store(1, &[Cell::Number(6)])?;
    book.strike(1, 0)?;
    let mut left = [Cell::ZERO; 70];
    left[8] = Cell::Number(6);
    assert!(rt; memory == left);
    Ok(())
}

/// A number and a prefix in a table.
fn columns(table: usize) -> Result<Draft, Refusal> {
    let mut draft = Draft::new();
    draft.declare(table, 1, 0)?;
    draft.declare(table, 2, 1)?;
    Ok(draft)
}

fn digits() -> Result<Cell, Refusal> {
    Ok(Cell::Prefix(Prefix::from_bytes(b"47")?))
}

/// Stores the rows 1 to `last` in a table.
fn store_rows(book: &mut Book<'_>, table: usize, last: u32) -> Result<(), Refusal> {
    for n in 1..=last {
        book.store(table, &[Cell::Number(n), digits()?])?;
    }
    Ok(())
}

/// The numbers of the first four rows of table 0, 0 where there is no row.
fn numbers(book: &Book<'_>) -> [u32; 4] {
    array::from_fn(|row| match book.row(0, row) {
        Some([Cell::Number(n), ..]) => *n,
        _ => 0,
    })
}

#[test]
fn the_first_fault_of_a_row(rt: HostRuntime) -> Result<(), Fail> {
    let mut memory = [USED; 128];
    let mut book = columns(0)?.open(&mut memory);
    store_rows(&mut book, 0, 4)?;
    let digits = digits()?;
    let rows = [
        (4, [].as_slice(), Refusal::NoTable),
        (1, &[], Refusal::WrongWidth),
        (0, &[USED, USED, USED], Refusal::WrongWidth),
        (0, &[USED, USED], Refusal::WrongKind(1)),
        (0, &[digits, USED], Refusal::WrongKind(0)),
        (0, &[USED, digits], Refusal::TableFull),
    ];
    for (table, row, fault) in rows {
        assert_eq!(rt; book.store(table, row), Err(fault));
    }
    assert_eq!(rt; book.strike(4, 9), Err(Refusal::NoTable));
    let cells = [
        (4, 9, 9, Refusal::NoTable),
        (0, 4, 9, Refusal::NoRow),
        (0, 3, 2, Refusal::NoColumn),
        (0, 3, 0, Refusal::WrongKind(0)),
    ];
    for (table, row, column, fault) in cells {
        assert_eq!(rt; book.amend(table, row, column, digits), Err(fault));
    }
    assert_eq!(rt; numbers(&book), [1, 2, 3, 4]);
    // What is read where nothing is.
    let widths = [0, 1, 4].map(|table| book.columns(table).len());
    assert_eq!(rt; widths, [2, 0, 0]);
    assert_eq!(rt; book.row_count(4), 0);
    assert!(rt; book.row(0, 4).is_none());
    assert!(rt; book.row(4, 0).is_none());
    Ok(())
}

#[test]
fn what_strikes_stores_and_amendments_leave(rt: HostRuntime) -> Result<(), Fail> {
    let mut memory = [USED; 128];
    let mut book = columns(0)?.open(&mut memory);
    store_rows(&mut book, 0, 4)?;
    let five = [Cell::Number(5), Cell::Prefix(Prefix::from_bytes(b"")?)];
    assert_eq!(rt; book.store(0, &five), Err(Refusal::TableFull));
    book.strike(0, 0)?;
    assert_eq!(rt; book.amend(0, 3, 0, Cell::Number(7)), Err(Refusal::NoRow));
    book.amend(0, 2, 0, Cell::Number(7))?;
    book.store(0, &five)?;
    assert_eq!(rt; numbers(&book), [2, 3, 7, 5]);
    let mut book = columns(0)?.open(&mut memory);
    store_rows(&mut book, 0, 4)?;
    // A middle row, the last, the first and the only one.
    let strikes = [
        (1, [1, 3, 4, 0]),
        (2, [1, 3, 0, 0]),
        (0, [3, 0, 0, 0]),
        (0, [0; 4]),
    ];
    for (row, left) in strikes {
        book.strike(0, row)?;
        assert_eq!(rt; numbers(&book), left);
    }
    assert_eq!(rt; book.row_count(0), 0);
    assert_eq!(rt; book.strike(0, 0), Err(Refusal::NoRow));
    Ok(())
}

#[test]
fn rows_move_up(rt: HostRuntime) -> Result<(), Fail> {
    let mut memory = [USED; 96];
    let mut book = columns(1)?.open(&mut memory);
    store_rows(&mut book, 1, 3)?;
    let digits = digits()?;
    book.strike(1, 1)?;
    book.amend(1, 1, 0, Cell::Number(7))?;
    assert!(rt; book.row(1, 0) == Some(&[Cell::Number(1), digits]));
    assert!(rt; book.row(1, 1) == Some(&[Cell::Number(7), digits]));
    assert!(rt; book.row(1, 2).is_none());
    book.strike(1, 0)?;
    book.strike(1, 0)?;
    assert_eq!(rt; book.strike(1, 0), Err(Refusal::NoRow));
    assert!(rt; memory == [Cell::ZERO; 96]);
    Ok(())
}
