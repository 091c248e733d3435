use crate::draw;
use book::{Book, Draft};
use cells::Cell;
use policy::Policy;
use semantics::{Mark, Refusal};
use std::test::Fail;
use view::{Masked, View};

/// A policy that gives every cell one mark.
struct One {
    given: Mark,
}

impl Policy for One {
    ghost meaning = { λ s _ _ _ _. s.given };

    fn mark(&self, broker: u16, table: usize, row: &[Cell], column: usize) -> Mark {
        self.given
    }
}

const HIDDEN: One = One {
    given: Mark::Hidden,
};

const LINKED: One = One {
    given: Mark::Linked,
};

const SHOWN: One = One { given: Mark::Shown };

/// Three columns in table 0, of the domains 1, 2 and none, and three in table 2, of 2, 3 and 1.
// The kinds are numbers here, as the rules have them: 1 of a number.
fn draft() -> Result<Draft, Refusal> {
    let mut draft = Draft::new();
    for (table, domain) in [(0, 1), (0, 2), (0, 0), (2, 2), (2, 3), (2, 1)] {
        draft.declare(table, 1, domain)?;
    }
    Ok(draft)
}

fn fill(book: &mut Book<'_>) -> Result<(), Refusal> {
    let rows = [
        (0, [10, 20, 5]),
        (0, [11, 20, 5]),
        (0, [10, 21, 6]),
        (2, [21, 30, 11]),
        (2, [22, 30, 12]),
    ];
    for (table, numbers) in rows {
        book.store(table, &numbers.map(Cell::Number))?;
    }
    Ok(())
}

/// What is seen of a cell, where the view has one.
fn seen(view: &View, table: usize, row: usize, column: usize) -> Option<Masked> {
    view.row(table, row)?.get(column).copied()
}

fn number(n: u32) -> Option<Masked> {
    Some(Masked::Value(Cell::Number(n)))
}

fn variable(table: u8, row: u8, column: u8) -> Option<Masked> {
    Some(Masked::Variable { table, row, column })
}

fn pseudonym(domain: u8, index: u16) -> Option<Masked> {
    Some(Masked::Pseudonym { domain, index })
}

#[test]
fn linked_hidden_and_shown_cells(rt: HostRuntime) -> Result<(), Fail> {
    let mut cells = [Cell::ZERO; 128];
    let mut book = draft()?.open(&mut cells);
    fill(&mut book)?;
    let mut view = View::new();
    draw(&mut view, &book, &LINKED, 7);
    // Domain 1 has 10, 11, 10, 11, 12 in order, domain 2 has 20, 20, 21, 21, 22, domain 3 has 30, 30.
    let linked = [
        (0, 0, 0, pseudonym(1, 0)),
        (0, 1, 0, pseudonym(1, 1)),
        (0, 2, 0, pseudonym(1, 0)),
        (2, 0, 2, pseudonym(1, 1)),
        (2, 1, 2, pseudonym(1, 4)),
        (0, 0, 1, pseudonym(2, 0)),
        (0, 2, 1, pseudonym(2, 2)),
        (2, 0, 0, pseudonym(2, 2)),
        (2, 1, 0, pseudonym(2, 4)),
        (2, 1, 1, pseudonym(3, 0)),
        (0, 1, 2, variable(0, 1, 2)),
    ];
    for (table, row, column, masked) in linked {
        assert_eq!(rt; seen(&view, table, row, column), masked);
    }
    draw(&mut view, &book, &HIDDEN, 7);
    assert_eq!(rt; seen(&view, 2, 1, 0), variable(2, 1, 0));
    assert_eq!(rt; seen(&view, 0, 2, 1), variable(0, 2, 1));
    draw(&mut view, &book, &SHOWN, 7);
    assert_eq!(rt; seen(&view, 2, 1, 0), number(22));
    assert_eq!(rt; seen(&view, 0, 2, 1), number(21));
    assert_eq!(rt; seen(&view, 0, 1, 2), number(5));
    assert_eq!(rt; seen(&view, 0, 3, 0), None);
    Ok(())
}

#[test]
fn tables_without_rows_or_columns(rt: HostRuntime) -> Result<(), Fail> {
    let mut cells = [Cell::ZERO; 32];
    let book = draft()?.open(&mut cells);
    let mut view = View::new();
    assert_eq!(rt; view.width(2), 0);
    draw(&mut view, &book, &LINKED, 7);
    assert_eq!(rt; [2, 1, 4].map(|table| view.width(table)), [3, 0, 0]);
    assert_eq!(rt; view.row_count(2), 0);
    assert_eq!(rt; seen(&view, 2, 0, 0), None);
    Ok(())
}
