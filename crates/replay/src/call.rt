//! The calls of a journal.

use crate::kind::CallKind;
use crate::spelled::{Row, Spelled, first_cell, row};
use bounded::Bounded;
use semantics::{Consent, Rule, Sign, Test};
use std::array;

/// What an ask is handed beside book, policy and query: the broker, and how much is lent.
#[derive(Clone, Copy)]
pub(crate) struct Question {
    pub(crate) broker: u16,
    pub(crate) cells: usize,
    pub(crate) bytes: usize,
}

/// The steps of a combination: at most 15.
pub(crate) type Steps = Bounded<u8, 15>;

/// A call with its arguments. The query of an ask is what is left of the body.
#[derive(Clone, Copy)]
pub(crate) enum Call {
    Begin,
    Declare {
        table: usize,
        kind: u8,
        domain: u8,
    },
    Open {
        cells: usize,
    },
    Store {
        table: usize,
        row: Row,
    },
    Strike {
        table: usize,
        row: usize,
    },
    Amend {
        table: usize,
        row: usize,
        column: usize,
        cell: Spelled,
    },
    Rule {
        filters: usize,
        rule: Rule,
    },
    Consent {
        register: usize,
        consent: Consent,
    },
    Combine(Steps),
    Ask(Question),
}

/// A number of two bytes, as a count.
fn two(low: u8, high: u8) -> usize {
    usize::from(u16::from_le_bytes([low, high]))
}

/// A number of four bytes, as a count that matters up to a limit.
fn at_most(bytes: [u8; 4], limit: u32) -> usize {
    let count = u32::from_le_bytes(bytes).min(limit);
    usize::try_from(count).unwrap_or(0)
}

/// The columns of a set.
fn columns(set: u8) -> [bool; 8] {
    array::from_fn(|column| set >> column & 1 == 1)
}

fn sign(byte: u8) -> Option<Sign> {
    match byte {
        0 => Some(Sign::Prohibit),
        1 => Some(Sign::Allow),
        _ => None,
    }
}

fn test(bytes: &[u8]) -> Option<Test> {
    match bytes {
        [] => Some(Test::Always),
        [column, a, b, c, d] => Some(Test::Holds {
            column: usize::from(*column),
            number: u32::from_le_bytes([*a, *b, *c, *d]),
        }),
        _ => None,
    }
}

/// The number of one of four policies.
fn one_of_four(byte: u8) -> Option<usize> {
    (byte < 4).then_some(usize::from(byte))
}

/// The steps that some bytes are, if they are not too many.
fn steps(bytes: &[u8]) -> Option<Steps> {
    let mut steps = Bounded::new(0);
    steps.extend(bytes).ok()?;
    Some(steps)
}

/// Where the query begins in the body of an ask.
pub(crate) const QUERY: usize = 10;

impl Call {
    /// The call of a kind with this body, none where the body has not the form of the kind.
    pub(crate) fn read(kind: CallKind, body: &[u8]) -> Option<Call> {
        match (kind, body) {
            (CallKind::Begin, []) => Some(Call::Begin),
            (CallKind::Declare, [table, kind, domain]) => Some(Call::Declare {
                table: usize::from(*table),
                kind: *kind,
                domain: *domain,
            }),
            (CallKind::Open, [a, b, c, d]) => Some(Call::Open {
                cells: at_most([*a, *b, *c, *d], 8192),
            }),
            (CallKind::Store, [table, cells @ ..]) => Some(Call::Store {
                table: usize::from(*table),
                row: row(cells)?,
            }),
            (CallKind::Strike, [table, low, high]) => Some(Call::Strike {
                table: usize::from(*table),
                row: two(*low, *high),
            }),
            (CallKind::Amend, [table, low, high, column, cell @ ..]) => {
                let (cell, []) = first_cell(cell)? else {
                    return None;
                };
                Some(Call::Amend {
                    table: usize::from(*table),
                    row: two(*low, *high),
                    column: usize::from(*column),
                    cell,
                })
            }
            (CallKind::Rule, [filters, low, high, table, column, allows, holds @ ..]) => {
                Some(Call::Rule {
                    filters: one_of_four(*filters)?,
                    rule: Rule {
                        broker: u16::from_le_bytes([*low, *high]),
                        table: usize::from(*table),
                        column: usize::from(*column),
                        sign: sign(*allows)?,
                        test: test(holds)?,
                    },
                })
            }
            (CallKind::Consent, [register, a, b, c, d, shown, linked]) => Some(Call::Consent {
                register: one_of_four(*register)?,
                consent: Consent {
                    key: u32::from_le_bytes([*a, *b, *c, *d]),
                    shown: columns(*shown),
                    linked: columns(*linked),
                },
            }),
            (CallKind::Combine, bytes) => Some(Call::Combine(steps(bytes)?)),
            (CallKind::Ask, [low, high, a, b, c, d, e, f, g, h, ..]) => {
                Some(Call::Ask(Question {
                    broker: u16::from_le_bytes([*low, *high]),
                    cells: at_most([*a, *b, *c, *d], 122_880),
                    bytes: at_most([*e, *f, *g, *h], 43_016),
                }))
            }
            _ => None,
        }
    }
}
