//! A journal from its first call to its last.

use crate::call::Call;
use crate::desk::{Desk, Lent};
use crate::input::Input;
use crate::outcome::{Mode, Outcome};
use crate::spelled::cells;
use anyhow::bail;
use book::{Book, Draft};
use cells::Cell;
use semantics::Refusal;
use std::io::{BufReader, Read};

/// What comes after a part of a journal: another beginning, or nothing.
#[derive(Clone, Copy)]
enum Next {
    Begin,
    End,
}

/// How the calls on a draft end: it is opened in so many cells of memory, or the part is over.
#[derive(Clone, Copy)]
enum Drafted {
    Opened(usize),
    Over(Next),
}

/// Carries out the calls up to the one that opens the book.
fn draft<R: Read + Drop>(
    rt: &HostRuntime,
    mode: Mode,
    input: &mut Input<R>,
    desk: &mut Desk,
    draft: &mut Draft,
) -> anyhow::Result<Drafted> {
    for _ in 0..u64::MAX {
        let Some(call) = input.call()? else {
            return Ok(Drafted::Over(Next::End));
        };
        let outcome = match call {
            Call::Begin => return Ok(Drafted::Over(Next::Begin)),
            Call::Open { cells } => return Ok(Drafted::Opened(cells)),
            Call::Declare {
                table,
                kind,
                domain,
            } => Outcome::from(draft.declare(table, kind, domain)),
            other => match desk.policies(other)? {
                Some(outcome) => outcome,
                None => bail!("a call on a book that is not open"),
            },
        };
        outcome.write(rt, mode, &[])?;
    }
    Ok(Drafted::Over(Next::End))
}

/// Carries out a call that alters the book; none where it is another.
fn alter(book: &mut Book<'_>, call: Call) -> Option<Result<(), Refusal>> {
    match call {
        Call::Store { table, row } => Some(cells(&row).and_then(|row| book.store(
            table,
            row.as_slice(),
        ))),
        Call::Strike { table, row } => Some(book.strike(table, row)),
        Call::Amend {
            table,
            row,
            column,
            cell,
        } => { Some(cell.and_then(|cell| book.amend(table, row, column, cell))) }
        _ => None,
    }
}

/// Carries out the calls on an open book.
fn serve<R: Read + Drop>(
    rt: &HostRuntime,
    mode: Mode,
    input: &mut Input<R>,
    desk: &mut Desk,
    lent: &mut Lent,
    book: &mut Book<'_>,
) -> anyhow::Result<Next> {
    for _ in 0..u64::MAX {
        let Some(call) = input.call()? else {
            return Ok(Next::End);
        };
        let outcome = match call {
            Call::Begin => return Ok(Next::Begin),
            Call::Ask(question) => {
                let outcome = desk.ask(lent, book, question, input.query())?;
                if mode == Mode::Times {
                    let least = desk.time(rt, lent, book, question, input.query())?;
                    outcome.show(rt, lent.reply.as_slice(), least)?;
                }
                outcome
            }
            other => match alter(book, other) {
                Some(answer) => Outcome::from(answer),
                None => match desk.policies(other)? {
                    Some(outcome) => outcome,
                    None => bail!("a call on a draft, and the book is open"),
                },
            },
        };
        outcome.write(rt, mode, lent.reply.as_slice())?;
    }
    Ok(Next::End)
}

/// Carries out the calls up to the next beginning, or to the end.
fn part<R: Read + Drop>(
    rt: &HostRuntime,
    mode: Mode,
    input: &mut Input<R>,
    lent: &mut Lent,
    memory: &mut [Cell],
) -> anyhow::Result<Next> {
    let mut desk = Desk::new(rt.alloc());
    let mut columns = Draft::new();
    match draft(rt, mode, input, &mut desk, &mut columns)? {
        Drafted::Opened(cells) => {
            let cells = cells.min(memory.len());
            let mut book = columns.open(&mut memory[..cells]);
            Outcome::Done.write(rt, mode, &[])?;
            serve(rt, mode, input, &mut desk, lent, &mut book)
        }
        Drafted::Over(next) => Ok(next),
    }
}

/// Carries out the journal on standard input.
pub(crate) fn journal(rt: &HostRuntime, mode: Mode) -> anyhow::Result<()> {
    let mut memory = vec![in rt.alloc(); Cell::ZERO; 8192]?;
    let mut lent = Lent::new(rt.alloc())?;
    let reader = BufReader::new(rt.alloc(), rt.reader())?;
    let mut input = Input::new(rt, reader)?;
    for _ in 0..u64::MAX {
        match part(rt, mode, &mut input, &mut lent, memory.as_mut_slice())? {
            Next::Begin => Outcome::Done.write(rt, mode, &[])?,
            Next::End => return Ok(()),
        }
    }
    Ok(())
}
