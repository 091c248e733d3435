//! The policies of a journal, and asking under them.

use crate::call::{Call, Question};
use crate::outcome::Outcome;
use crate::steps;
use anyhow::Context;
use book::Book;
use lookup::ask;
use piles::{Parts, Pile, Stacked};
use std::alloc::{AllocError, Global};
use view::Masked;

/// A workspace and a reply buffer as large as an ask has any use for.
#[derive(Drop)]
pub(crate) struct Lent {
    work: Vec<Masked>,
    pub(crate) reply: Vec<u8>,
}

impl Lent {
    pub(crate) fn new(heap: Global) -> Result<Lent, AllocError> {
        Ok(Lent {
            work: vec![in heap; Masked::ZERO; 122_880]?,
            reply: vec![in heap; 0; 43_016]?,
        })
    }
}

/// The policies, and the combination of them that is in use.
#[derive(Drop)]
pub(crate) struct Desk {
    heap: Global,
    parts: Parts,
    pile: Pile,
}

impl Desk {
    /// Policies without rules and entries. Filter policy 0 is in use, which hides all.
    pub(crate) fn new(heap: Global) -> Desk {
        Desk {
            heap,
            parts: Parts::new(),
            pile: Pile::Filters(0),
        }
    }

    /// Carries out a call on the policies; none where it is on something else.
    pub(crate) fn policies(&mut self, call: Call) -> anyhow::Result<Option<Outcome>> {
        match call {
            Call::Rule { filters, rule } => {
                let filters = self
                    .parts
                    .filters
                    .get_mut(filters)
                    .context("no such filters")?;
                Ok(Some(Outcome::from(filters.add(rule))))
            }
            Call::Consent { register, consent } => {
                let register = self
                    .parts
                    .registers
                    .get_mut(register)
                    .context("no such register")?;
                Ok(Some(Outcome::from(register.set(consent))))
            }
            Call::Combine(steps) => {
                let pile = steps::pile(self.heap, steps.as_slice())?;
                self.pile = pile.context("steps that leave no policy, or more than one")?;
                Ok(Some(Outcome::Done))
            }
            _ => Ok(None),
        }
    }

    /// Asks, under the combination in use.
    pub(crate) fn ask(
        &self,
        lent: &mut Lent,
        book: &Book<'_>,
        question: Question,
        query: &[u8],
    ) -> anyhow::Result<Outcome> {
        let policy = Stacked {
            parts: &self.parts,
            pile: &self.pile,
        };
        let work = lent.work.as_mut_slice().get_mut(..question.cells);
        let reply = lent.reply.as_mut_slice().get_mut(..question.bytes);
        let work = work.context("too large a workspace")?;
        let reply = reply.context("too long a reply buffer")?;
        Ok(Outcome::from(ask(book, &policy, question.broker, query, work, reply)))
    }
}
