//! How long an ask takes.

use crate::call::Question;
use crate::desk::{Desk, Lent};
use crate::outcome::Outcome;
use book::Book;
use std::time::Instant;
use tariffs::{counts, written};

/// At most so many rounds are timed.
const ROUNDS: usize = 2000;

impl Desk {
    /// The least time of an ask in nanoseconds, over so many rounds or as many as fill a second.
    pub(crate) fn time(
        &self,
        rt: &HostRuntime,
        lent: &mut Lent,
        book: &Book<'_>,
        question: Question,
        query: &[u8],
    ) -> anyhow::Result<u128> {
        let start = Instant::now(rt)?;
        let mut least = u128::MAX;
        for _ in 0..ROUNDS {
            let round = Instant::now(rt)?;
            self.ask(lent, book, question, query)?;
            least = least.min(round.elapsed(rt)?.as_nanos());
            if start.elapsed(rt)?.as_secs() >= 1 {
                break;
            }
        }
        Ok(least)
    }
}

impl Outcome {
    /// Prints what an ask came to, and its time.
    pub(crate) fn show(self, rt: &HostRuntime, reply: &[u8], least: u128) -> anyhow::Result<()> {
        match self {
            Outcome::Done => println!(rt; "done: {least} ns")?,
            Outcome::Refused(refusal) => println!(rt; "{refusal}: {least} ns")?,
            Outcome::Replied(_) => {
                let body = written(reply, 8).get(4..).unwrap_or(&[]);
                let (certain, possible) = counts(body).unwrap_or((0, 0));
                println!(rt; "{certain} certain, {possible} possible: {least} ns")?;
            }
        }
        Ok(())
    }
}
