//! What a call came to, as bytes.

use reply::refusal_record;
use semantics::Refusal;
use std::io::{self, Write};
use tariffs::written;

/// The record of a call that was carried out and hands nothing back.
const DONE: [u8; 4] = [0, 0, 0x24, 0];

/// What is written: the outcomes, or how long the asks take.
#[derive(Clone, Copy, PartialEq, Eq)]
pub(crate) enum Mode {
    Outcomes,
    Times,
}

/// What a call came to. A reply stands in the buffer that was lent to the ask.
#[derive(Clone, Copy)]
pub(crate) enum Outcome {
    Done,
    Refused(Refusal),
    Replied(usize),
}

impl From<Result<(), Refusal>> for Outcome {
    fn from(answer: Result<(), Refusal>) -> Outcome {
        match answer {
            Ok(()) => Outcome::Done,
            Err(refusal) => Outcome::Refused(refusal),
        }
    }
}

impl From<Result<usize, Refusal>> for Outcome {
    fn from(answer: Result<usize, Refusal>) -> Outcome {
        match answer {
            Ok(size) => Outcome::Replied(size),
            Err(refusal) => Outcome::Refused(refusal),
        }
    }
}

impl Outcome {
    /// Writes the outcome, and has it on its way before anything else is done.
    pub(crate) fn write(self, rt: &HostRuntime, mode: Mode, reply: &[u8]) -> io::Result<()> {
        if mode == Mode::Times {
            return Ok(());
        }
        let mut out = io::writer(rt);
        match self {
            Outcome::Done => out.write_all(&DONE)?,
            Outcome::Refused(refusal) => out.write_all(&refusal_record(refusal))?,
            Outcome::Replied(size) => out.write_all(written(reply, size))?,
        }
        out.flush()
    }
}
