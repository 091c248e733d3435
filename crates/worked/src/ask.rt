//! One query: answered or refused, in a workspace and a reply buffer that are not empty before.

use crate::marks::Brokers;
use book::Book;
use cells::Cell;
use semantics::Refusal;
use view::Masked;

/// What stands in a workspace cell beforehand: a number, a variable or a pseudonym of the book.
fn litter(place: usize) -> Masked {
    match place % 3 {
        0 => Masked::Value(Cell::Number(1)),
        1 => Masked::Variable {
            table: 0,
            row: 1,
            column: 0,
        },
        _ => Masked::Pseudonym {
            domain: 2,
            index: 0,
        },
    }
}

/// What stands in a byte of the reply buffer beforehand.
fn pattern(place: usize) -> u8 {
    u8::try_from(place % 251).unwrap()
}

/// What is lent to an answer.
#[derive(Drop)]
pub(crate) struct Lent<'a> {
    pub(crate) work: &'a mut [Masked],
    pub(crate) reply: &'a mut [u8],
}

impl Lent<'_> {
    /// Fills the workspace and the reply buffer.
    pub(crate) fn fill(&mut self) {
        for (place, cell) in self.work.iter_mut().enumerate() {
            *cell = litter(place);
        }
        for (place, byte) in self.reply.iter_mut().enumerate() {
            *byte = pattern(place);
        }
    }

    /// Whether every cell is the number 0.
    pub(crate) fn all_zero(&self) -> bool {
        self.work.iter().all(|cell| *cell == Masked::ZERO)
    }

    /// Whether the bytes from a place on are as they were filled.
    pub(crate) fn kept_from(&self, start: usize) -> bool {
        self.reply
            .iter()
            .enumerate()
            .skip(start)
            .all(|(place, byte)| *byte == pattern(place))
    }

    /// Answers a query for a broker.
    pub(crate) fn ask(
        &mut self,
        book: &Book<'_>,
        policy: &Brokers,
        broker: u16,
        query: &[u8],
    ) -> Result<usize, Refusal> {
        lookup::ask(book, policy, broker, query, self.work, self.reply)
    }
}
