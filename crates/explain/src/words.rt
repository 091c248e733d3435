//! Records and conditions in words.

use query::Operation;
use records::{Term, Terms};
use semantics::{Kind, Operator};
use std::alloc::{AllocError, Global};
use std::{fmt, str};

/// A kind, an operator between its two sides, a condition's record or a query's record, in words.
#[derive(Clone, Copy)]
pub(crate) struct InWords<T>(pub(crate) T);

impl fmt::Display for InWords<Kind> {
    fn fmt<W: fmt::Write>(&self, f: &mut fmt::Formatter<W>) -> fmt::Result {
        f.write_str(match self.0 {
            Kind::Number => "number",
            Kind::Prefix => "prefix",
        })
    }
}

impl fmt::Display for InWords<Operator> {
    fn fmt<W: fmt::Write>(&self, f: &mut fmt::Formatter<W>) -> fmt::Result {
        f.write_str(match self.0 {
            Operator::Equal => "equal to",
            Operator::Unequal => "unequal to",
            Operator::Less => "less than",
            Operator::AtMost => "at most",
            Operator::Covers => "covers",
            Operator::Shorter => "shorter than",
        })
    }
}

/// The digits of a prefix.
fn prefix(digits: &[u8]) -> &str {
    match str::from_utf8(digits) {
        Ok("") | Err(_) => "the empty prefix",
        Ok(text) => text,
    }
}

/// A comparison, or the word that joins or negates.
impl fmt::Display for InWords<Term<'_>> {
    fn fmt<W: fmt::Write>(&self, f: &mut fmt::Formatter<W>) -> fmt::Result {
        match self.0 {
            Term::ByColumn(operator, left, right) => {
                let name = InWords(operator);
                write!(f, "column {left} {name} column {right}")
            }
            Term::ByNumber(operator, left, right) => {
                let name = InWords(operator);
                write!(f, "column {left} {name} {right}")
            }
            Term::ByPrefix(operator, left, digits) => {
                let name = InWords(operator);
                let right = prefix(digits);
                write!(f, "column {left} {name} {right}")
            }
            Term::And => write!(f, "and"),
            Term::Or => write!(f, "or"),
            Term::Not => write!(f, "not"),
        }
    }
}

/// The columns of a project, with the word for one or for more.
#[derive(Clone, Copy)]
struct Columns<'q>(&'q [u8]);

impl fmt::Display for Columns<'_> {
    fn fmt<W: fmt::Write>(&self, f: &mut fmt::Formatter<W>) -> fmt::Result {
        let columns = self.0;
        let word = if columns.len() == 1 {
            "column"
        } else {
            "columns"
        };
        write!(f, "{word}")?;
        let mut gap = " ";
        for column in columns {
            write!(f, "{gap}{column}")?;
            gap = ", ";
        }
        Ok(())
    }
}

/// A record without its parts, a select without its condition.
impl fmt::Display for InWords<Operation<'_>> {
    fn fmt<W: fmt::Write>(&self, f: &mut fmt::Formatter<W>) -> fmt::Result {
        match self.0 {
            Operation::Table(number) => write!(f, "table {number}"),
            Operation::Select(..) => write!(f, "select"),
            Operation::Project(_, body) => {
                let columns = Columns(body);
                write!(f, "project {columns}")
            }
            Operation::Product(..) => write!(f, "product"),
            Operation::Union(..) => write!(f, "union"),
            Operation::Difference(..) => write!(f, "difference"),
        }
    }
}

/// A condition in words.
#[derive(Drop)]
enum Words {
    /// A comparison or a negation.
    Whole(String),
    /// Two conditions joined by "and" or "or", which need brackets as a part of another.
    Joined(String),
}

/// The conditions that are no part of another so far.
#[derive(Drop)]
struct Stack {
    words: Vec<Words>,
}

impl Stack {
    /// The last condition as a part of another: in brackets if it is joined itself.
    fn part(&mut self) -> Result<String, AllocError> {
        let heap = *self.words.allocator();
        match self.words.pop() {
            None => Ok(String::new(heap)),
            Some(Words::Whole(text)) => Ok(text),
            Some(Words::Joined(text)) => format!(in heap; "({text})"),
        }
    }

    /// What a condition record makes of the conditions before it.
    fn term(&mut self, said: Term<'_>) -> Result<Words, AllocError> {
        let heap = *self.words.allocator();
        let name = InWords(said);
        match said {
            Term::And | Term::Or => {
                let right = self.part()?;
                let left = self.part()?;
                Ok(Words::Joined(format!(in heap; "{left} {name} {right}")?))
            }
            Term::Not => {
                let part = self.part()?;
                Ok(Words::Whole(format!(in heap; "{name} {part}")?))
            }
            Term::ByColumn(..) | Term::ByNumber(..) | Term::ByPrefix(..) => {
                Ok(Words::Whole(format!(in heap; "{name}")?))
            }
        }
    }
}

/// The condition of a select.
pub(crate) fn condition(heap: Global, body: &[u8]) -> Result<String, AllocError> {
    let mut stack = Stack {
        words: Vec::new(heap),
    };
    for said in Terms::of(body) {
        let words = stack.term(said)?;
        stack.words.push(words)?;
    }
    match stack.words.pop() {
        None => Ok(String::new(heap)),
        Some(Words::Whole(text) | Words::Joined(text)) => Ok(text),
    }
}
