ghost use Rattle.std.specs.Prelude.{◌≡◌, ◌<◌};
ghost use Rattle.semantics.specs.declared.refusal.Refusal.{Refusal};
ghost use Rattle.semantics.specs.Reading.{next_term};
ghost use Rattle.records.specs.Terms.{term_of, NextTermIs, parts, DepthAfter};

use crate::first::first_record;
use semantics::Operator;

/// What a condition record says: a comparison of a column with another, with a number or with the
/// digits of a prefix, which stay a part of the query, or how conditions are joined.
#[derive(Clone, Copy, PartialEq, Eq, Debug)]
pub enum Term<'q> {
    ByColumn(Operator, u8, u8),
    ByNumber(Operator, u8, u32),
    ByPrefix(Operator, u8, &'q [u8]),
    And,
    Or,
    Not,
}

/// The first condition record of some bytes, and the bytes after it.
pub(crate) fn first_term(bytes: &[u8]) -> Option<(Term<'_>, &[u8])>
    ensures { (e : Refusal) → NextTermIs e result (next_term e bytes.now) }
{
    let first = first_record(bytes)?;
    let term = first.term()?;
    Some((term, first.rest))
}

impl Term<'_> {
    /// How many conditions the term takes from the stack.
    fn parts(self) -> usize
        ensures { result ≡ parts (term_of self.entry) }
    {
        match self {
            Term::And | Term::Or => 2,
            Term::Not => 1,
            _ => 0,
        }
    }

    /// How many conditions are on the stack after the term, if there are enough before it.
    #[tactic(auto, using(crate::proofs::Depths::combines, crate::proofs::Depths::refuses))]
    pub(crate) fn depth_after(self, depth: usize) -> Option<usize>
        requires { depth < 1000 }
        ensures { DepthAfter (term_of self.entry) depth result }
    {
        Some(depth.checked_sub(self.parts())? + 1)
    }
}
