ghost use Rattle.std.specs.Prelude.{◌≡◌};
ghost use Rattle.std.specs.Iterator.{YieldsFirstBy, item_count};
ghost use Rattle.records.specs.Terms.{term_of, terms_in, terms_left};

use crate::term::{Term, first_term};

/// Goes over the terms of a condition, each after its parts.
#[derive(Drop)]
pub struct Terms<'q> {
    pub(crate) rest: &'q [u8],
}

impl<'q> Terms<'q> {
    /// The terms of a condition, the body of a select.
    pub fn of(condition: &'q [u8]) -> Terms<'q>
        ensures { terms_left result ≡ terms_in condition.now }
    {
        Terms { rest: condition }
    }
}

impl<'q> Iterator for Terms<'q> {
    type Item = Term<'q>;

    ghost next_gives = { YieldsFirstBy term_of terms_left };

    ghost remaining = { item_count terms_left };

    fn next(&mut self) -> Option<Term<'q>> {
        let (term, rest) = first_term(self.rest)?;
        self.rest = rest;
        Some(term)
    }
}
