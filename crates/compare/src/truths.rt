ghost use Rattle.std.specs.Prelude.{◌≡◌, [], map};
ghost use Rattle.records.specs.Terms.{term_of};
ghost use Rattle.view.specs.Views.{masked_of};
ghost use Rattle.compare.specs.Stacks.{stack_of, pushed, top, under, stepped};
ghost use Rattle.compare.specs.Truths.{truth_of};

use crate::comparing::{compare, compare_with};
use crate::kleene::Truth;
use crate::plain::Plain;
use bounded::Bounded;
use records::Term;
use view::{Masked, cell_at};

/// The truths that the records of a condition have left so far, at most 15, the last on top.
#[derive(Clone, Copy)]
pub(crate) struct Truths {
    pub(crate) list: Bounded<Truth, 15>,
}

impl Truths {
    /// No truths.
    pub(crate) fn none() -> Truths
        ensures { stack_of result ≡ [] }
    {
        Truths {
            list: Bounded::new(Truth::Unknown),
        }
    }

    /// Puts a truth on top, unless there are 15.
    fn push(&mut self, truth: Truth)
        ensures { stack_of self.new ≡ pushed (truth_of truth) (stack_of self.old) }
    {
        // A full list stays as it is, and its error says no more: no condition has more than 15 records.
        let _ = self.list.push(truth);
    }

    /// Takes the top truth off, unknown where there is none.
    pub(crate) fn pop(&mut self) -> Truth
        ensures answer { truth_of result ≡ top (stack_of self.old) }
        ensures left { stack_of self.new ≡ under (stack_of self.old) }
    {
        self.list.pop().unwrap_or(Truth::Unknown)
    }

    /// Takes off the truths that a term joins, and puts the truth of the term on a row in their place.
    pub(crate) fn step(&mut self, term: Term<'_>, row: &[Masked])
        ensures { stack_of self.new ≡ stepped (term_of term.entry) (map masked_of row.now) (stack_of self.old) }
    {
        let truth = match term {
            Term::ByColumn(operator, left, right) => {
                compare(operator, &cell_at(row, left), &cell_at(row, right))
            }
            Term::ByNumber(operator, left, number) => {
                compare_with(operator, &cell_at(row, left), Plain::Number(number))
            }
            Term::ByPrefix(operator, left, digits) => {
                compare_with(operator, &cell_at(row, left), Plain::Digits(digits))
            }
            Term::And => {
                let right = self.pop();
                self.pop().and(right)
            }
            Term::Or => {
                let right = self.pop();
                self.pop().or(right)
            }
            Term::Not => !self.pop(),
        };
        self.push(truth);
    }
}
