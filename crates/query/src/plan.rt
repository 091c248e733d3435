ghost use Rattle.std.specs.Prelude.{◌≡◌, ◌+◌, ◌-◌, ◌<◌, ◌≤◌, ◌↔◌, IsTrue, List, [], None, slice_get, SomeIff, IfSome};
ghost use Rattle.semantics.specs.declared.kind.Column.{Column};
ghost use Rattle.query.specs.Operations.{MayBeLower};
ghost use Rattle.query.specs.Plans.{planned_in, record_count, known_kinds, OnStack, Pushes, OperationIn, PartIs, lone};

mod grow;

use crate::kinds::Kinds;
use crate::operation::Operation;
use crate::step::Step;
use bounded::Bounded;
use records::Reader;
use semantics::Refusal;

/// What a plan keeps of a record: the byte that it begins at, and what it adds to the plan.
#[derive(Clone, Copy, PartialEq, Eq, Debug)]
pub(crate) struct Planned {
    at: usize,
    pub(crate) step: Step,
}

/// A query that has passed the questions: its records by number, and the kinds of their columns.
#[derive(Clone, Copy, PartialEq, Eq, Debug)]
pub struct Plan {
    records: Bounded<Planned, 15>,
}

/// A record's number, or their count, as the place of a refusal.
fn place_of(number: usize) -> u8
    requires { number ≤ 15 }
    ensures { result ≡ number }
{
    // As a cast, which keeps a number of at most 15.
    number as u8
}

impl Plan {
    /// A plan without records.
    pub(crate) fn empty() -> Plan
        ensures { planned_in result ≡ [] }
    {
        let step = Step {
            left: 0,
            start: 0,
            kinds: Kinds::none(),
        };
        Plan {
            records: Bounded::new(Planned { at: 0, step }),
        }
    }

    /// Adds a record that begins at a byte.
    pub(crate) fn push(&mut self, at: usize, step: Step)
        requires { record_count self.old < 15 }
        ensures count { record_count self.new ≡ record_count self.old + 1 }
        ensures plans { Pushes self.old at step self.new }
    {
        self.records.push(Planned { at, step }).unwrap();
    }

    /// Whether there is room for no more records.
    pub(crate) fn is_full(&self) -> bool
        ensures { IsTrue result ↔ (record_count self.now ≡ 15) }
    {
        self.records.is_full()
    }

    /// What the plan keeps of a record, if there is one of this number.
    fn planned(&self, number: usize) -> Option<Planned>
        ensures { result ≡ slice_get (planned_in self.now) number }
    {
        self.records.as_slice().get(number).copied()
    }

    /// The number of the record that comes next, as the place of a refusal.
    pub(crate) fn place(&self) -> u8
        ensures { result ≡ record_count self.now }
    {
        place_of(self.count())
    }

    /// What the last record has added: the part of a record that takes one.
    fn part(&self) -> Result<Planned, Refusal>
        ensures { PartIs self.now result }
    {
        let last = self.records.as_slice().last().copied();
        last.ok_or(Refusal::StackShort(self.place()))
    }

    /// Whether exactly one relation is left.
    pub(crate) fn is_single(&self) -> bool
        ensures { (columns : List (List Column)) → OnStack columns self.now (λ stack. result ≡ lone stack) }
    {
        self.part().is_ok_and(|part| part.step.start == 0)
    }

    /// How many records the query has.
    pub fn count(&self) -> usize
        ensures value { result ≡ record_count self.now }
        ensures few { result ≤ 15 }
    {
        self.records.len()
    }

    /// The number of the last record, whose relation is the query's, if there are records.
    pub fn root(&self) -> Option<usize>
        ensures value { SomeIff result (1 ≤ record_count self.now) (record_count self.now - 1) }
        ensures low { IfSome result (λ root. root < 15) }
    {
        self.count().checked_sub(1)
    }

    /// The kinds of the columns of the query's relation, if there are records.
    pub fn kinds(&self) -> Option<Kinds>
        ensures { result ≡ slice_get (known_kinds self.now) (record_count self.now - 1) }
    {
        Some(self.planned(self.root()?)?.step.kinds)
    }

    /// What record number `number` of the plan says in the query's bytes, with the numbers of its
    /// parts, which are lower.
    pub fn operation<'q>(&self, query: &'q [u8], number: usize) -> Option<Operation<'q>>
        ensures lower { MayBeLower number result }
        ensures reads { OperationIn self.now query.now number result }
        ensures past { record_count self.now ≤ number → result ≡ None }
    {
        let planned = self.planned(number)?;
        let rest = query.get(planned.at..)?;
        let place = place_of(number);
        let (said, _) = Reader { rest, place }.read();
        let operation = Operation::of(said, planned.step.left, number.saturating_sub(1));
        operation.is_lower(number).then_some(operation)
    }
}
