ghost use Rattle.std.specs.Prelude.{◌≡◌, ◌<◌};
ghost use Rattle.answer.specs.Notes.{Lies, Overfull, Settles};

pub(crate) mod split;

use crate::bound::Bound;
use crate::memo::Memo;
use crate::refusal::too_many_rows;
use query::{Operation, Plan};
use semantics::Refusal;
use view::View;
use workspace::Block;

/// A query over a view.
#[derive(Clone, Copy)]
pub(crate) struct Task<'v, 'p, 'q> {
    pub(crate) view: &'v View,
    pub(crate) plan: &'p Plan,
    pub(crate) query: &'q [u8],
}

impl Task<'_, '_, '_> {
    /// The low answer of a record: the rows that are in it for certain. None where it, or that of a part,
    /// has too many rows.
    #[cycle(answers)]
    pub(crate) fn low(self, memo: &mut Memo, number: usize) -> Option<Block>
        requires lower { number < 15 }
        ensures lies { Lies Bound.Low number memo.old memo.new result }
        ensures found { Settles self.entry Bound.Low number memo.old memo.new result }
    {
        if let Some(found) = memo.noted(Bound::Low, number) {
            return Some(found);
        }
        let operation = self.plan.operation(self.query, number)?;
        match operation {
            Operation::Table(table) => {
                memo.table(Bound::Low, number, self.view, usize::from(table))
            }
            Operation::Select(part, condition) => {
                let from = self.low(memo, part)?;
                memo.select(Bound::Low, number, from, condition)
            }
            Operation::Project(part, columns) => {
                let from = self.low(memo, part)?;
                memo.project(Bound::Low, number, from, columns)
            }
            Operation::Product(first, second) => {
                let left = self.low(memo, first)?;
                let right = self.low(memo, second)?;
                memo.product(Bound::Low, number, left, right)
            }
            Operation::Union(first, second) => {
                let left = self.low(memo, first)?;
                let right = self.low(memo, second)?;
                memo.union(Bound::Low, number, left, right)
            }
            Operation::Difference(first, second) => {
                let from = self.low(memo, first)?;
                let removed = self.high(memo, second)?;
                memo.difference(Bound::Low, number, from, removed)
            }
        }
    }

    /// The high answer of a record: the rows that may be in it. None where it, or that of a part, has too
    /// many rows.
    #[cycle(answers)]
    pub(crate) fn high(self, memo: &mut Memo, number: usize) -> Option<Block>
        requires lower { number < 15 }
        ensures lies { Lies Bound.High number memo.old memo.new result }
        ensures found { Settles self.entry Bound.High number memo.old memo.new result }
    {
        if let Some(found) = memo.noted(Bound::High, number) {
            return Some(found);
        }
        let operation = self.plan.operation(self.query, number)?;
        match operation {
            Operation::Table(table) => {
                memo.table(Bound::High, number, self.view, usize::from(table))
            }
            Operation::Select(part, condition) => {
                let from = self.high(memo, part)?;
                memo.select(Bound::High, number, from, condition)
            }
            Operation::Project(part, columns) => {
                let from = self.high(memo, part)?;
                memo.project(Bound::High, number, from, columns)
            }
            Operation::Product(first, second) => {
                let left = self.high(memo, first)?;
                let right = self.high(memo, second)?;
                memo.product(Bound::High, number, left, right)
            }
            Operation::Union(first, second) => {
                let left = self.high(memo, first)?;
                let right = self.high(memo, second)?;
                memo.union(Bound::High, number, left, right)
            }
            Operation::Difference(first, second) => {
                let from = self.high(memo, first)?;
                let removed = self.low(memo, second)?;
                memo.difference(Bound::High, number, from, removed)
            }
        }
    }

    /// Finds all high answers, or refuses the lowest record whose high answer has too many rows.
    fn overfull(self, memo: &mut Memo) -> Result<(), Refusal>
        ensures limit { memo.new.output.limit ≡ memo.old.output.limit }
        ensures lowest { Overfull self.entry memo.old memo.new result }
    {
        for number in 0..self.plan.count() {
            self.high(memo, number).ok_or(too_many_rows(number))?;
        }
        Ok(())
    }
}
