//! A query that passed: the kinds of its cells, and its records as a tree. Each record stands above its
//! parts, the left part above the right.

ghost use Rattle.std.specs.Prelude.{◌+◌, ◌≤◌};

use crate::words::{InWords, condition};
use anyhow::Context;
use query::{Operation, Plan};

/// A query, its plan, and where they are shown.
#[derive(Clone, Copy)]
pub(crate) struct Tree<'a> {
    pub(crate) rt: &'a HostRuntime,
    pub(crate) query: &'a [u8],
    pub(crate) plan: &'a Plan,
}

impl Tree<'_> {
    /// The count of the records, and the kinds of the cells.
    fn head(&self) -> anyhow::Result<()> {
        let rt = self.rt;
        let count = self.plan.count();
        let kinds = self.plan.kinds().context("a query without records")?;
        print!(rt; "A query of {count} records. The cells of its rows:")?;
        for kind in kinds.listed() {
            let name = InWords(*kind);
            print!(rt; " {name}")?;
        }
        println!(rt; "")?;
        Ok(())
    }

    /// A record, further to the right the deeper it is.
    fn line(&self, number: usize, operation: Operation<'_>, depth: usize) -> anyhow::Result<()>
        requires { depth ≤ 15 }
    {
        let rt = self.rt;
        let indent = 4 * depth;
        let name = InWords(operation);
        print!(rt; "{:indent$}{number}: {name}", "")?;
        if let Operation::Select(_, body) = operation {
            let condition = condition(rt.alloc(), body)?;
            print!(rt; " {condition}")?;
        }
        println!(rt; "")?;
        Ok(())
    }

    /// Record `number` and, below it, its parts.
    fn below(&self, number: usize, depth: usize) -> anyhow::Result<()>
        requires { number + depth ≤ 15 }
    {
        let operation = self.plan.operation(self.query, number);
        let operation = operation.context("a record that the plan does not have")?;
        self.line(number, operation, depth)?;
        match operation {
            Operation::Table(_) => Ok(()),
            Operation::Select(part, _) | Operation::Project(part, _) => self.below(part, depth + 1),
            Operation::Product(left, right)
            | Operation::Union(left, right)
            | Operation::Difference(left, right) => {
                self.below(left, depth + 1)?;
                self.below(right, depth + 1)
            }
        }
    }

    /// The whole query, from its last record.
    pub(crate) fn show(&self) -> anyhow::Result<()> {
        self.head()?;
        let root = self.plan.root();
        self.below(root.context("a query without records")?, 0)
    }
}
