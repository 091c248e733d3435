ghost use Rattle.std.specs.Prelude.{◌≡◌, ◌<◌, map};
ghost use Rattle.semantics.specs.Lists.{some};
ghost use Rattle.view.specs.Views.{masked_of};
ghost use Rattle.workspace.specs.Rows.{rows_left};
ghost use Rattle.compare.specs.Truths.{truth_of};
ghost use Rattle.answer.specs.Bounds.{keeps, other, region, takes_out};
ghost use Rattle.answer.specs.Rows.{carried};
ghost use Rattle.answer.specs.Selecting.{Selects};

use crate::row::{Row, identical};
use compare::{Truth, truth};
use rows::compatible;
use view::Masked;
use workspace::Rows;

/// Which of the two answers of a query is meant.
#[derive(Clone, Copy, PartialEq, Eq, Debug)]
pub(crate) enum Bound {
    Low,
    High,
}

impl Bound {
    /// The other one.
    pub(crate) fn other(self) -> Bound
        ensures { result ≡ other self }
    {
        match self {
            Bound::Low => Bound::High,
            Bound::High => Bound::Low,
        }
    }

    /// The number of the region, among the 30 of a workspace, that has a record's answer.
    pub(crate) fn region(self, number: usize) -> usize
        requires { number < 15 }
        ensures { result ≡ region self number }
    {
        match self {
            Bound::Low => 2 * number,
            Bound::High => 2 * number + 1,
        }
    }

    /// Whether a select keeps a row for which its condition has this truth.
    fn keeps(self, truth: Truth) -> bool
        ensures { result ≡ keeps self (truth_of truth) }
    {
        match self {
            Bound::Low => truth.is_true(),
            Bound::High => truth.may_be_true(),
        }
    }

    /// Whether a select with this condition keeps a row.
    pub(crate) fn selects(self, condition: &[u8], row: &Row) -> bool
        ensures { Selects self condition.now (carried row.now) result }
    {
        self.keeps(truth(condition, row.cells()))
    }

    /// Whether a right row takes a left row out of a difference: in the low answer if it may be the
    /// same row, in the high answer if it is.
    fn takes_out(self, row: &Row, other: &[Masked]) -> bool
        ensures { result ≡ takes_out self (carried row.now) (map masked_of other.now) }
    {
        match self {
            Bound::Low => compatible(row.cells(), other),
            Bound::High => identical(row.cells(), other),
        }
    }

    /// Whether one of some right rows takes a left row out.
    pub(crate) fn some_takes_out(self, mut rows: Rows, row: &Row) -> bool
        ensures { result ≡ some (takes_out self (carried row.now)) (rows_left rows.entry) }
    {
        rows.any(|other| self.takes_out(row, other))
    }
}
