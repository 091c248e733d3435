ghost use Rattle.std.specs.Prelude.{◌≡◌};
ghost use Rattle.semantics.specs.Policies.{both_mean, either_mean};

use crate::policy::Policy;
use cells::Cell;
use semantics::Mark;

/// Two policies that both have to agree: the narrower mark.
#[derive(Drop)]
pub struct Both<P, Q> {
    pub first: P,
    pub second: Q,
}

/// Two policies of which one suffices: the wider mark.
#[derive(Drop)]
pub struct Either<P, Q> {
    pub first: P,
    pub second: Q,
}

impl<P: Policy, Q: Policy> Policy for Both<P, Q> {
    ghost meaning = { λ s. both_mean (P.Policy.meaning s.first) (Q.Policy.meaning s.second) };

    fn mark(&self, broker: u16, table: usize, row: &[Cell], column: usize) -> Mark {
        let first = self.first.mark(broker, table, row, column);
        let second = self.second.mark(broker, table, row, column);
        first.narrower(second)
    }
}

impl<P: Policy, Q: Policy> Policy for Either<P, Q> {
    ghost meaning = { λ s. either_mean (P.Policy.meaning s.first) (Q.Policy.meaning s.second) };

    fn mark(&self, broker: u16, table: usize, row: &[Cell], column: usize) -> Mark {
        let first = self.first.mark(broker, table, row, column);
        let second = self.second.mark(broker, table, row, column);
        first.wider(second)
    }
}
