ghost use Rattle.std.specs.Prelude.{◌≡◌, ◌<◌, ◌≢◌};
ghost use Rattle.answer.specs.Notes.{Splits};

use crate::bound::Bound;
use crate::memo::Memo;
use crate::refusal::too_many_rows;
use crate::task::Task;
use semantics::Refusal;
use workspace::Block;

/// The certain and the possible rows of a query, as they stand in a workspace.
#[derive(Clone, Copy, PartialEq, Eq, Debug)]
pub(crate) struct Split {
    pub(crate) certain: Block,
    pub(crate) possible: Block,
}

/// The number of another record.
fn spare(number: usize) -> usize
    ensures low { result < 15 }
    ensures other { result ≢ number }
{
    usize::from(number == 0)
}

impl Task<'_, '_, '_> {
    /// The certain and the possible rows of the query, or the refusal where a high answer has too many
    /// rows. The possible ones are written to the region of another record.
    pub(crate) fn split(self, memo: &mut Memo) -> Result<Split, Refusal>
        ensures { Splits self.entry memo.old memo.new result }
    {
        self.overfull(memo)?;
        let root = self.plan.root().ok_or(Refusal::NotOneRelation(0))?;
        let certain = self.low(memo, root).ok_or(too_many_rows(root))?;
        let all = self.high(memo, root).ok_or(too_many_rows(root))?;
        memo.turn(Bound::Low, spare(root));
        let possible = memo.output.difference(Bound::High, all, certain);
        Ok(Split { certain, possible })
    }
}
