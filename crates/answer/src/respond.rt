ghost use Rattle.std.specs.Prelude.{◌≡◌, length, replicate};
ghost use Rattle.semantics.specs.Outcomes.{Kept};
ghost use Rattle.cells.specs.declared.cell.Cell.TheVariants.{Number};
ghost use Rattle.view.specs.declared.masked.Masked.TheVariants.{Value};
ghost use Rattle.answer.specs.Answering.{RepliesOver};

use crate::memo::Memo;
use crate::output::Output;
use crate::refusal::place;
use crate::task::Task;
use query::Plan;
use semantics::Refusal;
use view::{Masked, View};
use workspace::{Block, clear};

/// Writes the reply, and leaves the workspace as it comes.
fn respond(task: Task, work: &mut [Masked], reply: &mut [u8]) -> Result<usize, Refusal>
    ensures replies { let t = task.entry in RepliesOver t.view.now t.plan.now t.query.now (length work.old) reply.old reply.new result }
    ensures kept { Kept result reply.old reply.new }
{
    let limit = (work.len() / 240).min(512);
    let rows = Block {
        first: 0,
        count: 0,
        width: 0,
    };
    let mut memo = Memo {
        output: Output { work, limit, rows },
        found: [None; 30],
    };
    let rows = task.split(&mut memo)?;
    let size = memo.write(rows, reply);
    size.ok_or(Refusal::ReplyTooLong(place(task.plan.count())))
}

/// Answers a query over a view: writes the reply with its certain and possible rows, and says how
/// long it is. `plan` is the plan of `query`, and of a query over other tables nothing is promised
/// but that it is answered or refused. The workspace is cleared in every case.
pub fn answer(
    view: &View,
    plan: &Plan,
    query: &[u8],
    work: &mut [Masked],
    reply: &mut [u8],
) -> Result<usize, Refusal>
    ensures replies { RepliesOver view.now plan.now query.now (length work.old) reply.old reply.new result }
    ensures kept { Kept result reply.old reply.new }
    ensures cleared { work.new ≡ replicate (length work.old) (Value (Number 0)) }
{
    let result = respond(Task { view, plan, query }, work, reply);
    clear(work);
    result
}
