ghost use Rattle.std.specs.Prelude.{◌≤◌, length};
ghost use Rattle.semantics.specs.Replies.{reply_bytes};
ghost use Rattle.workspace.specs.Blocks.{block_rows};
ghost use Rattle.workspace.specs.Rows.{rows_left};
ghost use Rattle.reply.specs.Writing.{Written};

use crate::count::Count;
use crate::kinds::RecordKind;
use crate::record::{put_counts, put_rows};
use crate::sink::Sink;
use crate::writer::Writer;
use std::iter::ExactSizeIterator;
use view::Masked;
use workspace::{Block, Rows};

/// Puts a reply: the counts of certain and of possible rows, and the rows.
#[tactic(auto, using(crate::proofs::Assembling::reply_length_lem, workspace::proofs::Reading::few_rows))]
fn put_reply<S: Sink>(to: &mut S, certain: Rows<'_>, possible: Rows<'_>)
    requires { length (reply_bytes (rows_left certain) (rows_left possible)) ≤ S.room to.old }
    ensures { S.takes to.old (reply_bytes (rows_left certain.entry) (rows_left possible.entry)) to.new }
{
    // `as` keeps the counts: a block has at most 15,360 rows.
    put_counts(to, certain.len() as u16, possible.len() as u16);
    put_rows(to, RecordKind::Certain, certain);
    put_rows(to, RecordKind::Possible, possible);
}

/// Writes the reply with these certain and possible rows at the start of the buffer, and says how
/// long it is. Where it does not fit, the buffer is unaltered.
#[tactic(auto, using(crate::proofs::Assembling::reply_low))]
pub fn write_reply(
    work: &[Masked],
    certain: Block,
    possible: Block,
    out: &mut [u8],
) -> Option<usize>
    ensures { Written (reply_bytes (block_rows work.now certain) (block_rows work.now possible)) out.old out.new result }
{
    let mut size = Count(0);
    put_reply(&mut size, certain.rows(work), possible.rows(work));
    if size.0 > out.len() {
        return None;
    }
    let mut writer = Writer { out, at: 0 };
    put_reply(&mut writer, certain.rows(work), possible.rows(work));
    Some(writer.at)
}
