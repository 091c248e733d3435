ghost use Rattle.std.specs.Prelude.{◌≤◌, ◌++◌, map, length};
ghost use Rattle.std.specs.List.{flat_map};
ghost use Rattle.semantics.specs.Bytes.{record_bytes, two_bytes};
ghost use Rattle.semantics.specs.Replies.{row_bytes};
ghost use Rattle.view.specs.Views.{masked_of};
ghost use Rattle.workspace.specs.Rows.{rows_left};
ghost use Rattle.reply.specs.Kinds.{kind_number};

use crate::count::Count;
use crate::kinds::RecordKind;
use crate::row::put_cells;
use crate::sink::Sink;
use view::Masked;
use workspace::Rows;

/// Puts two numbers, each in two bytes, the low byte first.
fn put_pair<S: Sink>(to: &mut S, first: u16, second: u16)
    requires { 4 ≤ S.room to.old }
    ensures { S.takes to.old (two_bytes first ++ two_bytes second) to.new }
{
    to.put(&first.to_le_bytes());
    to.put(&second.to_le_bytes());
}

/// Puts the head of a record: the length of its body, and its kind.
fn put_head<S: Sink>(to: &mut S, size: u16, kind: RecordKind)
    requires { 4 ≤ S.room to.old }
    ensures { S.takes to.old (two_bytes size ++ two_bytes (kind_number kind)) to.new }
{
    put_pair(to, size, u16::from(kind));
}

/// Puts the first record of a reply: the counts of certain and of possible rows.
pub(crate) fn put_counts<S: Sink>(to: &mut S, certain: u16, possible: u16)
    requires { 8 ≤ S.room to.old }
    ensures { S.takes to.old (record_bytes 0x20 (two_bytes certain ++ two_bytes possible)) to.new }
{
    put_head(to, 4, RecordKind::Counts);
    put_pair(to, certain, possible);
}

/// Puts the record of a row: its head, and its cells one after another.
#[tactic(auto, using(crate::proofs::Sizes::cells_low))]
fn put_row<S: Sink>(to: &mut S, kind: RecordKind, row: &[Masked])
    requires narrow { length row.now ≤ 8 }
    requires fits { length (row_bytes (kind_number kind) (map masked_of row.now)) ≤ S.room to.old }
    ensures { S.takes to.old (row_bytes (kind_number kind) (map masked_of row.now)) to.new }
{
    let mut body = Count(0);
    put_cells(&mut body, row);
    // `as` keeps the size: 8 cells take at most 80 bytes.
    put_head(to, body.0 as u16, kind);
    put_cells(to, row);
}

/// Puts rows, each as a record of this kind.
#[tactic(auto, using(workspace::proofs::Reading::front_short))]
pub(crate) fn put_rows<S: Sink>(to: &mut S, kind: RecordKind, rows: Rows<'_>)
    requires { length (flat_map (row_bytes (kind_number kind)) (rows_left rows)) ≤ S.room to.old }
    ensures { S.takes to.old (flat_map (row_bytes (kind_number kind)) (rows_left rows.entry)) to.new }
{
    for row in rows {
        put_row(to, kind, row);
    }
}
