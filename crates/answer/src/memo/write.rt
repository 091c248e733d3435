ghost use Rattle.answer.specs.Answering.{WritesSplit};

use crate::memo::Memo;
use crate::task::split::Split;
use reply::write_reply;

impl Memo<'_> {
    /// Writes the certain and the possible rows, where the reply has room for them.
    pub(crate) fn write(&self, rows: Split, reply: &mut [u8]) -> Option<usize>
        ensures { WritesSplit self.now.output.work.now rows reply.old reply.new result }
    {
        write_reply(self.output.work, rows.certain, rows.possible, reply)
    }
}
