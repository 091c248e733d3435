ghost use Rattle.std.specs.Prelude.{◌≡◌, ◌*◌, ◌<◌, ◌≤◌, length, slice_index_or};
ghost use Rattle.answer.specs.Bounds as bounds;
ghost use Rattle.answer.specs.Memos.{Sound};

mod make;
mod write;

use crate::bound::Bound;
use crate::output::Output;
use workspace::Block;

/// The answers that have been found, each in its own region of a workspace, and the region of the one
/// that is made.
#[derive(Drop)]
pub(crate) struct Memo<'w> {
    pub(crate) output: Output<'w>,
    pub(crate) found: [Option<Block>; 30],
    ghost few: { output.limit ≤ 512 },
    ghost room: { 240 * output.limit ≤ length output.work.now },
    ghost sound: { Sound output.limit found },
}

impl Memo<'_> {
    ghost use Rattle.answer.specs.Notes as notes;
    ghost use Rattle.answer.specs.Notes.{Turned};
    ghost use Rattle.answer.specs.Regions.{InRegion};

    /// Turns to the region of a record's answer, which is without rows then.
    pub(crate) fn turn(&mut self, bound: Bound, number: usize)
        requires low { number < 15 }
        ensures { Turned bound number self.old self.new }
    {
        self.output.rows = Block {
            first: bound.region(number) * self.output.limit,
            count: 0,
            width: 0,
        };
    }

    /// The answer of a record, where it has been found.
    pub(crate) fn noted(&self, bound: Bound, number: usize) -> Option<Block>
        requires low { number < 15 }
        ensures { result ≡ slice_index_or self.now.found (bounds.region bound number) None }
    {
        self.found[bound.region(number)]
    }

    /// Notes the answer of a record, where one was made.
    fn note(&mut self, bound: Bound, number: usize, made: Option<Block>) -> Option<Block>
        requires low { number < 15 }
        requires within { InRegion self.old.output.limit (bounds.region bound number * self.old.output.limit) made }
        ensures limit { self.new.output.limit ≡ self.old.output.limit }
        ensures work { self.new.output.work.now ≡ self.old.output.work.now }
        ensures found { self.new.found ≡ notes.noted self.old.found (bounds.region bound number) made }
        ensures made { result ≡ made }
    {
        let block = made?;
        self.found[bound.region(number)] = Some(block);
        Some(block)
    }
}
