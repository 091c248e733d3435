ghost use Rattle.semantics.specs.Reading.{next_said};
ghost use Rattle.records.specs.Saying.{PassesAs, NextIs, ReadAs};

use crate::first::first_record;
use crate::kind::RecordKind;
use crate::record::Record;
use semantics::Refusal;

/// Reads a query record by record, in place: the bytes that are left, and the number of the record
/// that they begin with.
#[derive(Clone, Copy, PartialEq, Eq, Debug)]
pub struct Reader<'q> {
    pub rest: &'q [u8],
    pub place: u8,
}

impl<'q> Reader<'q> {
    /// Whether the next record is whole, of a known kind, and its body of the form of its kind.
    pub fn check(&self) -> Result<(), Refusal>
        ensures { PassesAs result (next_said self.now.place self.now.rest.now) }
    {
        let first = first_record(self.rest).ok_or(Refusal::BrokenRecord(self.place))?;
        let kind = RecordKind::try_from(first.kind).or(Err(Refusal::UnknownRecord(self.place)))?;
        match first.record(kind) {
            Some(_) => Ok(()),
            None => Err(Refusal::WrongForm(self.place)),
        }
    }

    /// The next record and the bytes after it, if it passes the check.
    fn next(self) -> Option<(Record<'q>, &'q [u8])>
        ensures { NextIs self.entry.place result (next_said self.entry.place self.entry.rest.now) }
    {
        let first = first_record(self.rest)?;
        let kind = RecordKind::try_from(first.kind).ok()?;
        Some((first.record(kind)?, first.rest))
    }

    /// The next record and the bytes after it; where it does not pass the check, table 0 and no bytes.
    pub fn read(self) -> (Record<'q>, &'q [u8])
        ensures { ReadAs self.entry.place result (next_said self.entry.place self.entry.rest.now) }
    {
        self.next().unwrap_or((Record::Table(0), &[]))
    }
}
