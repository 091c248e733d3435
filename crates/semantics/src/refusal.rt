ghost use Rattle.std.specs.Prelude.{◌≡◌};
ghost use Rattle.semantics.specs.Refusals.{refusal_number, refusal_place, refusal_meaning};

use std::error::Error;
use std::fmt;

/// Why a call is refused, and where. A refusal without a place has place 0.
#[derive(Clone, Copy, PartialEq, Eq, Debug)]
pub enum Refusal {
    /// The table's number is not 0 to 3.
    NoTable,
    /// The table has 8 columns already.
    TooManyColumns,
    /// The kind's number is not 1 or 2.
    UnknownKind,
    /// The domain is above 15, or holds columns of the other kind.
    WrongDomain,
    /// More than 8 bytes, or one that is no decimal digit.
    NotPrefix,
    /// The table has no row of this number.
    NoRow,
    /// The table has no column of this number.
    NoColumn,
    /// The row has not as many cells as the table has columns, or none.
    WrongWidth,
    /// The cell at this place is not of its column's kind.
    WrongKind(u8),
    /// The table holds as many rows as it may.
    TableFull,
    /// The query is empty or longer than 1,024 bytes.
    QueryLength,
    /// Fifteen records stand before this one.
    TooManyRecords(u8),
    /// The record's head or body is cut short.
    BrokenRecord(u8),
    /// The record's kind is not 1 to 6.
    UnknownRecord(u8),
    /// The record's body has not the form of its kind.
    WrongForm(u8),
    /// The record takes more relations than are on the stack.
    StackShort(u8),
    /// The record names a table or a column that does not exist.
    NoSuchName(u8),
    /// The kinds that the record brings together do not fit.
    Unfit(u8),
    /// The product has more than 8 columns.
    ProductTooWide(u8),
    /// Not exactly one relation is left after these many records.
    NotOneRelation(u8),
    /// The record's high answer has more rows than the workspace holds.
    TooManyRows(u8),
    /// The reply is longer than its buffer; the query has these many records.
    ReplyTooLong(u8),
    /// The policy has 16 rules already.
    TooManyRules,
    /// The register has 64 entries already.
    RegisterFull,
}

impl Refusal {
    /// The number of the refusal.
    pub fn number(self) -> u8
        ensures { result ≡ refusal_number self }
    {
        match self {
            Refusal::NoTable => 1,
            Refusal::TooManyColumns => 2,
            Refusal::UnknownKind => 3,
            Refusal::WrongDomain => 4,
            Refusal::NotPrefix => 5,
            Refusal::NoRow => 6,
            Refusal::NoColumn => 7,
            Refusal::WrongWidth => 8,
            Refusal::WrongKind(_) => 9,
            Refusal::TableFull => 10,
            Refusal::QueryLength => 11,
            Refusal::TooManyRecords(_) => 12,
            Refusal::BrokenRecord(_) => 13,
            Refusal::UnknownRecord(_) => 14,
            Refusal::WrongForm(_) => 15,
            Refusal::StackShort(_) => 16,
            Refusal::NoSuchName(_) => 17,
            Refusal::Unfit(_) => 18,
            Refusal::ProductTooWide(_) => 19,
            Refusal::NotOneRelation(_) => 20,
            Refusal::TooManyRows(_) => 21,
            Refusal::ReplyTooLong(_) => 22,
            Refusal::TooManyRules => 23,
            Refusal::RegisterFull => 24,
        }
    }

    /// Where the fault is: a cell, a record or a count of records; 0 where the refusal names no place.
    pub fn place(self) -> u8
        ensures { result ≡ refusal_place self }
    {
        match self {
            Refusal::WrongKind(place)
            | Refusal::TooManyRecords(place)
            | Refusal::BrokenRecord(place)
            | Refusal::UnknownRecord(place)
            | Refusal::WrongForm(place)
            | Refusal::StackShort(place)
            | Refusal::NoSuchName(place)
            | Refusal::Unfit(place)
            | Refusal::ProductTooWide(place)
            | Refusal::NotOneRelation(place)
            | Refusal::TooManyRows(place)
            | Refusal::ReplyTooLong(place) => place,
            _ => 0,
        }
    }

    /// What the refusal says, in words.
    pub fn meaning(self) -> &'static str
        ensures { result.now ≡ refusal_meaning self }
    {
        match self {
            Refusal::NoTable => "there is no such table",
            Refusal::TooManyColumns => "the table has 8 columns already",
            Refusal::UnknownKind => "there is no such kind of column",
            Refusal::WrongDomain => "the domain does not take this column",
            Refusal::NotPrefix => "not a prefix of at most 8 decimal digits",
            Refusal::NoRow => "the table has no such row",
            Refusal::NoColumn => "the table has no such column",
            Refusal::WrongWidth => "not as many cells as columns, or none",
            Refusal::WrongKind(_) => "the cell is not of its column's kind",
            Refusal::TableFull => "the table is full",
            Refusal::QueryLength => "the query is empty or too long",
            Refusal::TooManyRecords(_) => "more than 15 records",
            Refusal::BrokenRecord(_) => "the record is cut short",
            Refusal::UnknownRecord(_) => "there is no such kind of record",
            Refusal::WrongForm(_) => "the record's body has a wrong form",
            Refusal::StackShort(_) => "too few relations for the record",
            Refusal::NoSuchName(_) => "no such table or column",
            Refusal::Unfit(_) => "the kinds do not fit",
            Refusal::ProductTooWide(_) => "the product is wider than 8 columns",
            Refusal::NotOneRelation(_) => "not exactly one relation is left",
            Refusal::TooManyRows(_) => "too many rows for the workspace",
            Refusal::ReplyTooLong(_) => "the reply does not fit its buffer",
            Refusal::TooManyRules => "the policy has 16 rules already",
            Refusal::RegisterFull => "the register has 64 entries already",
        }
    }
}

/// As it is shown to a person.
impl fmt::Display for Refusal {
    fn fmt<W: fmt::Write>(&self, f: &mut fmt::Formatter<W>) -> fmt::Result {
        let number = self.number();
        let place = self.place();
        let meaning = self.meaning();
        write!(f, "refused {number} at {place}: {meaning}")
    }
}

impl Error for Refusal {}
