ghost use Rattle.std.specs.Prelude.{◌≡◌};
ghost use Rattle.records.specs.RecordKinds.{record_kind_number, term_kind_number, RecordKindFrom, TermKindFrom, RecordsNumbered, TermsNumbered};

/// What a record of a query says of its relation, by the number that stands in its head.
#[derive(Clone, Copy, PartialEq, Eq, Debug)]
pub enum RecordKind {
    Table = 1,
    Select = 2,
    Project = 3,
    Product = 4,
    Union = 5,
    Difference = 6,
}

/// What a record of a condition says, by the number that stands in its head.
#[derive(Clone, Copy, PartialEq, Eq, Debug)]
pub enum TermKind {
    ByColumn = 0x10,
    ByNumber = 0x11,
    ByPrefix = 0x12,
    And = 0x13,
    Or = 0x14,
    Not = 0x15,
}

/// Said of a number that no kind has.
#[derive(Clone, Copy, PartialEq, Eq, Debug)]
pub struct UnknownKind;

/// The number of the kind.
impl From<RecordKind> for u16 {
    ghost from_gives = { λ kind number. number ≡ record_kind_number kind };

    #[tactic(auto, using(crate::proofs::Numbers::records_numbered))]
    fn from(relation: RecordKind) -> u16
        ensures value { result ≡ record_kind_number relation }
        ensures written { RecordsNumbered }
    {
        relation as u16
    }
}

/// The number of the kind.
impl From<TermKind> for u16 {
    ghost from_gives = { λ kind number. number ≡ term_kind_number kind };

    #[tactic(auto, using(crate::proofs::Numbers::terms_numbered))]
    fn from(term: TermKind) -> u16
        ensures value { result ≡ term_kind_number term }
        ensures written { TermsNumbered }
    {
        term as u16
    }
}

/// The kind with this number.
impl TryFrom<u16> for RecordKind {
    type Error = UnknownKind;

    ghost try_from_gives = { RecordKindFrom };

    fn try_from(number: u16) -> Result<RecordKind, UnknownKind> {
        match number {
            1 => Ok(RecordKind::Table),
            2 => Ok(RecordKind::Select),
            3 => Ok(RecordKind::Project),
            4 => Ok(RecordKind::Product),
            5 => Ok(RecordKind::Union),
            6 => Ok(RecordKind::Difference),
            _ => Err(UnknownKind),
        }
    }
}

/// The kind with this number.
impl TryFrom<u16> for TermKind {
    type Error = UnknownKind;

    ghost try_from_gives = { TermKindFrom };

    fn try_from(number: u16) -> Result<TermKind, UnknownKind> {
        match number {
            0x10 => Ok(TermKind::ByColumn),
            0x11 => Ok(TermKind::ByNumber),
            0x12 => Ok(TermKind::ByPrefix),
            0x13 => Ok(TermKind::And),
            0x14 => Ok(TermKind::Or),
            0x15 => Ok(TermKind::Not),
            _ => Err(UnknownKind),
        }
    }
}
