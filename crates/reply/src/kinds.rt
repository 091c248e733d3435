ghost use Rattle.std.specs.Prelude.{◌≡◌};
ghost use Rattle.reply.specs.Kinds.{cell_number, kind_number, CellFrom, KindFrom};

/// What a record holds.
#[derive(Clone, Copy, PartialEq, Eq, Debug)]
pub enum RecordKind {
    Counts = 0x20,
    Certain = 0x21,
    Possible = 0x22,
    Refusal = 0x23,
}

/// The byte in front of a cell, which says what it is.
#[derive(Clone, Copy, PartialEq, Eq, Debug)]
pub enum CellKind {
    Number = 1,
    Prefix = 2,
    Variable = 3,
    Pseudonym = 4,
}

/// Said of a number that no kind has.
#[derive(Clone, Copy, PartialEq, Eq, Debug)]
pub struct UnknownKind;

/// The number of the kind.
impl From<RecordKind> for u16 {
    ghost from_gives = { λ kind number. number ≡ kind_number kind };

    fn from(kind: RecordKind) -> u16 {
        kind as u16
    }
}

/// The kind of record with this number.
impl TryFrom<u16> for RecordKind {
    type Error = UnknownKind;

    ghost try_from_gives = { KindFrom };

    fn try_from(number: u16) -> Result<RecordKind, UnknownKind> {
        match number {
            0x20 => Ok(RecordKind::Counts),
            0x21 => Ok(RecordKind::Certain),
            0x22 => Ok(RecordKind::Possible),
            0x23 => Ok(RecordKind::Refusal),
            _ => Err(UnknownKind),
        }
    }
}

/// The byte of the kind.
impl From<CellKind> for u8 {
    ghost from_gives = { λ kind byte. byte ≡ cell_number kind };

    fn from(kind: CellKind) -> u8 {
        kind as u8
    }
}

/// The kind of cell with this byte.
impl TryFrom<u8> for CellKind {
    type Error = UnknownKind;

    ghost try_from_gives = { CellFrom };

    fn try_from(byte: u8) -> Result<CellKind, UnknownKind> {
        match byte {
            1 => Ok(CellKind::Number),
            2 => Ok(CellKind::Prefix),
            3 => Ok(CellKind::Variable),
            4 => Ok(CellKind::Pseudonym),
            _ => Err(UnknownKind),
        }
    }
}
