ghost use Rattle.std.specs.Prelude.{◌≡◌};
ghost use Rattle.semantics.specs.Kinds.{kind_number, KindFrom};

use crate::refusal::Refusal;

/// What the cells of a column hold.
#[derive(Clone, Copy, PartialEq, Eq, Debug)]
pub enum Kind {
    Number = 1,
    Prefix = 2,
}

/// A column of a table: what its cells hold, and the domain that they may be linked in, 0 for none.
#[derive(Clone, Copy, PartialEq, Eq, Debug)]
pub struct Column {
    pub kind: Kind,
    pub domain: u8,
}

/// The kind with this number.
impl TryFrom<u8> for Kind {
    type Error = Refusal;

    ghost try_from_gives = { KindFrom };

    fn try_from(number: u8) -> Result<Kind, Refusal> {
        match number {
            1 => Ok(Kind::Number),
            2 => Ok(Kind::Prefix),
            _ => Err(Refusal::UnknownKind),
        }
    }
}

/// The number of the kind.
impl From<Kind> for u8 {
    ghost from_gives = { λ kind number. number ≡ kind_number kind };

    fn from(kind: Kind) -> u8 {
        kind as u8
    }
}
