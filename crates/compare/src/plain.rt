ghost use Rattle.std.specs.Prelude.{◌≡◌};
ghost use Rattle.semantics.specs.Truths.{below, covers, shorter, plainly};
ghost use Rattle.cells.specs.Cells.{cell_value};
ghost use Rattle.compare.specs.Plains.{plain_of};

use cells::Cell;
use semantics::Operator;

/// A value as it is compared: a number, or the digits of a prefix where they lie.
#[derive(Clone, Copy, PartialEq, Eq)]
pub(crate) enum Plain<'a> {
    Number(u32),
    Digits(&'a [u8]),
}

/// The value of a cell.
impl<'a> From<&'a Cell> for Plain<'a> {
    ghost from_gives = { λ cell plain. plain_of plain ≡ cell_value cell.now };

    fn from(cell: &'a Cell) -> Plain<'a> {
        match cell {
            Cell::Number(number) => Plain::Number(*number),
            Cell::Prefix(prefix) => Plain::Digits(prefix.digits()),
        }
    }
}

/// Whether the first value is a number below the second.
fn below(left: Plain<'_>, right: Plain<'_>) -> bool
    ensures { result ≡ below (plain_of left.entry) (plain_of right.entry) }
{
    match (left, right) {
        (Plain::Number(a), Plain::Number(b)) => a < b,
        _ => false,
    }
}

/// Whether the second prefix begins with the first; a number covers itself.
#[tactic(auto, using(crate::proofs::Digits::starts_begins))]
fn covers(left: Plain<'_>, right: Plain<'_>) -> bool
    ensures { result ≡ covers (plain_of left.entry) (plain_of right.entry) }
{
    match (left, right) {
        (Plain::Number(a), Plain::Number(b)) => a == b,
        (Plain::Digits(a), Plain::Digits(b)) => b.starts_with(a),
        _ => false,
    }
}

/// Whether the first prefix has fewer digits than the second.
fn shorter(left: Plain<'_>, right: Plain<'_>) -> bool
    ensures { result ≡ shorter (plain_of left.entry) (plain_of right.entry) }
{
    match (left, right) {
        (Plain::Digits(a), Plain::Digits(b)) => a.len() < b.len(),
        _ => false,
    }
}

/// The operators on two values.
pub(crate) fn plainly(operator: Operator, left: Plain<'_>, right: Plain<'_>) -> bool
    ensures { result ≡ plainly operator (plain_of left.entry) (plain_of right.entry) }
{
    match operator {
        Operator::Equal => left == right,
        Operator::Unequal => left != right,
        Operator::Less => below(left, right),
        Operator::AtMost => below(left, right) || left == right,
        Operator::Covers => covers(left, right),
        Operator::Shorter => shorter(left, right),
    }
}
