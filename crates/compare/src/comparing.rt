ghost use Rattle.std.specs.Prelude.{◌≡◌};
ghost use Rattle.semantics.specs.Truths.{compare};
ghost use Rattle.semantics.specs.Views.{value};
ghost use Rattle.view.specs.Views.{masked_of};
ghost use Rattle.compare.specs.Plains.{plain_of};
ghost use Rattle.compare.specs.Truths.{truth_of};

use crate::kleene::Truth;
use crate::plain::{Plain, plainly};
use semantics::Operator;
use view::Masked;

/// What is known of a comparison of a cell with a value.
pub(crate) fn compare_with(operator: Operator, left: &Masked, right: Plain<'_>) -> Truth
    ensures { truth_of result ≡ compare operator (masked_of left.now) (value (plain_of right.entry)) }
{
    match left {
        Masked::Value(cell) => Truth::from(plainly(operator, Plain::from(cell), right)),
        _ => Truth::Unknown,
    }
}

/// What is known of a comparison of two cells.
#[tactic(auto, using(view::proofs::Same::equal_masked))]
pub fn compare(operator: Operator, left: &Masked, right: &Masked) -> Truth
    ensures { truth_of result ≡ compare operator (masked_of left.now) (masked_of right.now) }
{
    use Masked::{Pseudonym, Value, Variable};
    use Operator::{AtMost, Covers, Equal, Less, Shorter, Unequal};

    match (left, right, operator) {
        (Value(a), Value(b), _) => Truth::from(plainly(operator, Plain::from(a), Plain::from(b))),
        (Variable { .. }, Variable { .. }, Equal | AtMost | Covers) if left == right =>
            Truth::Holds,
        (Variable { .. }, Variable { .. }, Unequal | Less | Shorter) if left == right =>
            Truth::Fails,
        (Pseudonym { .. }, Pseudonym { .. }, Equal | AtMost | Covers) if left == right =>
            Truth::Holds,
        (Pseudonym { .. }, Pseudonym { .. }, Unequal | Less | Shorter) if left == right =>
            Truth::Fails,
        (Pseudonym { domain, .. }, Pseudonym { domain: d, .. }, Equal) if domain == d =>
            Truth::Fails,
        (Pseudonym { domain, .. }, Pseudonym { domain: d, .. }, Unequal) if domain == d =>
            Truth::Holds,
        _ => Truth::Unknown,
    }
}
