ghost use Rattle.std.specs.Prelude.{◌≡◌, map};
ghost use Rattle.semantics.specs.declared.refusal.Refusal.{Refusal};
ghost use Rattle.semantics.specs.Conditions.{Condition};
ghost use Rattle.semantics.specs.Outcomes.{done};
ghost use Rattle.semantics.specs.Reading.{condition_form};
ghost use Rattle.semantics.specs.Truths.{truth};
ghost use Rattle.view.specs.Views.{masked_of};
ghost use Rattle.compare.specs.Truths.{truth_of};

use crate::kleene::Truth;
use crate::truths::Truths;
use records::Terms;
use view::Masked;

/// What is known of a condition, the body of a select, on a row.
#[tactic(auto, using(crate::proofs::Walking::truth_on_top))]
pub fn truth(condition: &[u8], row: &[Masked]) -> Truth
    ensures { (e : Refusal) (c : Condition) → condition_form e condition.now ≡ done c → truth_of result ≡ truth c (map masked_of row.now) }
{
    let mut truths = Truths::none();
    for term in Terms::of(condition) {
        truths.step(term, row);
    }
    truths.pop()
}
