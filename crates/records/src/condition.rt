ghost use Rattle.std.specs.Prelude.{◌≡◌};
ghost use Rattle.semantics.specs.declared.refusal.Refusal.{Refusal};
ghost use Rattle.semantics.specs.Reading.{condition_form};
ghost use Rattle.records.specs.Saying.{Decided};

use crate::term::first_term;

/// Whether the body of a select is 1 to 15 condition records that leave one condition.
pub(crate) fn is_condition(body: &[u8]) -> bool
    ensures { (e : Refusal) → Decided result e (condition_form e body.now) }
{
    let mut rest = body;
    let mut depth = 0;
    for _ in 0..15usize {
        let Some((term, behind)) = first_term(rest) else {
            break;
        };
        let Some(next) = term.depth_after(depth) else {
            return false;
        };
        rest = behind;
        depth = next;
    }
    rest.is_empty() && depth == 1
}
