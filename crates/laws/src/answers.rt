ghost use Rattle.laws.specs.Answers.{LowRowsAreHighRows, ValuesGiveOneAnswer, FaithfulChangesSharpen, AnswersBoundTheUnmasked, WiderPoliciesSharpen, IndistinguishableBooksGiveSameAnswers};

/// What is certain is among what may be.
#[tactic(auto, using(crate::proofs::Bounded::low_rows_high))]
pub fn low_rows_are_high_rows()
    ensures { LowRowsAreHighRows }
{}

/// Where nothing is masked, nothing is uncertain.
#[tactic(auto, using(crate::proofs::Bounded::values_one))]
pub fn values_give_one_answer()
    ensures { ValuesGiveOneAnswer }
{}

/// Learning more about the cells of a view takes back no certain row and adds no row.
pub fn faithful_changes_sharpen()
    ensures { FaithfulChangesSharpen }
{}

/// Whatever the masked cells hold, the answer without masks has the certain rows, and no row but certain and possible ones.
#[tactic(auto, using(crate::proofs::Bounded::answers_bound))]
pub fn answers_bound_the_unmasked()
    ensures { AnswersBoundTheUnmasked }
{}

/// A policy that shows more takes back no certain row and adds no row.
pub fn wider_policies_sharpen()
    ensures { WiderPoliciesSharpen }
{}

/// Books that a broker cannot tell apart answer every query alike.
pub fn indistinguishable_books_give_same_answers()
    ensures { IndistinguishableBooksGiveSameAnswers }
{}
