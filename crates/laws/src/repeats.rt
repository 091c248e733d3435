ghost use Rattle.laws.specs.Repeats.{AnswersHaveNoRepeats};

/// No row stands twice in an answer to a well-formed query.
#[tactic(auto, using(crate::proofs::NoRepeats::no_repeats))]
pub fn answers_have_no_repeats()
    ensures { AnswersHaveNoRepeats }
{}
