ghost use Rattle.laws.specs.Indistinguishable.{IndistinguishableBooksHaveEqualViews};

/// Books that a broker cannot tell apart look the same to the broker.
#[tactic(auto, using(crate::proofs::EqualViews::indistinguishable_equal))]
pub fn indistinguishable_books_have_equal_views()
    ensures { IndistinguishableBooksHaveEqualViews }
{}
