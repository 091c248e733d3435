ghost use Rattle.laws.specs.Wider.{TranslationGivesTheWiderView};

/// The view of a wider policy is the narrower view, translated cell by cell.
#[tactic(auto, using(crate::proofs::Translation::translation_gives))]
pub fn translation_gives_the_wider_view()
    ensures { TranslationGivesTheWiderView }
{}
