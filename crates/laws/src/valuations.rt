ghost use Rattle.laws.specs.Valuations.{OwnValuesAreALawfulValuation, LawfulValuationsAreFaithful};

/// What the book holds is one of the things that its view may stand for.
pub fn own_values_are_a_lawful_valuation()
    ensures { OwnValuesAreALawfulValuation }
{}

/// A lawful valuation keeps values, and keeps the pseudonyms of a domain apart.
#[tactic(auto, using(crate::proofs::Bounded::lawful_faithful))]
pub fn lawful_valuations_are_faithful()
    ensures { LawfulValuationsAreFaithful }
{}
