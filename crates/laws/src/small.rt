ghost use Rattle.laws.specs.Small.{CallsKeepBooksSmall};

/// Every book that is opened has at most 256 rows and 8 columns a table.
#[tactic(auto, using(semantics::proofs::Small::declare_narrow, semantics::proofs::Small::open_small, semantics::proofs::Small::store_small, semantics::proofs::Small::strike_small, semantics::proofs::Small::amend_small))]
pub fn calls_keep_books_small()
    ensures { CallsKeepBooksSmall }
{}
