ghost use Rattle.laws.specs.Orderly.{CallsKeepBooksOrderly};

/// Every book that the calls make from proper values is orderly.
#[tactic(auto, using(semantics::proofs::Orderly::open_orderly, semantics::proofs::Orderly::store_orderly, semantics::proofs::Orderly::strike_orderly, semantics::proofs::Orderly::amend_orderly))]
pub fn calls_keep_books_orderly()
    ensures { CallsKeepBooksOrderly }
{}
