ghost use Rattle.laws.specs.ReadBack.{RepliesAreReadBack};

/// Two answers whose replies have the same bytes are the same answer.
#[tactic(auto, using(semantics::proofs::ReadBack::reply_back))]
pub fn replies_are_read_back()
    ensures { RepliesAreReadBack }
{}
