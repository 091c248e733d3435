ghost use Rattle.laws.specs.Replies.{ReplyExamples};

/// Bytes of replies and refusals are the ones worked by hand.
#[tactic(auto, unfolding(semantics::specs::Replies::reply_bytes))]
pub fn reply_examples()
    ensures { ReplyExamples }
{}
