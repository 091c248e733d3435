ghost use Rattle.laws.specs.Sample.{SampleAnswers, SampleComparisons};
ghost use Rattle.laws.specs.SampleReplies.{SampleReplies};

/// Answers over a book of three tariffs are the ones worked by hand.
pub fn sample_answers()
    ensures { SampleAnswers }
{}

/// Comparisons are the ones worked by hand.
pub fn sample_comparisons()
    ensures { SampleComparisons }
{}

/// Replies over a book of three tariffs are, byte for byte, the ones worked by hand.
#[tactic(auto, unfolding(semantics::specs::Conditions::condition_bytes, semantics::specs::Reading::questions, semantics::specs::Records::encode, semantics::specs::Replies::reply_bytes, semantics::specs::Walks::walk))]
pub fn sample_replies()
    ensures { SampleReplies }
{}
