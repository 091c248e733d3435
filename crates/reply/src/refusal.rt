ghost use Rattle.std.specs.Prelude.{◌≡◌};
ghost use Rattle.semantics.specs.Refusals.{refusal_number, refusal_place};
ghost use Rattle.semantics.specs.Replies.{refusal_bytes};

use crate::kinds::RecordKind;
use semantics::Refusal;

/// The record of a refusal: a body of two bytes, kind 0x23, the number and the place.
pub fn refusal_record(refusal: Refusal) -> [u8; 6]
    ensures { result ≡ refusal_bytes (refusal_number refusal) (refusal_place refusal) }
{
    let [low, high] = u16::from(RecordKind::Refusal).to_le_bytes();
    [2, 0, low, high, refusal.number(), refusal.place()]
}
