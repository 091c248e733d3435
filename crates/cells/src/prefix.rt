ghost use Rattle.std.specs.Prelude.{◌≡◌, ℕ, ◌<◌, ◌≤◌, true, ◌&&◌, length, nat_le, take, slice_index};
ghost use Rattle.semantics.specs.Lists.{every};
ghost use Rattle.semantics.specs.Outcomes.{AnswersAs};
ghost use Rattle.semantics.specs.Values.{is_digit, prefix_from};

use semantics::Refusal;
use std::{fmt, str};

/// A prefix of 0 to 8 decimal digits, each as its character. The places past its digits hold 0.
#[derive(Clone, Copy, PartialEq, Eq, Debug)]
pub struct Prefix {
    places: [u8; 8],
    count: u8,
    ghost short: { count ≤ 8 },
    ghost eight: { length places ≡ 8 },
    ghost decimal: { every is_digit (take count places) ≡ true },
    ghost blank: { ((k : ℕ) → count ≤ k → slice_index places k ≡ 0) },
}

/// Whether each byte is the character of a decimal digit.
fn all_digits(bytes: &[u8]) -> bool
    ensures { result ≡ every is_digit bytes.now }
{
    bytes.iter().all(|byte| byte.is_ascii_digit())
}

/// Whether the bytes are the digits of a prefix.
pub fn is_prefix(bytes: &[u8]) -> bool
    ensures { result ≡ (nat_le (length bytes.now) 8 && every is_digit bytes.now) }
{
    bytes.len() <= 8 && all_digits(bytes)
}

impl Prefix {
    ghost use Rattle.cells.specs.Prefixes.{digits_of, Canonical};

    /// At most 8 digits, and 0 in the places past them.
    fn padded(digits: &[u8]) -> Prefix
        requires { (length digits.now ≤ 8) × (every is_digit digits.now ≡ true) }
        ensures { digits_of result ≡ digits.now }
    {
        let count = digits.len();
        let mut places = [0; 8];
        places[0..count].copy_from_slice(digits);
        // `as` keeps the count, which is at most 8.
        Prefix {
            places,
            count: count as u8,
        }
    }

    /// The prefix with these digits.
    pub fn from_bytes(bytes: &[u8]) -> Result<Prefix, Refusal>
        ensures { AnswersAs digits_of result (prefix_from bytes.now) }
    {
        if !is_prefix(bytes) {
            return Err(Refusal::NotPrefix);
        }
        Ok(Prefix::padded(bytes))
    }

    /// The digits of the prefix.
    pub fn digits(&self) -> &[u8]
        ensures { result.now ≡ digits_of self.now }
    {
        &self.places[..usize::from(self.count)]
    }

    /// Prefixes with the same digits are the same structure.
    #[tactic(auto, using(crate::proofs::Canonical::canonical))]
    pub(crate) fn are_canonical()
        ensures { Canonical }
    {}
}

/// Its digits.
impl fmt::Display for Prefix {
    fn fmt<W: fmt::Write>(&self, f: &mut fmt::Formatter<W>) -> fmt::Result {
        f.pad(str::from_utf8(self.digits()).or(Err(fmt::Error))?)
    }
}
