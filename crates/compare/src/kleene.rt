ghost use Rattle.std.specs.Prelude.{◌≡◌};
ghost use Rattle.semantics.specs.Truths.{both, either, opposite, known, is_true, may_be_true};
ghost use Rattle.compare.specs.Truths.{truth_of};

use std::ops::Not;

/// What is known of a condition on a row, from false to true.
#[derive(Clone, Copy, PartialEq, Eq, PartialOrd, Ord, Debug)]
pub enum Truth {
    Fails,
    Unknown,
    Holds,
}

/// The truth of a test.
impl From<bool> for Truth {
    ghost from_gives = { λ test truth. truth_of truth ≡ known test };

    fn from(test: bool) -> Truth {
        if test { Truth::Holds } else { Truth::Fails }
    }
}

/// "Not" of Kleene's strong logic.
impl Not for Truth {
    type Output = Truth;

    ghost not_gives = { λ truth other. truth_of other ≡ opposite (truth_of truth) };

    fn not(self) -> Truth {
        match self {
            Truth::Fails => Truth::Holds,
            Truth::Unknown => Truth::Unknown,
            Truth::Holds => Truth::Fails,
        }
    }
}

impl Truth {
    /// "And" of Kleene's strong logic.
    pub(crate) fn and(self, other: Truth) -> Truth
        ensures { truth_of result ≡ both (truth_of self) (truth_of other) }
    {
        self.min(other)
    }

    /// "Or" of Kleene's strong logic.
    pub(crate) fn or(self, other: Truth) -> Truth
        ensures { truth_of result ≡ either (truth_of self) (truth_of other) }
    {
        self.max(other)
    }

    /// Whether it is true.
    pub fn is_true(self) -> bool
        ensures { result ≡ is_true (truth_of self) }
    {
        self == Truth::Holds
    }

    /// Whether it is true or unknown.
    pub fn may_be_true(self) -> bool
        ensures { result ≡ may_be_true (truth_of self) }
    {
        self != Truth::Fails
    }
}
