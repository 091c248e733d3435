ghost use Rattle.std.specs.Prelude.{◌≡◌};
ghost use Rattle.semantics.specs.Marks.{narrower_mark, wider_mark};

/// How much of a cell a broker may see, from narrow to wide.
#[derive(Clone, Copy, PartialEq, Eq, PartialOrd, Ord, Debug)]
pub enum Mark {
    /// Nothing but that the cell is there.
    Hidden,
    /// Which other linked cells of its domain hold the same value.
    Linked,
    /// The value.
    Shown,
}

impl Mark {
    /// The narrower of two marks.
    pub fn narrower(self, other: Mark) -> Mark
        ensures { result ≡ narrower_mark self other }
    {
        self.min(other)
    }

    /// The wider of two marks.
    pub fn wider(self, other: Mark) -> Mark
        ensures { result ≡ wider_mark self other }
    {
        self.max(other)
    }
}
