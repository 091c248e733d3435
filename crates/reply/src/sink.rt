ghost use Rattle.std.specs.Prelude.{◌≡◌, ℕ, ◌+◌, ◌≤◌, List, [], ◌++◌, length};

/// Takes bytes, one after another.
pub(crate) trait Sink {
    /// How many more bytes there is room for.
    ghost room: { Self → ℕ };

    /// What taking bytes makes of a sink.
    ghost takes: { Self → List ℕ → Self → Type 0 };

    /// Takes these bytes, behind those that it took before.
    fn put(&mut self, bytes: &[u8])
        requires { length bytes.now ≤ room self.old }
        ensures { takes self.old bytes.now self.new };

    /// To take no bytes is to stay as it is.
    ghost takes_none: { (s : Self) → takes s [] s };

    /// To take bytes and then others is to take the two together.
    ghost takes_both: { (s t u : Self) (xs ys zs : List ℕ) → takes s xs t → takes t ys u → xs ++ ys ≡ zs → takes s zs u };

    /// What is taken takes up room.
    ghost takes_room: { (s t : Self) (xs : List ℕ) → length xs ≤ room s → takes s xs t → room t + length xs ≡ room s };
}
