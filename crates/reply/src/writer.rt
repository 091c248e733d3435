ghost use Rattle.std.specs.Prelude.{◌≡◌, ◌++◌, ◌≤◌, length, take, drop};
ghost use Rattle.std.proofs.Common.{ap, arith, length-drop};
ghost use Rattle.std.proofs.lemmas.Grind.{common_steps};

use crate::sink::Sink;

/// Writes the bytes into a buffer, from its start on.
#[derive(Drop)]
pub(crate) struct Writer<'o> {
    pub(crate) out: &'o mut [u8],
    pub(crate) at: usize,
    ghost within: { at ≤ length out.now },
}

impl<'o> Sink for Writer<'o> {
    ghost room = { λ s. length (drop s.at s.out.now) };

    ghost takes = { λ s xs t.
        (t.out.ghost_name ≡ s.out.ghost_name)
        × (take t.at t.out.now ≡ take s.at s.out.now ++ xs)
        × (drop t.at t.out.now ≡ drop (length xs) (drop s.at s.out.now)) };

    fn put(&mut self, bytes: &[u8]) {
        let end = self.at + bytes.len();
        self.out[self.at..end].copy_from_slice(bytes);
        self.at = end;
    }

    ghost takes_none = { λ s. Prim.grind (arith, common_steps) };

    ghost takes_both = { λ s t u xs ys zs p q e. Prim.grind (arith, common_steps) };

    ghost takes_room = { λ s t xs h p. Prim.omega (arith, ap length p.2, length-drop (length xs) (drop s.at s.out.now)) };
}
