ghost use Rattle.std.specs.Prelude.{◌≡◌, ◌+◌, ◌-◌, ◌^◌, ◌≤◌, length};
ghost use Rattle.std.proofs.Common.{ap, arith, length-append};

use crate::sink::Sink;

/// Counts the bytes, and keeps none.
#[derive(Drop)]
pub(crate) struct Count(pub(crate) usize);

impl Sink for Count {
    ghost room = { λ s. 2 ^ 64 - 1 - s.0 };

    ghost takes = { λ s xs t. t.0 ≡ s.0 + length xs };

    fn put(&mut self, bytes: &[u8]) {
        self.0 += bytes.len();
    }

    ghost takes_none = { λ s. Prim.omega arith };

    ghost takes_both = { λ s t u xs ys zs p q e. Prim.omega (arith, length-append xs ys, ap length e) };

    ghost takes_room = { λ s t xs h p. Prim.omega arith };
}
