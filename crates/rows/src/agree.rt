ghost use Rattle.std.specs.Prelude.{◌≡◌, ◌≤◌, false, map, length};
ghost use Rattle.semantics.specs.Compatible.{compatible};
ghost use Rattle.view.specs.Views.{masked_of};
ghost use Rattle.rows.specs.Rows.{some_apart, CompatibleIff};

use crate::columns::{all_values, some_differ};
use crate::pairs::{all_agree, pairs};
use view::Masked;

/// Whether two rows of one length, at most 8, are compatible, by the groups of their cells, where
/// the two cells of no column differ.
fn groups_agree(a: &[Masked], b: &[Masked]) -> bool
    requires few { length a.now ≤ 8 }
    requires long { length a.now ≡ length b.now }
    requires none_apart { some_apart a.now b.now ≡ false }
    ensures { result ≡ compatible (map masked_of a.now) (map masked_of b.now) }
{
    all_agree(pairs(a, b).as_slice())
}

/// Whether two rows of one length are compatible. Of rows longer than 8 that do not hold values alone
/// the answer is false.
#[tactic(auto, using(crate::proofs::Columnwise::values_compatible, crate::proofs::Columnwise::columns_apart))]
fn columns_agree(a: &[Masked], b: &[Masked]) -> bool
    requires { length a.now ≡ length b.now }
    ensures { length a.now ≤ 8 → result ≡ compatible (map masked_of a.now) (map masked_of b.now) }
{
    !some_differ(a, b) && (all_values(a, b) || (a.len() <= 8 && groups_agree(a, b)))
}

/// Whether the two rows may be the same row: they are equally long, and some value for each
/// variable and pseudonym makes them the same. No row of a view has more than 8 cells; of longer
/// rows that do not hold values alone the answer is false.
pub fn compatible(a: &[Masked], b: &[Masked]) -> bool
    ensures test { length a.now ≤ 8 → result ≡ compatible (map masked_of a.now) (map masked_of b.now) }
    ensures means { CompatibleIff (map masked_of a.now) (map masked_of b.now) result }
{
    a.len() == b.len() && columns_agree(a, b)
}
