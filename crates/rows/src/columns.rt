ghost use Rattle.std.specs.Prelude.{◌≡◌, ◌&&◌};
ghost use Rattle.std.specs.List.{list_all, zip};
ghost use Rattle.semantics.specs.Compatible.{differ};
ghost use Rattle.view.specs.Views.{masked_of};
ghost use Rattle.rows.specs.Rows.{is_value, some_apart};

use view::Masked;

/// Whether both cells are values.
fn are_values(a: &Masked, b: &Masked) -> bool
    ensures { result ≡ (is_value (masked_of a.now) && is_value (masked_of b.now)) }
{
    matches!((a, b), (Masked::Value(_), Masked::Value(_)))
}

/// Whether the two cells can never be the same: two different values, or two different pseudonyms
/// of one domain.
#[tactic(auto, using(cells::proofs::Same::equal_cells))]
#[inline(always)]
pub(crate) fn differ(a: &Masked, b: &Masked) -> bool
    ensures { result ≡ differ (masked_of a.now) (masked_of b.now) }
{
    match (a, b) {
        (Masked::Value(x), Masked::Value(y)) => x != y,
        (
            Masked::Pseudonym { domain, index },
            Masked::Pseudonym {
                domain: d,
                index: n,
            },
        ) => domain == d && index != n,
        _ => false,
    }
}

/// Whether the two cells of some column differ.
pub(crate) fn some_differ(a: &[Masked], b: &[Masked]) -> bool
    ensures { result ≡ some_apart a.now b.now }
{
    a.iter().zip(b).any(|(x, y)| differ(x, y))
}

/// Whether the two cells of every column are values.
pub(crate) fn all_values(a: &[Masked], b: &[Masked]) -> bool
    ensures { result ≡ list_all (λ p. is_value (masked_of p.0) && is_value (masked_of p.1)) (zip a.now b.now) }
{
    a.iter().zip(b).all(|(x, y)| are_values(x, y))
}
