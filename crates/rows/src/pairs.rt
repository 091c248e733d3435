ghost use Rattle.std.specs.Prelude.{◌≡◌, ◌≤◌, map, length};
ghost use Rattle.std.specs.List.{list_all};
ghost use Rattle.bounded.specs.Bounded.{items};
ghost use Rattle.semantics.specs.Compatible.{group_of};
ghost use Rattle.view.specs.Views.{masked_of};
ghost use Rattle.rows.specs.Rows.{clash, agree, all_agree, cells_and_group, with_groups};

use crate::columns::differ;
use crate::groups::Groups;
use bounded::Bounded;
use view::Masked;

/// The two cells of a column of two rows, and what the one group that both are in goes by.
#[derive(Clone, Copy)]
pub(crate) struct Pair {
    pub(crate) left: Masked,
    pub(crate) right: Masked,
    pub(crate) group: Masked,
}

impl Pair {
    /// Whether a cell of one differs from a cell of the other.
    fn clashes(&self, other: &Pair) -> bool
        ensures { result ≡ clash (cells_and_group self.now) (cells_and_group other.now) }
    {
        differ(&self.left, &other.left)
            || differ(&self.left, &other.right)
            || differ(&self.right, &other.left)
            || differ(&self.right, &other.right)
    }

    /// Whether the two are in two groups, or no cell of one differs from a cell of the other.
    #[tactic(auto, using(view::proofs::Same::equal_masked))]
    fn agrees(&self, other: &Pair) -> bool
        ensures { result ≡ agree (cells_and_group self.now) (cells_and_group other.now) }
    {
        !(self.group == other.group && self.clashes(other))
    }

    /// Whether it agrees with each of the others.
    fn agrees_with_all(&self, others: &[Pair]) -> bool
        ensures { result ≡ list_all (λ other. agree (cells_and_group self.now) (cells_and_group other)) others.now }
    {
        others.iter().all(|other| self.agrees(other))
    }
}

/// The cells of each column of two rows, the first of at most 8 cells, with their group.
pub(crate) fn pairs(a: &[Masked], b: &[Masked]) -> Bounded<Pair, 8>
    requires { length a.now ≤ 8 }
    ensures { map cells_and_group (items result) ≡ with_groups (group_of (map masked_of a.now) (map masked_of b.now)) a.now b.now }
{
    let groups = Groups::of_columns(a, b);
    let mut pairs = Bounded::new(Pair {
        left: Masked::ZERO,
        right: Masked::ZERO,
        group: Masked::ZERO,
    });
    for (x, y) in a.iter().zip(b) {
        let pair = Pair {
            left: *x,
            right: *y,
            group: *groups.of(x),
        };
        pairs.push(pair).unwrap();
    }
    pairs
}

/// Whether each pair agrees with those after it.
pub(crate) fn all_agree(pairs: &[Pair]) -> bool
    ensures { result ≡ all_agree (map cells_and_group pairs.now) }
{
    match pairs.split_first() {
        Some((pair, others)) => pair.agrees_with_all(others) && all_agree(others),
        None => true,
    }
}
