ghost use Rattle.std.specs.Prelude.{◌≡◌, ◌+◌, ◌<◌, ◌≤◌, [], ◌∷◌, ◌++◌, map, length};
ghost use Rattle.bounded.specs.Bounded.{items};
ghost use Rattle.semantics.specs.Compatible.{united};
ghost use Rattle.view.specs.Views.{masked_of};
ghost use Rattle.rows.specs.Rows.{group_after, United, AreGroups};

use bounded::Bounded;
use view::Masked;

/// Groups of cells, each of which goes by one of its cells. At first each cell is a group of its own.
/// Each pair in `united` was one union: the group that went by the first goes by the second since.
#[derive(Clone, Copy)]
pub(crate) struct Groups {
    pub(crate) united: Bounded<(Masked, Masked), 8>,
}

/// What a group goes by after a union.
#[tactic(auto, using(view::proofs::Same::equal_masked))]
#[inline(always)]
fn gone_by<'a>(group: &'a Masked, union: &'a (Masked, Masked)) -> &'a Masked
    ensures { masked_of result.now ≡ united (masked_of union.now.0) (masked_of union.now.1) (masked_of group.now) }
{
    if *group == union.0 { &union.1 } else { group }
}

impl Groups {
    /// Each cell in a group of its own.
    fn apart() -> Groups
        ensures { items result.united ≡ [] }
    {
        Groups {
            united: Bounded::new((Masked::ZERO, Masked::ZERO)),
        }
    }

    /// What the group of a cell goes by.
    #[inline(always)]
    pub(crate) fn of<'a>(&'a self, cell: &'a Masked) -> &'a Masked
        ensures { masked_of result.now ≡ group_after (items self.now.united) (masked_of cell.now) }
    {
        self.united.as_slice().iter().fold(cell, gone_by)
    }

    /// Puts two cells into one group.
    #[tactic(auto, using(crate::proofs::Uniting::united_by))]
    fn unite(&mut self, x: &Masked, y: &Masked)
        requires { length (items self.old.united) < 8 }
        ensures one { United (masked_of x.now) (masked_of y.now) (items self.old.united) (items self.new.united) }
        ensures few { length (items self.new.united) ≤ length (items self.old.united) + 1 }
    {
        let (first, second) = (self.of(x), self.of(y));
        if first != second {
            let union = (*first, *second);
            self.united.push(union).unwrap();
        }
    }

    /// The groups of the cells of two rows, where the two cells of each column are in one group.
    pub(crate) fn of_columns(a: &[Masked], b: &[Masked]) -> Groups
        requires { length a.now ≤ 8 }
        ensures { AreGroups (map masked_of a.now) (map masked_of b.now) (items result.united) }
    {
        let mut groups = Groups::apart();
        for (x, y) in a.iter().zip(b) {
            groups.unite(x, y);
        }
        groups
    }
}
