ghost use Rattle.std.specs.Prelude.{◌<◌};

use crate::kinds::Kinds;

/// What a record adds to a plan: the number of its left or only part, the number of the first
/// record of its relation, and the kinds of the relation's columns.
#[derive(Clone, Copy, PartialEq, Eq, Debug)]
pub(crate) struct Step {
    pub(crate) left: usize,
    pub(crate) start: usize,
    pub(crate) kinds: Kinds,
    ghost low: { start < 15 },
}

/// The last two relations of a plan, and the number of the left one.
#[derive(Clone, Copy, PartialEq, Eq, Debug)]
pub(crate) struct Sides {
    pub(crate) number: usize,
    pub(crate) left: Step,
    pub(crate) right: Step,
}
