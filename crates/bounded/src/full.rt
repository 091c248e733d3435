/// What is said where a list has no room.
#[derive(Clone, Copy, PartialEq, Eq, Debug)]
pub struct Full;
