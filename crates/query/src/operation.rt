ghost use Rattle.std.specs.Prelude.{◌≡◌, true, false};
ghost use Rattle.query.specs.Operations.{operation_of, Lower};

use records::Record;

/// What a record says, with the numbers of the records that are its parts: of its only part, or of
/// the left and of the right one.
#[derive(Clone, Copy, PartialEq, Eq, Debug)]
pub enum Operation<'q> {
    Table(u8),
    Select(usize, &'q [u8]),
    Project(usize, &'q [u8]),
    Product(usize, usize),
    Union(usize, usize),
    Difference(usize, usize),
}

impl<'q> Operation<'q> {
    /// What a record says, where its parts have these numbers.
    pub(crate) fn of(said: Record<'q>, left: usize, right: usize) -> Operation<'q>
        ensures { result ≡ operation_of said.entry left right }
    {
        match said {
            Record::Table(table) => Operation::Table(table),
            Record::Select(condition) => Operation::Select(left, condition),
            Record::Project(columns) => Operation::Project(left, columns),
            Record::Product => Operation::Product(left, right),
            Record::Union => Operation::Union(left, right),
            Record::Difference => Operation::Difference(left, right),
        }
    }

    /// Whether its parts have lower numbers, and it lists at most 8 columns.
    pub(crate) fn is_lower(self, number: usize) -> bool
        ensures yes { result ≡ true → Lower number self.entry }
        ensures no { result ≡ false → Lower number self.entry → ⊥ }
    {
        match self {
            Operation::Table(_) => true,
            Operation::Select(part, _) => part < number,
            Operation::Project(part, columns) => part < number && columns.len() <= 8,
            Operation::Product(left, right)
            | Operation::Union(left, right)
            | Operation::Difference(left, right) => left < number && right < number,
        }
    }
}
