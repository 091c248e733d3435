/// What a record of a query says. The conditions of a select and the columns of a project stay
/// parts of the query.
#[derive(Clone, Copy, PartialEq, Eq, Debug)]
pub enum Record<'q> {
    Table(u8),
    Select(&'q [u8]),
    Project(&'q [u8]),
    Product,
    Union,
    Difference,
}
