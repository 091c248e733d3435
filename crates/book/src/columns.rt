use bounded::Bounded;
use semantics::Column;

/// The columns of one table.
pub(crate) type Columns = Bounded<Column, 8>;
