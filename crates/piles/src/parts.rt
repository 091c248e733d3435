ghost use Rattle.std.specs.Prelude.{◌≡◌, [], map, replicate};
ghost use Rattle.cells.specs.Cells.{cell_value};
ghost use Rattle.piles.specs.Piles.{filters_at, register_at};

use cells::Cell;
use policy::{Consents, Filters, Policy};
use semantics::Mark;
use std::array;

/// The policies that piles are made of: four of filters and four registers, numbered from 0.
#[derive(Drop)]
pub struct Parts {
    pub filters: [Filters; 4],
    pub registers: [Consents; 4],
}

impl Parts {
    /// Filters without rules and registers without entries.
    pub fn new() -> Parts
        ensures filters { result.filters ≡ replicate 4 [] }
        ensures registers { result.registers ≡ replicate 4 [] }
    {
        Parts {
            filters: array::from_fn(|_| Filters::new()),
            registers: array::from_fn(|_| Consents::new()),
        }
    }

    /// The mark of the filters of a number; hidden where there are none.
    pub(crate) fn by_filters(
        &self,
        number: usize,
        broker: u16,
        table: usize,
        row: &[Cell],
        column: usize,
    ) -> Mark
        ensures { result ≡ filters_at self.now number broker table (map cell_value row.now) column }
    {
        match self.filters.get(number) {
            Some(filters) => filters.mark(broker, table, row, column),
            None => Mark::Hidden,
        }
    }

    /// The mark of the register of a number; hidden where there is none.
    pub(crate) fn by_register(
        &self,
        number: usize,
        broker: u16,
        table: usize,
        row: &[Cell],
        column: usize,
    ) -> Mark
        ensures { result ≡ register_at self.now number broker table (map cell_value row.now) column }
    {
        match self.registers.get(number) {
            Some(register) => register.mark(broker, table, row, column),
            None => Mark::Hidden,
        }
    }
}
