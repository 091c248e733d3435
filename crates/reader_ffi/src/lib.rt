//! The reader of queries for programs in other languages, over fixed columns: table 0 has a prefix in
//! domain 1 and two numbers, table 1 has two numbers.

#![tactic(auto)]

ghost use Rattle.std.specs.Prelude.{◌≡◌, slice_get};
ghost use Rattle.query.specs.Kinds.{kinds_in};
ghost use Rattle.query.specs.Plans.{Checks};
ghost use Rattle.tariffs.specs.Columns.{reader_tables};
ghost use Rattle.reader_ffi.specs.Reader.{outcome, refused_number, place_in, kind_in, KindOf, bare};

use cells::Cell;
use query::{Kinds, Plan, check};
use semantics::{Kind, Refusal};
use tariffs::reader_columns;

/// The plan of a query, or its refusal.
fn read(query: &[u8]) -> Result<Plan, Refusal>
    ensures { Checks reader_tables query.now result (outcome query.now) }
{
    let mut memory = [Cell::ZERO; 32];
    let book = reader_columns().open(&mut memory);
    check(query, &book)
}

/// The kind of a column, if there is one of this number.
fn kind_of(kinds: &Kinds, column: usize) -> Option<Kind>
    ensures { result ≡ slice_get (kinds_in kinds.now) column }
{
    kinds.listed().get(column).copied()
}

/// The kind of a column of the relation of a plan's query, if it has a column of this number.
fn column_kind(plan: &Plan, column: usize) -> Option<Kind>
    ensures { KindOf plan.now column result }
{
    kind_of(&plan.kinds()?, column)
}

/// The kind of a column of a query's relation, if the query passes and has a column of this number.
fn kind(query: &[u8], column: usize) -> Option<Kind>
    ensures { result ≡ kind_in (outcome query.now) column }
{
    match read(query) {
        Ok(plan) => column_kind(&plan, column),
        Err(_) => None,
    }
}

// The three functions answer with bare numbers, as the C interface has no Result and no Option.

/// The number that a query is refused with, 0 where it passes.
#[unsafe(no_mangle)]
pub extern "C" fn reader_number(query: &[u8]) -> u8
    ensures { result ≡ refused_number (outcome query.now) }
{
    read(query).err().map_or(0, |refusal| refusal.number())
}

/// The place of a refusal, or the count of records of a query that passes.
#[unsafe(no_mangle)]
pub extern "C" fn reader_place(query: &[u8]) -> usize
    ensures { result ≡ place_in (outcome query.now) }
{
    match read(query) {
        Ok(plan) => plan.count(),
        Err(refusal) => usize::from(refusal.place()),
    }
}

/// The kind of a column of a query's relation, 0 where it has none of this number.
#[unsafe(no_mangle)]
pub extern "C" fn reader_kind(query: &[u8], column: usize) -> u8
    ensures { result ≡ bare (kind_in (outcome query.now) column) }
{
    kind(query, column).map_or(0, u8::from)
}
