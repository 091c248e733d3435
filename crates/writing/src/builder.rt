ghost use Rattle.std.specs.Prelude.{◌≡◌, [], map};
ghost use Rattle.semantics.specs.Records.{table_record, project_record, product_record, union_record, difference_record};
ghost use Rattle.records.specs.RecordKinds.{record_kind_number};
ghost use Rattle.records.specs.Terms.{term_of};
ghost use Rattle.writing.specs.Queries.{query_bytes};
ghost use Rattle.writing.specs.Writing.{Appends, SelectWritten, Writes};

use crate::condition::condition;
use crate::error::WriteError;
use crate::record::record;
use records::{RecordKind, Term};
use std::alloc::Global;

/// The bytes of a query in the making.
#[derive(Drop)]
pub struct Query {
    bytes: Vec<u8>,
}

impl Query {
    /// No records.
    pub fn new(heap: Global) -> Query
        ensures { query_bytes result ≡ [] }
    {
        Query {
            bytes: Vec::new(heap),
        }
    }

    /// The bytes of the records so far.
    pub fn bytes(&self) -> &[u8]
        ensures { result.now ≡ query_bytes self.now }
    {
        self.bytes.as_slice()
    }

    /// Appends a record.
    fn record(&mut self, kind: RecordKind, body: &[u8]) -> Result<(), WriteError>
        ensures { Appends (record_kind_number kind) body.now (query_bytes self.old) result (query_bytes self.new) }
    {
        record(&mut self.bytes, u16::from(kind), body)
    }

    /// Appends: the rows of a table.
    pub fn table(&mut self, number: u8) -> Result<(), WriteError>
        ensures { Writes (table_record number) (query_bytes self.old) result (query_bytes self.new) }
    {
        self.record(RecordKind::Table, &[number])
    }

    /// Appends: the rows of the relation before it for which the conditions, parts first, hold.
    #[tactic(auto, using(crate::proofs::Selecting::refused))]
    pub fn select(&mut self, conditions: &[Term<'_>]) -> Result<(), WriteError>
        ensures { SelectWritten (map term_of conditions.now) (query_bytes self.old) result (query_bytes self.new) }
    {
        let mut body = Vec::new(*self.bytes.allocator());
        for term in conditions {
            condition(&mut body, *term)?;
        }
        self.record(RecordKind::Select, body.as_slice())
    }

    /// Appends: these columns of the relation before it.
    pub fn project(&mut self, columns: &[u8]) -> Result<(), WriteError>
        ensures { Writes (project_record columns.now) (query_bytes self.old) result (query_bytes self.new) }
    {
        self.record(RecordKind::Project, columns)
    }

    /// Appends: each row of the relation before the last one, followed by each row of the last one.
    pub fn product(&mut self) -> Result<(), WriteError>
        ensures { Writes product_record (query_bytes self.old) result (query_bytes self.new) }
    {
        self.record(RecordKind::Product, &[])
    }

    /// Appends: the rows of the relation before the last one, and then those of the last one.
    pub fn union(&mut self) -> Result<(), WriteError>
        ensures { Writes union_record (query_bytes self.old) result (query_bytes self.new) }
    {
        self.record(RecordKind::Union, &[])
    }

    /// Appends: the rows of the relation before the last one that are no rows of the last one.
    pub fn difference(&mut self) -> Result<(), WriteError>
        ensures { Writes difference_record (query_bytes self.old) result (query_bytes self.new) }
    {
        self.record(RecordKind::Difference, &[])
    }
}
