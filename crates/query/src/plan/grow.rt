ghost use Rattle.std.specs.Prelude.{◌<◌, ◌≤◌, List, length};
ghost use Rattle.semantics.specs.declared.kind.Column.{Column};
ghost use Rattle.semantics.specs.Records.{table_record, project_record, product_record, union_record, difference_record};
ghost use Rattle.book.specs.Books.{book_model};
ghost use Rattle.records.specs.Saying.{Short};
ghost use Rattle.query.specs.Plans.{record_count, Grows, GrowsBy, SelectGrows, SidesIn};

use crate::kinds::Kinds;
use crate::plan::Plan;
use crate::step::{Sides, Step};
use book::Book;
use records::{Record, Terms};
use semantics::Refusal;

impl Plan {
    /// The last two relations.
    fn sides(&self) -> Result<Sides, Refusal>
        ensures { (columns : List (List Column)) → SidesIn columns self.now result }
    {
        let right = self.part()?.step;
        let short = Refusal::StackShort(self.place());
        let number = right.start.checked_sub(1).ok_or(short)?;
        let left = self.planned(number).ok_or(short)?.step;
        Ok(Sides {
            number,
            left,
            right,
        })
    }

    /// A table.
    fn table(&self, table: u8, book: &Book) -> Result<Step, Refusal>
        requires { record_count self.now < 15 }
        ensures { Grows (book_model book.now).columns self.now (table_record table) result }
    {
        let columns = book.columns(usize::from(table));
        if columns.is_empty() {
            return Err(Refusal::NoSuchName(self.place()));
        }
        Ok(Step {
            left: 0,
            start: self.records.len(),
            kinds: Kinds::of_columns(columns),
        })
    }

    /// A selection from the last relation.
    fn select(&self, body: &[u8]) -> Result<Step, Refusal>
        ensures { (columns : List (List Column)) → SelectGrows columns self.now body.now result }
    {
        let place = self.place();
        let part = self.part()?.step;
        let kinds = part.kinds;
        if !Terms::of(body).all(|term| kinds.pass(term)) {
            if !Terms::of(body).all(|term| kinds.has_columns_of(term)) {
                return Err(Refusal::NoSuchName(place));
            }
            return Err(Refusal::Unfit(place));
        }
        Ok(Step {
            left: self.records.len() - 1,
            start: part.start,
            kinds,
        })
    }

    /// A projection of the last relation.
    fn project(&self, listed: &[u8]) -> Result<Step, Refusal>
        requires { length listed.now ≤ 8 }
        ensures { (columns : List (List Column)) → Grows columns self.now (project_record listed.now) result }
    {
        let part = self.part()?.step;
        let picked = part.kinds.picked(listed);
        Ok(Step {
            left: self.records.len() - 1,
            start: part.start,
            kinds: picked.ok_or(Refusal::NoSuchName(self.place()))?,
        })
    }

    /// The product of the last two relations.
    fn product(&self) -> Result<Step, Refusal>
        ensures { (columns : List (List Column)) → Grows columns self.now product_record result }
    {
        let sides = self.sides()?;
        let joined = sides.left.kinds.joined(&sides.right.kinds);
        Ok(Step {
            left: sides.number,
            start: sides.left.start,
            kinds: joined.ok_or(Refusal::ProductTooWide(self.place()))?,
        })
    }

    /// The union or the difference of the last two relations.
    fn merge(&self) -> Result<Step, Refusal>
        ensures union { (columns : List (List Column)) → Grows columns self.now union_record result }
        ensures difference { (columns : List (List Column)) → Grows columns self.now difference_record result }
    {
        let sides = self.sides()?;
        if !sides.left.kinds.same(&sides.right.kinds) {
            return Err(Refusal::Unfit(self.place()));
        }
        Ok(Step {
            left: sides.number,
            start: sides.left.start,
            kinds: sides.left.kinds,
        })
    }

    /// What a record adds to the plan, once the questions about its parts have passed.
    pub(crate) fn grow(&self, said: Record, book: &Book) -> Result<Step, Refusal>
        requires { (record_count self.now < 15) × (Short said) }
        ensures { GrowsBy (book_model book.now).columns self.now said.entry result }
    {
        match said {
            Record::Table(number) => self.table(number, book),
            Record::Select(body) => self.select(body),
            Record::Project(listed) => self.project(listed),
            Record::Product => self.product(),
            Record::Union | Record::Difference => self.merge(),
        }
    }
}
