ghost use Rattle.semantics.specs.Reading.{questions, ReadsExactly, ReadsOneWay};
ghost use Rattle.book.specs.Books.{book_model};
ghost use Rattle.query.specs.Plans.{Checks};

use crate::plan::Plan;
use book::Book;
use records::Reader;
use semantics::Refusal;

/// Puts the questions to a query over the tables of a book, and answers its plan. Exactly the
/// well-formed queries pass, and the bytes of each are read in one way only.
#[tactic(auto, using(semantics::proofs::Trees::reads_one_way))]
pub fn check(query: &[u8], book: &Book) -> Result<Plan, Refusal>
    ensures plan { Checks (book_model book.now).columns query.now result (questions (book_model book.now).columns query.now) }
    ensures exact { ReadsExactly }
    ensures certain { ReadsOneWay }
{
    if !(1..=1024).contains(&query.len()) {
        return Err(Refusal::QueryLength);
    }
    let mut plan = Plan::empty();
    let mut reader = Reader {
        rest: query,
        place: 0,
    };
    while !reader.rest.is_empty() {
        if plan.is_full() {
            return Err(Refusal::TooManyRecords(reader.place));
        }
        let at = query.len() - reader.rest.len();
        reader.check()?;
        let (record, rest) = reader.read();
        let step = plan.grow(record, book)?;
        plan.push(at, step);
        reader = Reader {
            rest,
            place: plan.place(),
        };
    }
    if !plan.is_single() {
        return Err(Refusal::NotOneRelation(plan.place()));
    }
    Ok(plan)
}
