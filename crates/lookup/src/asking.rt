ghost use Rattle.std.specs.Prelude.{◌≡◌, length, replicate};
ghost use Rattle.laws.specs.Runs.{Laws};
ghost use Rattle.cells.specs.declared.cell.Cell.TheVariants.{Number};
ghost use Rattle.book.specs.Books.{book_model};
ghost use Rattle.view.specs.declared.masked.Masked.TheVariants.{Value};
ghost use Rattle.lookup.specs.Asking.{AskReplies};

use answer::answer;
use book::Book;
use drawing::draw;
use policy::Policy;
use query::check;
use semantics::Refusal;
use view::{Masked, View};
use workspace::clear;

/// Answers a broker's query about a book under a policy: writes the reply with the certain and the
/// possible rows, and says how long it is. What the outcomes of such calls keep, whatever is stored,
/// asked and hidden, are the laws.
// Not inlined: a program is large where it asks, and the loops over rows are best laid out by themselves.
#[inline(never)]
pub fn ask<P: Policy>(
    book: &Book<'_>,
    policy: &P,
    broker: u16,
    query: &[u8],
    work: &mut [Masked],
    reply: &mut [u8],
) -> Result<usize, Refusal>
    ensures replies { AskReplies (P.Policy.meaning policy.now) (book_model book.now) broker query.now work.old reply.old reply.new result }
    ensures cleared { work.new ≡ replicate (length work.old) (Value (Number 0)) }
    ensures keeps_the_laws { Laws (P.Policy.meaning policy.now) }
{
    match check(query, book) {
        Ok(plan) => {
            let mut view = View::new();
            draw(&mut view, book, policy, broker);
            answer(&view, &plan, query, work, reply)
        }
        Err(refusal) => {
            clear(work);
            Err(refusal)
        }
    }
}
