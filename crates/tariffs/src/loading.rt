ghost use Rattle.std.specs.Prelude.{◌≡◌};
ghost use Rattle.laws.specs.Sample.{tariffs};
ghost use Rattle.book.specs.Books.{book_model};
ghost use Rattle.tariffs.specs.Worked.{WorkedExamples};

use crate::columns::tariff_columns;
use crate::rows::{THREE_TARIFFS, store};
use book::Book;
use cells::Cell;

/// The book of the three tariffs, for which this memory has just room.
#[tactic(auto, using(crate::proofs::Storing::next_row), unfolding(semantics::specs::Conditions::condition_bytes, semantics::specs::Reading::questions, semantics::specs::Records::encode, semantics::specs::Replies::reply_bytes, semantics::specs::Walks::walk))]
pub fn three_tariffs(memory: &mut [Cell; 96]) -> Book<'_>
    ensures book { book_model result ≡ tariffs }
    ensures worked { WorkedExamples }
{
    let mut book = tariff_columns().open(memory);
    for (digits, carrier, price) in THREE_TARIFFS {
        store(&mut book, 0, digits.as_bytes(), carrier, price).unwrap();
    }
    book
}
