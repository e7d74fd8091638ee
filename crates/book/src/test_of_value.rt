// Questions 4 and 5 put to a book that is a value.
ghost use Rattle.std.specs.Prelude.{◌≡◌};
ghost use Rattle.questions.specs.Numbers.{number_in};
ghost use Rattle.book.specs.Book.{clients};
ghost use Rattle.book.specs.Value.{book_of};
ghost use Rattle.book.specs.Room.{bids_refusal};

use crate::value::Book;
use crate::{asked, limit, paid};
use questions::Question;

// The first of questions 4 and 5 that is answered no. What comes after it is not looked at.
#[tactic(auto, unfolding(crate::specs::Room::bids_refusal))]
pub(crate) fn bids(book: &Book) -> Result<(), Question>
    ensures { let b = book_of book.now in number_in result ≡ bids_refusal (clients b) b.kinds b.bids }
{
    if !asked::every_bid_good(book) || !limit::few_for_each(book) {
        return Err(Question::Bids);
    }
    if !paid::amounts_good(book) {
        return Err(Question::Reserves);
    }
    Ok(())
}
