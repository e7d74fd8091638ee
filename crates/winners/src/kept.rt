// The clients whose bids may be taken: those that stand and are not discarded, as a set.
ghost use Rattle.std.specs.Prelude.{◌≡◌, ◌&&◌, not, ◌+◌};
ghost use Rattle.sets.specs.Sets.{has, set_of};
ghost use Rattle.book.specs.Book.{standing};
ghost use Rattle.book.specs.Value.{book_of};

use crate::client_sets;
use book::Book;

// Of a book's clients. Bit 0 of the discard byte is client 1.
pub(crate) fn kept_in(book: &Book, discard: u8) -> usize
    ensures { result ≡ set_of 6 (λ j. standing (book_of book.now) (1 + j) && not (has discard j)) }
{
    client_sets::of_those(|j| book.is_standing(j + 1) & !numbers::has(usize::from(discard), j))
}
