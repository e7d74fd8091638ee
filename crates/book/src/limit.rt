// Question 4's limit of eight bids for a client: the bids of one client after another are counted, and the loop ends with the first client
// that has more.
ghost use Rattle.std.specs.Prelude.{◌≡◌, ◌≤◌, length};
ghost use Rattle.book.specs.Lists.{all_to};
ghost use Rattle.book.specs.Book.{clients};
ghost use Rattle.book.specs.Questions.{few_bids};
ghost use Rattle.book.specs.Value.{book_of};
ghost use Rattle.book.specs.Room.{named};

use crate::value::Book;

// The most bids that a client may have.
const MOST_EACH: u8 = 8;

// How many bids with these clients are one client's: in one byte, so that a compiler counts sixteen at a time.
fn bids_of(who: u8, clients: &[u8]) -> u8
    requires { length clients.now ≤ 48 }
    ensures { result ≡ named who clients.now }
{
    clients.iter().map(|&client| u8::from(client == who)).sum()
}

// No client has more than eight bids.
pub(crate) fn few_for_each(book: &Book) -> bool
    ensures { let b = book_of book.now in result ≡ all_to (clients b) (few_bids b.bids) }
{
    let bids = &book.client[..book.bid_count()];
    for client in 1..=book.client_count() {
        if MOST_EACH < bids_of(client as u8, bids) {
            return false;
        }
    }
    true
}
