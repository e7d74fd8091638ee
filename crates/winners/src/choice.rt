// Whether a list of bids is a combination by strictly rising client, with its value and clients: the only place where that is tested.
ghost use Rattle.std.specs.Prelude.{◌≡◌, ◌≤◌, length};
ghost use Rattle.book.specs.Book.{clients, supplies};
ghost use Rattle.book.specs.Value.{book_of};
ghost use Rattle.market.specs.Combination.{is_combination};
ghost use Rattle.winners.specs.Combinations.{market, worth};
ghost use Rattle.winners.specs.Weighed.{choice_good, owners_of, six};

use crate::hours;
use crate::places::CLIENTS;
use book::Book;

// Each bid may follow the one before it: its client stands and comes after the last, and it fits the hours left. Where there is no bid of
// that number its client is nobody, which is 0. The loop ends with the first that may not.
fn all_follow(book: &Book, bids: &[u8]) -> bool
    ensures { result ≡ is_combination (market (book_of book.now)) (clients (book_of book.now)) (supplies (book_of book.now)) bids.now }
{
    let mut last = 0;
    let mut left = book.supplies();
    for &bid in bids {
        let number = usize::from(bid);
        let client = usize::from(book.client_of(number));
        let asked = book.hours_of(number);
        let follows = (last < client) & book.is_standing(client) & hours::fit(asked, left);
        if !follows {
            return false;
        }
        last = client;
        let rest = hours::rest(asked, left);
        left = rest;
    }
    true
}

// At most six bids, and question 8.
#[tactic(auto, unfolding(crate::specs::Weighed::choice_good))]
pub(crate) fn is_choice(book: &Book, bids: &[u8]) -> bool
    ensures { result ≡ choice_good (book_of book.now) bids.now }
{
    bids.len() <= CLIENTS && all_follow(book, bids)
}

// The sum of the bids' amounts.
pub(crate) fn value_of(book: &Book, bids: &[u8]) -> u64
    requires { length bids.now ≤ 6 }
    ensures { result ≡ worth (book_of book.now) bids.now }
{
    bids.iter()
        .map(|&bid| u64::from(book.amount_of(usize::from(bid))))
        .sum()
}

// The bids' clients, in the first places of six.
pub(crate) fn owners_of(book: &Book, bids: &[u8]) -> [u8; 6]
    requires { length bids.now ≤ 6 }
    ensures { result ≡ six (owners_of (book_of book.now) bids.now) }
{
    let mut owners = [0; CLIENTS];
    for (i, &bid) in bids.iter().enumerate() {
        owners[i] = book.client_of(usize::from(bid));
    }
    owners
}
