// Question 4, of each bid of a book by itself. The loop ends with the first bid that is not good.
ghost use Rattle.std.specs.Prelude.{◌≡◌, ◌&&◌, ℕ, ◌-◌, ◌≤◌, ◌^◌, leb, get_or};
ghost use Rattle.book.specs.Lists.{within as within_range, all, row, total};
ghost use Rattle.book.specs.Book.{clients};
ghost use Rattle.book.specs.Questions.{bid_good};
ghost use Rattle.book.specs.Value.{book_of};

use crate::counts;
use crate::value::Book;

// The highest amount.
const MOST_AMOUNT: usize = 1000000;

// The least number in four bytes of which one of the first k is not 0, by k: each byte after those counts 256 times as much.
const LEAST: [u64; 5] = [0x1_0000_0000, 0x100_0000, 0x1_0000, 0x100, 1];

// The same, by a look-up: of a shift a compiler makes one for each bid.
fn least_with_hours(k: usize) -> u64
    requires { k ≤ 4 }
    ensures { result ≡ 256 ^ (4 - k) }
{
    LEAST[k]
}

// Whether four hours, as one number, reach the least that has an hour among the first k.
fn is_hour_asked(least: u64, hours: [u8; 4]) -> bool
    ensures { (k : ℕ) → k ≤ 4 → least ≡ 256 ^ (4 - k) → result ≡ leb 1 (total (row k 0 (λ j. get_or hours j 0))) }
{
    least <= u64::from(u32::from_be_bytes(hours))
}

// Whether a bid's client is one of n, it asks for an hour, and its amount is in range.
fn is_bid_good(client: u8, asks: bool, amount: u32, n: usize) -> bool
    ensures { result ≡ (within_range 1 client n && (asks && within_range 1 amount 1000000)) }
{
    let named = counts::within(1, usize::from(client), n);
    let paid = counts::within(1, amount as usize, MOST_AMOUNT);
    named & (asks & paid)
}

// Question 4 for all bids, but for the limit of eight.
pub(crate) fn every_bid_good(book: &Book) -> bool
    ensures { let b = book_of book.now in result ≡ all (bid_good (clients b)) b.bids }
{
    let least = least_with_hours(book.kind_count());
    let n = book.client_count();
    for i in 0..book.bid_count() {
        let asks = is_hour_asked(least, book.hours[i]);
        if !is_bid_good(book.client[i], asks, book.amount[i], n) {
            return false;
        }
    }
    true
}
