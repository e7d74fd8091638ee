// The reserves of hours in a book's arrays, and question 5. Two bids are taken at a time, their hours in one number, so that one
// multiplication for each kind does for both. The loop ends with the first bid that is not good.
ghost use Rattle.std.specs.Prelude.{◌≡◌, ◌*◌, ◌/◌, ◌%◌, ◌<◌, leb};
ghost use Rattle.book.specs.Lists.{all};
ghost use Rattle.book.specs.Questions.{reserves_met};
ghost use Rattle.book.specs.Value.{book_of};
ghost use Rattle.book.specs.Room.{products, second_bid, FourHours, Both};

use crate::kinds;
use crate::value::{Book, Kind};

// What a byte stays below.
const BYTE: u64 = 256;

// What the hours of the second, third and fourth kind count where a bid's hours are one number.
const SECOND_KIND: u64 = 256;

const THIRD_KIND: u64 = 65536;

const FOURTH_KIND: u64 = 16777216;

// What the second of two bids counts where the hours, or the reserves, of both are one number.
const SECOND_BID: u64 = 4294967296;

// The reserves of the hours of one kind: a byte times two bytes, which three bytes hold.
fn reserves_of_one(hours: u8, kind: Kind) -> u64
    ensures { (result ≡ hours * kind.reserve) × (result < 16777216) }
{
    u64::from(hours) * u64::from(kind.reserve)
}

// The reserves of four hours.
pub(crate) fn reserves_of_four(hours: [u8; 4], kinds: [Kind; 4]) -> u64
    ensures { result ≡ products hours kinds }
{
    let first = reserves_of_one(hours[0], kinds[0]);
    let second = reserves_of_one(hours[1], kinds[1]);
    let third = reserves_of_one(hours[2], kinds[2]);
    let fourth = reserves_of_one(hours[3], kinds[3]);
    first + second + third + fourth
}

// The hours of two bids, as one number: of the bytes a compiler makes one load.
fn eight_hours(first: [u8; 4], second: [u8; 4]) -> u64
    ensures { FourHours first result × FourHours second (result / second_bid) }
{
    u64::from(u32::from_le_bytes(first)) + u64::from(u32::from_le_bytes(second)) * SECOND_BID
}

// The reserves of the hours of one kind of two bids, in one number as the hours are: these stand in the lowest byte of each half.
fn reserves_of_two(number: u64, kind: Kind) -> u64
    ensures { Both (number % 256 * kind.reserve) (number / second_bid % 256 * kind.reserve) result }
{
    (number % BYTE + number / SECOND_BID % BYTE * SECOND_BID) * u64::from(kind.reserve)
}

// The reserves of the hours of two bids, in one number.
fn reserves_of_eight(first: [u8; 4], second: [u8; 4], kinds: [Kind; 4]) -> u64
    ensures { (result % second_bid ≡ products first kinds) × (result / second_bid ≡ products second kinds) }
{
    let number = eight_hours(first, second);
    let first_kind = reserves_of_two(number, kinds[0]);
    let second_kind = reserves_of_two(number / SECOND_KIND, kinds[1]);
    let third_kind = reserves_of_two(number / THIRD_KIND, kinds[2]);
    let fourth_kind = reserves_of_two(number / FOURTH_KIND, kinds[3]);
    first_kind + second_kind + third_kind + fourth_kind
}

// Whether an amount is no less than some reserves.
fn is_met(least: u64, amount: u32) -> bool
    ensures { result ≡ leb least amount }
{
    least <= u64::from(amount)
}

// Question 5 for all bids.
pub(crate) fn amounts_good(book: &Book) -> bool
    ensures { let b = book_of book.now in result ≡ all (reserves_met b.kinds) b.bids }
{
    let kinds = kinds::first_of(book.kind_count(), book.kinds);
    let m = book.bid_count();
    for pair in 0..m / 2 {
        let i = 2 * pair;
        let both = reserves_of_eight(book.hours[i], book.hours[i + 1], kinds);
        if !is_met(both % SECOND_BID, book.amount[i]) {
            return false;
        }
        if !is_met(both / SECOND_BID, book.amount[i + 1]) {
            return false;
        }
    }
    if m % 2 == 0 {
        return true;
    }
    let last = m - 1;
    is_met(reserves_of_four(book.hours[last], kinds), book.amount[last])
}
