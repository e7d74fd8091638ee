// What operations over a book that is a value ask: of a number or a list, which stand before the book, or of a sheet behind it.
use crate::change::{behind, book_of};
use crate::over_bytes;
use crate::text::after;
use book::{Book, bytes};
use judge::Prices;
use questions::Question;
use std::array;
use winners::{SigmaTable, Weighed, Worth};

// Of a number, which the first byte says.
pub(crate) fn numbered<N: From<u8>, T, F: FnOnce(&Book, N) -> T>(s: &[u8], ask: F) -> T
    requires { F.IsAlwaysCallable ask }
{
    over_bytes::numbered(s, |rest, number| ask(&book_of(rest), number))
}

// Of a list: how many, then six places. Past these it has zeros.
fn listed<T, F: FnOnce(&Book, &[u8]) -> T>(s: &[u8], ask: F) -> T
    requires { F.IsAlwaysCallable ask }
{
    let count = usize::from(bytes::byte_at(s, 0));
    let list: [u8; 255] = array::from_fn(|i| if i < 6 { bytes::byte_at(s, 1 + i) } else { 0 });
    ask(&book_of(after(s, 7)), &list[..count])
}

// A bid's client, amount and reserves.
pub(crate) fn bid(book: &Book, number: usize) -> [u64; 3] {
    [
        book.client_of(number).into(),
        book.amount_of(number).into(),
        book.reserves_of(number),
    ]
}

// The greatest value without the clients of a discard byte. Here and below in a closure, as in over_bytes.rt.
pub(crate) fn worth(s: &[u8]) -> Worth {
    numbered(s, |book, discard| winners::greatest_of(book, discard)).into()
}

// The greatest value, and σ of the sets of a list of clients.
pub(crate) fn table(s: &[u8]) -> SigmaTable {
    listed(s, |book, clients| winners::surpluses_of(book, clients)).into()
}

// A list of bids, weighed.
pub(crate) fn weighed(s: &[u8]) -> Result<Weighed, Question> {
    listed(s, |book, bids| winners::weigh(book, bids))
}

// A sheet, judged.
pub(crate) fn judged(s: &[u8]) -> Prices {
    judge::judge_over(&book_of(s), behind(s))
}
