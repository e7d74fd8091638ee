// A book as a value that nobody read: one that was read, with some of its numbers changed, so that it may hold what no bytes can.
//
// Before the book's bytes stand a count of changes, and six bytes for each change: which field (0 k, 1 supply, 2 reserve, 3 n, 4 caps, 5 m,
// 6 client, 7 hours, 8 amount), the place in it, and the new number in four bytes, of which a narrow field takes the last. Hours of kind j
// of bid i, both from 0, have the place 4 i + j. A place that the field does not have changes nothing; bytes that are no sound book read as
// zeros, and these are then changed.
ghost use Rattle.std.specs.Prelude.{◌≤◌};

use crate::text::after;
use book::{Book, bytes};

// How many bytes a change takes.
const CHANGE: usize = 6;

// How many changes there are.
fn count_of(s: &[u8]) -> usize
    ensures { result ≤ 255 }
{
    usize::from(bytes::byte_at(s, 0))
}

// The bytes after the changes.
fn book_part(s: &[u8]) -> &[u8] {
    after(s, 1 + CHANGE * count_of(s))
}

// Makes a change at a place, where there is one.
fn at<T, F: FnOnce(&mut T)>(xs: &mut [T], place: usize, change: F)
    requires { F.IsAlwaysCallable change }
{
    if let Some(x) = xs.get_mut(place) {
        change(x);
    }
}

// Makes the change that the bytes begin with.
fn change(book: &mut Book, s: &[u8]) {
    let field = bytes::byte_at(s, 0);
    let place = usize::from(bytes::byte_at(s, 1));
    let low = bytes::byte_at(s, 5);
    match field {
        0 => book.k = low,
        1 => at(&mut book.kinds, place, |kind| kind.supply = low),
        2 => at(
            &mut book.kinds,
            place,
            |kind| kind.reserve = bytes::u16_at(s, 4),
        ),
        3 => book.n = low,
        4 => at(&mut book.caps, place, |cap| *cap = bytes::u16_at(s, 4)),
        6 => at(&mut book.client, place, |client| *client = low),
        7 => at(&mut book.hours, place / 4, |hours| hours[place % 4] = low),
        8 => at(
            &mut book.amount,
            place,
            |amount| *amount = bytes::u32_at(s, 2),
        ),
        _ => book.m = low,
    }
}

// The book with all its changes.
pub(crate) fn book_of(s: &[u8]) -> Book {
    let mut book = book::read(book_part(s)).unwrap_or_default().book;
    for i in 0..count_of(s) {
        change(&mut book, after(s, 1 + CHANGE * i));
    }
    book
}

// What follows the book's bytes; all of them where they are no sound book.
pub(crate) fn behind(s: &[u8]) -> &[u8] {
    let part = book_part(s);
    let reading = book::read(part).unwrap_or_default();
    after(part, usize::from(reading.length))
}
