// Layer 1: reading books. A book's bytes are read once, into a value; nobody above this layer reads a byte of a book.
//
// What a client may cite: `Book`, a book as a value, whose meaning `book_of` gives (specs/Value.antt); `read`, which puts questions 1 to 5
// to bytes and hands out the book (specs/Reading.antt); `Book::sound`, which puts questions 2 to 5 to any value, and `SoundBook`, a book
// that passes them; `client_of`, `hours_of`, `amount_of` and `reserves_of`, what a value says of a bid by its number, `is_standing` of a
// client, and `supplies` of the kinds; `bytes`, big-endian numbers at any place of any bytes, for the sheet's reader.
// Each takes anything, asks nothing of its caller, and its contract gives its result by value. The laws of proofs/ that are `pub` say what
// a sound book is (Soundness, SoundRead), what a value says by number (Held), and what the questions say of the bytes (Refusals).
#![tactic(auto)]

mod asked;
pub mod bytes;
mod counts;
mod filling;
mod kinds;
mod layout;
mod limit;
mod paid;
mod reading;
mod sound;
mod tables;
mod test_of_value;
mod value;

pub use reading::{Reading, read};
pub use sound::SoundBook;
pub use value::{Book, Kind};
