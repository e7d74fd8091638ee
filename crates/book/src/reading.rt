// Reading a book: questions 1 to 5 in their order, and the book as a value. What comes after the first 'no' is not looked at, and no bid is
// put into an array before questions 1 to 3 are answered yes.
ghost use Rattle.book.specs.Reading.{ReadingIs};

use crate::value::Book;
use crate::{counts, filling, layout, tables, test_of_value};
use questions::Question;

// The length that the book gives itself, and the book.
#[derive(Clone, Copy, Default)]
#[repr(C)]
pub struct Reading {
    pub length: u16,
    pub book: Book,
}

// Reads a book from the front of any bytes; what follows it is not looked at.
pub fn read(input: &[u8]) -> Result<Reading, Question>
    ensures { ReadingIs input.now result }
{
    if !counts::is_version_good(input) {
        return Err(Question::Version);
    }
    if !counts::are_counts_good(input) {
        return Err(Question::Counts);
    }
    let k = layout::kinds(input);
    let kinds = filling::kinds(input);
    let statuses = layout::statuses(input);
    let kinds_good = tables::kinds_good(&kinds[..usize::from(k)]);
    if !(kinds_good & tables::statuses_good(statuses)) {
        return Err(Question::Tables);
    }
    let mut reading = Reading {
        length: layout::length(input),
        book: Book {
            k,
            kinds,
            n: layout::clients(input),
            caps: filling::caps(statuses),
            m: layout::bids(input),
            client: [0; 48],
            hours: [[0; 4]; 48],
            amount: [0; 48],
        },
    };
    filling::fill_bids(input, &mut reading.book);
    test_of_value::bids(&reading.book)?;
    Ok(reading)
}
