// Numbers and answers printed, a space before each number. After the number of a refusal stand zeros, where an answer has its own.
use book::{Book, Reading};
use judge::Prices;
use judge::sheet::SheetReading;
use questions::Question;
use std::fmt::Display;
use std::io;
use winners::{SigmaTable, Weighed, Worth};

pub(crate) fn number(out: &impl Print, n: impl Display + Copy) -> io::Result<()> {
    print!(out; " {n}")
}

pub(crate) fn numbers<T: Display>(out: &impl Print, xs: &[T]) -> io::Result<()> {
    for x in xs {
        print!(out; " {x}")?;
    }
    Ok(())
}

pub(crate) fn worth(out: &impl Print, found: Worth) -> io::Result<()> {
    numbers(out, &[found.number, found.value])
}

// The greatest value of the book in bytes without the clients of each discard byte.
pub(crate) fn worths(out: &impl Print, s: &[u8]) -> io::Result<()> {
    for discard in 0..=u8::MAX {
        worth(out, winners::greatest_value(s, discard))?;
    }
    Ok(())
}

pub(crate) fn table(out: &impl Print, found: SigmaTable) -> io::Result<()> {
    number(out, found.number)?;
    number(out, found.value)?;
    numbers(out, &found.sigma)
}

pub(crate) fn prices(out: &impl Print, found: Prices) -> io::Result<()> {
    numbers(out, &[found.number, found.w, found.q])?;
    numbers(out, &found.prices)
}

// A bid's place and numbers, unless they are all 0.
fn print_bid(
    out: &impl Print,
    i: usize,
    client: u8,
    hours: [u8; 4],
    amount: u32,
) -> io::Result<()> {
    if client == 0 && amount == 0 && hours == [0; 4] {
        return Ok(());
    }
    number(out, i)?;
    number(out, client)?;
    numbers(out, &hours)?;
    number(out, amount)
}

// Every number of a book, of the bids' those that are not all 0.
fn print_book(out: &impl Print, book: &Book) -> io::Result<()> {
    number(out, book.k)?;
    numbers(out, &book.kinds.map(|kind| kind.supply))?;
    numbers(out, &book.kinds.map(|kind| kind.reserve))?;
    number(out, book.n)?;
    numbers(out, &book.caps)?;
    number(out, book.m)?;
    for (i, &client) in book.client.iter().enumerate() {
        print_bid(out, i, client, book.hours[i], book.amount[i])?;
    }
    Ok(())
}

// A book's length and numbers.
pub(crate) fn reading(out: &impl Print, answer: Result<Reading, Question>) -> io::Result<()> {
    number(out, questions::number_in(&answer))?;
    let Reading { length, book } = answer.unwrap_or_default();
    number(out, length)?;
    print_book(out, &book)
}

// The winners' bids, then a certificate's figures: four numbers, four columns by winner and two by set.
pub(crate) fn sheet(out: &impl Print, answer: Result<SheetReading, Question>) -> io::Result<()> {
    number(out, questions::number_in(&answer))?;
    let sheet = answer.unwrap_or_default();
    let figures = sheet.figures;
    numbers(out, &sheet.bids)?;
    numbers(out, &[figures.w, figures.q, figures.s, figures.g])?;
    for by_winner in [&figures.x, &figures.z, &figures.r, &figures.t] {
        numbers(out, by_winner)?;
    }
    for by_set in [&figures.y, &figures.u] {
        numbers(out, by_set)?;
    }
    Ok(())
}

// v, the winners' clients, and σ by set.
pub(crate) fn weighed(out: &impl Print, answer: Result<Weighed, Question>) -> io::Result<()> {
    number(out, questions::number_in(&answer))?;
    let found = answer.unwrap_or_default();
    number(out, found.value)?;
    numbers(out, &found.clients)?;
    numbers(out, &found.sigma)
}
