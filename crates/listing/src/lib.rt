// What is printed of an input: its price list, or its refusal.
//
// What a client may cite: `price_list`, which takes any input and asks nothing, with its contract `Listed` (specs/Listing.antt): the text
// byte by byte, and that it fits; and `price_list_of`, which takes what a program has read of an input, with its contract `ListedRead`
// (specs/Readings.antt). A law in proofs/ says that an input cut past the longest call has the same text.
#![tactic(auto)]

ghost use Rattle.std.specs.Prelude.{◌≡◌, length, min};
ghost use Rattle.book.specs.Value.{book_of};
ghost use Rattle.text.specs.Text.{blank, pushes};
ghost use Rattle.listing.specs.Listing.{ending, line, winner_line, winner_lines, refused_text, Listed};
ghost use Rattle.listing.specs.Readings.{ListedRead};

use book::{Book, SoundBook};
use judge::sheet;
use text::Text;

// How much of an input is looked at: one byte more than the longest call has.
pub const LOOKED_AT: usize = 1407;

// A line from behind its first field on: a space and a number for each field, and a line feed.
fn push_ending(list: &mut Text, fields: &[u64])
    ensures { list.new ≡ pushes list.old (ending fields.now) }
{
    for &field in fields {
        list.push(b' ');
        list.push_decimal(field);
    }
    list.push(b'\n');
}

// A text's first line: a word, and numbers.
#[tactic(auto, using(text::proofs::Pushes::pushes_append))]
fn first_line(word: &[u8], fields: &[u64]) -> Text
    ensures { result ≡ pushes blank (line word.now fields.now) }
{
    let mut list = Text::new();
    list.push_all(word);
    push_ending(&mut list, fields);
    list
}

// A refusal's text.
#[tactic(auto, unfolding(crate::specs::Listing::refused_text, crate::specs::Listing::refused_word))]
fn refused(number: u32) -> Text
    ensures { result ≡ pushes blank (refused_text number) }
{
    first_line(b"refused", &[u64::from(number)])
}

// The line of a winner, by its bid number.
#[tactic(auto, using(text::proofs::Pushes::pushes_append), unfolding(crate::specs::Listing::winner_line))]
fn push_winner(list: &mut Text, book: &Book, bid: u8, price: u64)
    ensures { list.new ≡ pushes list.old (winner_line (book_of book.now) bid price) }
{
    let client = book.client_of(usize::from(bid));
    list.push_decimal(u64::from(client));
    push_ending(list, &[u64::from(bid), price]);
}

// The lines of the winners that have these bids, each with its price.
fn push_winners(list: &mut Text, book: &Book, bids: &[u8], prices: &[u64])
    ensures { list.new ≡ pushes list.old (winner_lines (book_of book.now) bids.now (min (length bids.now) (length prices.now)) prices.now) }
{
    for (&bid, &price) in bids.iter().zip(prices) {
        push_winner(list, book, bid, price);
    }
}

// The printed text of any input. Its book is read once, and the sheet is judged over the value.
pub fn price_list(input: &[u8]) -> Text
    ensures { Listed input.now result }
{
    let reading = match book::read(input) {
        Ok(reading) => reading,
        Err(question) => return refused(question.into()),
    };
    let part = &input[usize::from(reading.length)..];
    let sound = SoundBook {
        book: &reading.book,
    };
    let answer = judge::judge_sound(sound, part);
    if 0 < answer.number {
        return refused(answer.number);
    }
    let mut list = first_line(b"accepted", &[u64::from(answer.w), u64::from(answer.q)]);
    let bids = sheet::bids_of(part);
    let winning = &bids[..answer.w as usize];
    push_winners(&mut list, &reading.book, winning, &answer.prices);
    list
}

// The printed text of every input that begins with what was read of it, and is longer only where `LOOKED_AT` bytes were read.
#[tactic(auto, using(crate::proofs::Readings::read_listed))]
pub fn price_list_of(read: &[u8]) -> Text
    ensures { ListedRead LOOKED_AT read.now result }
{
    price_list(read)
}
