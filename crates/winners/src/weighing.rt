// What the judging layer asks: whether bids are a combination of greatest value, and then v and σ of every set of them. One pass finds the
// values of all sets of clients, once the bids are a combination.
ghost use Rattle.book.specs.Value.{book_of, sound_number};
ghost use Rattle.winners.specs.Weighed.{WeighedIs};

use crate::places::ALL;
use crate::{choice, pass, values};
use book::{Book, SoundBook};
use questions::Question;

// v, the winners' clients with 0 past the last, and σ by set number.
#[derive(Clone, Copy, Default)]
pub struct Weighed {
    pub value: u64,
    pub clients: [u8; 6],
    pub sigma: [u64; 64],
}

// The bids of a sound book.
pub fn weigh_sound(sound: SoundBook, bids: &[u8]) -> Result<Weighed, Question>
    ensures { WeighedIs 0 (book_of sound.entry.book.now) bids.now result }
{
    let book = sound.book;
    if !choice::is_choice(book, bids) {
        return Err(Question::Combination);
    }
    let worth = choice::value_of(book, bids);
    let values = pass::weigh_all(sound, 0);
    let value = values[ALL];
    if worth != value {
        return Err(Question::Value);
    }
    let clients = choice::owners_of(book, bids);
    let sigma = values::sigma_by(&clients[..bids.len()], &values);
    Ok(Weighed {
        value,
        clients,
        sigma,
    })
}

// The same of a book that is a value.
pub fn weigh(book: &Book, bids: &[u8]) -> Result<Weighed, Question>
    ensures { WeighedIs (sound_number book.now) (book_of book.now) bids.now result }
{
    weigh_sound(book.sound()?, bids)
}
