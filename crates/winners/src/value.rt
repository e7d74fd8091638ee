// The greatest value with clients discarded: the book's own number, 16, and the value.
ghost use Rattle.std.specs.Prelude.{◌≡◌};
ghost use Rattle.std.specs.Result.{result_unwrap_or};
ghost use Rattle.book.specs.Layout.{book_in};
ghost use Rattle.book.specs.Questions.{book_refusal};
ghost use Rattle.book.specs.Value.{book_of, sound_number};
ghost use Rattle.questions.specs.Numbers.{number_in};
ghost use Rattle.winners.specs.Worth.{WorthIs};

use crate::pass;
use crate::places::ALL;
use book::{Book, SoundBook};
use questions::Question;

// The answer as callers in C have it: 0 and the value, or the number of the question that is answered no, and no value.
#[derive(Clone, Copy)]
#[repr(C)]
pub struct Worth {
    pub number: u32,
    pub value: u32,
}

impl From<Result<u32, Question>> for Worth {
    ghost from_gives = { λ answer worth. (worth.number ≡ number_in answer) × (worth.value ≡ result_unwrap_or answer 0) };

    fn from(answer: Result<u32, Question>) -> Worth {
        Worth {
            number: questions::number_in(&answer),
            value: answer.unwrap_or_default(),
        }
    }
}

// Of a sound book.
fn of_sound(sound: SoundBook, discard: u8) -> Result<u32, Question>
    ensures { WorthIs 0 (book_of sound.entry.book.now) discard (number_in result) (result_unwrap_or result 0) }
{
    if 0 < (discard >> sound.book.n) {
        return Err(Question::Clients);
    }
    let values = pass::weigh_all(sound, discard);
    Ok(values[ALL] as u32)
}

// Of a book that is a value.
#[tactic(auto, using(crate::proofs::WorthAnswers::worth_refused))]
pub fn greatest_of(book: &Book, discard: u8) -> Result<u32, Question>
    ensures { WorthIs (sound_number book.now) (book_of book.now) discard (number_in result) (result_unwrap_or result 0) }
{
    of_sound(book.sound()?, discard)
}

// Of the book that bytes hold, whatever follows it. What was read is sound.
#[tactic(auto, using(crate::proofs::WorthAnswers::worth_refused))]
fn greatest_in(book: &[u8], discard: u8) -> Result<u32, Question>
    ensures { WorthIs (book_refusal book.now) (book_in book.now) discard (number_in result) (result_unwrap_or result 0) }
{
    let reading = book::read(book)?;
    let sound = SoundBook {
        book: &reading.book,
    };
    of_sound(sound, discard)
}

// The same as callers in C have it.
pub fn greatest_value(book: &[u8], discard: u8) -> Worth
    ensures { WorthIs (book_refusal book.now) (book_in book.now) discard result.number result.value }
{
    greatest_in(book, discard).into()
}
