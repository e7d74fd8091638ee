// v and σ of every set of a list of clients: each set is weighed once.
ghost use Rattle.std.specs.Prelude.{◌≡◌};
ghost use Rattle.std.specs.Result.{result_unwrap_or};
ghost use Rattle.book.specs.Value.{book_of, sound_number};
ghost use Rattle.questions.specs.Numbers.{number_in};
ghost use Rattle.winners.specs.Surpluses.{no_surpluses, SurplusesAre, AllSurplusesAre};

use crate::places::ALL;
use crate::values::Surpluses;
use crate::{lists, pass, values};
use book::{Book, SoundBook};
use questions::Question;

// The answer as callers in C have it: 0 and the surpluses, or the number of the question that is answered no, and zeros.
#[derive(Clone, Copy)]
#[repr(C)]
pub struct SigmaTable {
    pub number: u32,
    pub value: u64,
    pub sigma: [u64; 64],
}

impl From<Result<Surpluses, Question>> for SigmaTable {
    ghost from_gives = { λ answer table. (table.number ≡ number_in answer)
        × (table.value ≡ (result_unwrap_or answer no_surpluses).value)
        × (table.sigma ≡ (result_unwrap_or answer no_surpluses).sigma) };

    fn from(answer: Result<Surpluses, Question>) -> SigmaTable {
        let number = questions::number_in(&answer);
        let found = answer.unwrap_or_default();
        let sigma = found.sigma;
        SigmaTable {
            number,
            value: found.value,
            sigma,
        }
    }
}

// Of a sound book.
fn of_sound(sound: SoundBook, clients: &[u8]) -> Result<Surpluses, Question>
    ensures { let found = result_unwrap_or result no_surpluses in
        SurplusesAre 0 (book_of sound.entry.book.now) clients.now (number_in result) found.value found.sigma }
{
    if !lists::is_rising(clients, usize::from(sound.book.n)) {
        return Err(Question::Clients);
    }
    let values = pass::weigh_all(sound, 0);
    let sigma = values::sigma_by(clients, &values);
    Ok(Surpluses {
        value: values[ALL],
        sigma,
    })
}

// Of a book that is a value.
#[tactic(auto, using(crate::proofs::SigmaAnswers::surpluses_refused))]
pub fn surpluses_of(book: &Book, clients: &[u8]) -> Result<Surpluses, Question>
    ensures { let found = result_unwrap_or result no_surpluses in
        SurplusesAre (sound_number book.now) (book_of book.now) clients.now (number_in result) found.value found.sigma }
{
    of_sound(book.sound()?, clients)
}

// Of all clients of the book that bytes hold, whatever follows it. What was read is sound.
fn surpluses_in(book: &[u8]) -> Result<Surpluses, Question>
    ensures { let found = result_unwrap_or result no_surpluses in
        AllSurplusesAre book.now (number_in result) found.value found.sigma }
{
    let reading = book::read(book)?;
    let n = usize::from(reading.book.n);
    let clients = [1, 2, 3, 4, 5, 6];
    let sound = SoundBook {
        book: &reading.book,
    };
    of_sound(sound, &clients[..n])
}

// The same as callers in C have it.
pub fn surpluses(book: &[u8]) -> SigmaTable
    ensures { AllSurplusesAre book.now result.number result.value result.sigma }
{
    surpluses_in(book).into()
}
