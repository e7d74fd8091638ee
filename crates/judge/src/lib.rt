// Layer 3: judging the bytes of a sheet over a book, and the price list's numbers.
//
// What a client may cite: `judge_sheet`, of an input that holds both, `judge_over`, of a book that is a value, and
// `judge_sound`, of one that is known to be sound. Each takes anything and asks nothing, with the contract `Judgement`
// (specs/Judgement.antt): every field of the answer as a value, and demands 1, 2 and 3 on it. And the sheet's reader,
// `sheet`. Books are read by crate book, and nobody here looks at a byte of one.
#![tactic(auto)]

mod chain;
mod columns;
mod figures;
mod form;
mod prices;
mod ranged;
pub mod sheet;

ghost use Rattle.std.specs.Prelude.{◌≡◌};
ghost use Rattle.demands.specs.Answer.{answer_of};
ghost use Rattle.demands.specs.Call.{call_in, call_of};
ghost use Rattle.judge.specs.Chain.{answer_with};
ghost use Rattle.judge.specs.Judgement.{Judgement};

use book::{Book, SoundBook};
use prices::Accepted;
pub use prices::Prices;
use questions::Question;

// Questions 1 to 15 of an input, and the prices.
#[tactic(auto, using(crate::proofs::Judging::refused_book, crate::proofs::Readings::read_call, questions::proofs::Numbers::number_range))]
fn judged_input(input: &[u8]) -> Result<Accepted, Question>
    ensures { answer_with result ≡ answer_of (call_in input.now) }
{
    let reading = book::read(input)?;
    let from = usize::from(reading.length);
    let sound = SoundBook {
        book: &reading.book,
    };
    chain::judged(sound, &input[from..])
}

// Questions 2 to 15 of a book that is a value and the bytes of a sheet, and the prices.
#[tactic(auto, using(crate::proofs::Judging::refused_book, questions::proofs::Numbers::number_range))]
fn judged_value(book: &Book, part: &[u8]) -> Result<Accepted, Question>
    ensures { answer_with result ≡ answer_of (call_of book.now part.now) }
{
    chain::judged(book.sound()?, part)
}

// Questions 1 to 15 of an input: a book, and the sheet in the bytes after it.
#[tactic(auto, using(crate::proofs::Judging::judgement, demands::proofs::Judgeable::input_judgeable))]
pub fn judge_sheet(input: &[u8]) -> Prices
    ensures { Judgement (call_in input.now) result }
{
    judged_input(input).into()
}

// Questions 2 to 5 of a book that is a value, then 6 to 15 of the bytes of a sheet.
#[tactic(auto, using(crate::proofs::Judging::value_judgement))]
pub fn judge_over(book: &Book, part: &[u8]) -> Prices
    ensures { Judgement (call_of book.now part.now) result }
{
    judged_value(book, part).into()
}

// Questions 6 to 15 of the bytes of a sheet over a sound book.
#[tactic(auto, using(crate::proofs::Judging::value_judgement))]
pub fn judge_sound(sound: SoundBook, part: &[u8]) -> Prices
    ensures { Judgement (call_of sound.entry.book.now part.now) result }
{
    chain::judged(sound, part).into()
}
