// Questions 6 to 15 in their order, put to the bytes of a sheet over a sound book that is a value: the first that is answered no refuses.
ghost use Rattle.std.specs.Prelude.{◌≡◌, ℕ, List, Ok};
ghost use Rattle.demands.specs.Answer.{answer_of};
ghost use Rattle.demands.specs.Call.{call_of};
ghost use Rattle.judge.specs.Chain.{answer_with};
ghost use Rattle.judge.specs.Reading.{SheetRead};

use crate::prices::Accepted;
use crate::ranged::RangedSheet;
use crate::sheet::{self, SheetReading};
use book::SoundBook;
use certificate::ranges;
use questions::Question;

// Questions 7 to 15 of a sheet in form, and the prices. By itself, so that a sheet out of form is refused before there is room for these.
#[inline(never)]
#[tactic(auto, using(crate::proofs::Weighing::chain_steps))]
fn judged_sheet(sound: SoundBook, sheet: &SheetReading) -> Result<Accepted, Question>
    ensures { (part : List ℕ) (n : ℕ) → n ≡ sound.entry.book.now.n → SheetRead part n (Ok sheet.now)
        → answer_with result ≡ answer_of (call_of sound.entry.book.now part) }
{
    ranges::ranges(sheet.figures)?;
    let ranged = RangedSheet { sound, sheet };
    let weighed = winners::weigh_sound(sound, sheet.bids())?;
    ranged.test_certificate(weighed.sigma)?;
    Ok(ranged.accepted())
}

// Questions 6 to 15, and the prices. The sheet is lent to those that follow, since a large `Result` that is taken out of is copied.
#[tactic(auto, using(crate::proofs::Weighing::chain_steps))]
pub(crate) fn judged(sound: SoundBook, part: &[u8]) -> Result<Accepted, Question>
    ensures { answer_with result ≡ answer_of (call_of sound.entry.book.now part.now) }
{
    let read = sheet::read(part, usize::from(sound.book.n));
    match &read {
        Ok(sheet) => judged_sheet(sound, sheet),
        Err(question) => Err(*question),
    }
}
