// Reading sheets: what follows a book in the input, as numbers and arrays by value.
//
// What a client may cite: `bids_of`, the winners' bid numbers alone, and `read`, question 6 with all of the sheet. Each takes any bytes and
// asks nothing, and its contract gives every field as a value (specs/Reading.antt). And `SheetReading::bids`, which lends the bid numbers.
ghost use Rattle.std.specs.Prelude.{◌≡◌, length, min, take};
ghost use Rattle.market.specs.Market.{at};
ghost use Rattle.sets.specs.Tables.{tabulate};
ghost use Rattle.demands.specs.Sheet.{sheet_in};
ghost use Rattle.judge.specs.Reading.{SheetRead};

use crate::figures::figures_of;
use crate::form;
use book::bytes;
use certificate::ranges::Figures;
use questions::Question;
use std::array;

// A sheet: the bid numbers of the winners, and its figures.
#[derive(Clone, Copy, Default)]
pub struct SheetReading {
    pub bids: [u8; 6],
    pub figures: Figures,
}

impl SheetReading {
    // The bid numbers of the w winners, without what follows them.
    pub fn bids(&self) -> &[u8]
        ensures bids { result.now ≡ take self.now.figures.w self.now.bids }
        ensures count { length result.now ≡ min self.now.figures.w 6 }
    {
        &self.bids[..self.figures.winners()]
    }
}

// The winners' bid numbers, 0 past the last: of more than six, the first six. They stand from place 4 on.
pub fn bids_of(part: &[u8]) -> [u8; 6]
    ensures { result ≡ tabulate 6 (at (sheet_in part.now).bids) }
{
    let w = form::winners_of(part);
    array::from_fn(|j| numbers::share(j < w, bytes::byte_at(part, 4 + j)))
}

// The sheet, where question 6 over a book of n clients is answered by yes.
pub fn read(part: &[u8], n: usize) -> Result<SheetReading, Question>
    ensures { SheetRead part.now n result }
{
    let Some(w) = form::winners_in_form(part, n) else {
        return Err(Question::Form);
    };
    let bids = bids_of(part);
    let figures = figures_of(part, w);
    Ok(SheetReading { bids, figures })
}
