// A sheet past question 7, over its book: questions 10 to 15, and what its winners pay.
ghost use Rattle.std.specs.Prelude.{◌≡◌, ℕ, get_or, take};
ghost use Rattle.questions.specs.Numbers.{number_in};
ghost use Rattle.sets.specs.Tables.{tabulate};
ghost use Rattle.book.specs.Value.{book_of};
ghost use Rattle.certificate.specs.Figures.{certificate};
ghost use Rattle.certificate.specs.InRange.{Ranges};
ghost use Rattle.demands.specs.Answer.{price, acceptance};
ghost use Rattle.demands.specs.Winners.{rho};
ghost use Rattle.judge.specs.Chain.{SigmaHeld, accepted_in, certificate_judged};
ghost use Rattle.judge.specs.Reading.{sheet_of};

use crate::columns::column;
use crate::prices::Accepted;
use crate::sheet::SheetReading;
use book::SoundBook;
use certificate::discounts;
use questions::Question;

// A lent sheet whose figures are in range, and its sound book.
#[derive(Clone, Copy)]
pub(crate) struct RangedSheet<'a> {
    pub(crate) sound: SoundBook<'a>,
    pub(crate) sheet: &'a SheetReading,
    ghost in_range: { Ranges (certificate sheet.now.figures) },
}

impl RangedSheet<'_> {
    // ρ of each winner, 0 past the last.
    fn reserves(self) -> [u64; 6]
        ensures { (j : ℕ) → get_or result j 0
            ≡ rho (book_of self.entry.sound.book.now) (take self.entry.sheet.now.figures.w self.entry.sheet.now.bids) j }
    {
        let book = self.sound.book;
        let bids = self.sheet.bids();
        column(0, bids.len(), |j| {
            let bid = usize::from(bids[j]);
            u64::from(book.amount_of(bid)).saturating_sub(book.reserves_of(bid))
        })
    }

    // Questions 10 to 15, given σ of every set of winners.
    #[tactic(auto, using(crate::proofs::Limits::later))]
    pub(crate) fn test_certificate(self, sigma: [u64; 64]) -> Result<(), Question>
        requires { SigmaHeld (book_of self.sound.book.now) (sheet_of self.sheet.now) sigma }
        ensures { number_in result ≡ certificate_judged (book_of self.entry.sound.book.now) (sheet_of self.entry.sheet.now) }
    {
        let figures = self.sheet.figures;
        let rho = self.reserves();
        discounts::reserve(figures.w, figures.q, figures.x, rho)?;
        certificate::balances(figures, sigma, rho)
    }

    // What each winner pays over q, 0 past the last.
    fn prices(self) -> [u64; 6]
        ensures { result ≡ tabulate 6 (price (book_of self.entry.sound.book.now) (sheet_of self.entry.sheet.now)) }
    {
        let book = self.sound.book;
        let bids = self.sheet.bids();
        let figures = &self.sheet.figures;
        column(0, bids.len(), |j| {
            let amount = u64::from(book.amount_of(usize::from(bids[j])));
            (figures.q * amount).saturating_sub(figures.x[j])
        })
    }

    // What is answered where all questions are passed.
    #[tactic(auto, unfolding(demands::specs::Answer::acceptance))]
    pub(crate) fn accepted(self) -> Accepted
        ensures { accepted_in result ≡ acceptance (book_of self.entry.sound.book.now) (sheet_of self.entry.sheet.now) }
    {
        Accepted {
            w: self.sheet.figures.w as u32,
            q: self.sheet.figures.q as u32,
            prices: self.prices(),
        }
    }
}
