// The checks of an auction certificate over arrays by value, for any bounds σ of sets and ρ of winners; no book is known here.
// `ranges::ranges` puts question 7, `discounts::reserve` question 10, `discounts::bounded` questions 11 and 15, `balances` 11 to 15.
// They ask nothing of their caller. Each answers `Ok`, or its first question whose answer is no.
// EACH ANSWERS `Ranges`, question 7, where something that it reads is out of range: a figure of the certificate, but also a σ above
// 6,000,000 or a ρ above 1,000,000, which no book gives. A caller with bounds of another kind must look for that answer.
// A client may cite their contracts and that of `Figures::winners`, the laws of the numbers in proofs/Refusals and
// proofs/DiscountRefusals, and the laws of ranges in proofs/InRange.
#![tactic(auto)]

ghost use Rattle.std.specs.Prelude.{◌≡◌};
ghost use Rattle.questions.specs.Numbers.{number_in};
ghost use Rattle.certificate.specs.Figures.{at, certificate};
ghost use Rattle.certificate.specs.Refusals.{balances_number};

mod asking;
mod by_set;
pub mod discounts;
mod duals;
mod limits;
mod most;
mod nearest;
pub mod ranges;
mod signs;
mod slack;
mod sums;
mod within;

use crate::asking::ask;
use crate::discounts::bounds_met;
use crate::duals::{all_covered, totals_meet};
use crate::nearest::all_balanced;
use crate::ranges::Figures;
use questions::Question;

// Questions 11 to 15, or 7 where a figure, a σ or a ρ is out of range.
#[tactic(auto, unfolding(crate::specs::Refusals::balances_number, crate::specs::Refusals::first_failed))]
pub fn balances(f: Figures, sigma: [u64; 64], rho: [u64; 6]) -> Result<(), Question>
    ensures { number_in result ≡ balances_number (certificate f) (at sigma) (at rho) }
{
    let tight = bounds_met(f, sigma, rho)?;
    ask(all_covered(f), Question::Cover)?;
    ask(totals_meet(f, sigma, rho), Question::Totals)?;
    ask(all_balanced(f, sigma), Question::Stationary)?;
    ask(tight, Question::Slack)
}
