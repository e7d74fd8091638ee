// The discounts of an auction certificate against their bounds: question 10 alone, and questions 11 and 15, which each look at one bound
// after another.
ghost use Rattle.std.specs.Prelude.{◌≡◌, IfOk};
ghost use Rattle.questions.specs.Numbers.{number_in};
ghost use Rattle.certificate.specs.Figures.{at, certificate};
ghost use Rattle.certificate.specs.DiscountRefusals.{reserve_number, within_number, slack_test, bounded_number};
ghost use Rattle.certificate.specs.Readiness.{Ready};

use crate::asking::ask;
use crate::by_set::sets_tight;
use crate::limits::{in_range, reserve_in_range, tables_fit};
use crate::ranges::Figures;
use crate::slack::winners_slack;
use crate::within::reserve_kept;
use questions::Question;

// Question 10, or 7 where w, q or some ρ is out of range.
#[tactic(auto, using(crate::proofs::InRange::range_facts), unfolding(crate::specs::DiscountRefusals::reserve_number))]
pub fn reserve(w: u64, q: u64, x: [u64; 6], rho: [u64; 6]) -> Result<(), Question>
    ensures { number_in result ≡ reserve_number w q (at rho) (at x) }
{
    ask(reserve_in_range(w, q, &rho), Question::Ranges)?;
    let kept = reserve_kept(w as usize, q, &x, &rho);
    ask(kept, Question::WithinReserve)
}

// Question 11, or 7 where a figure, a σ or a ρ is out of range; past both, whether question 15 holds, so that it can be put after others.
#[tactic(auto, using(crate::proofs::InRange::range_facts), unfolding(crate::specs::DiscountRefusals::slack_test))]
pub(crate) fn bounds_met(f: Figures, sigma: [u64; 64], rho: [u64; 6]) -> Result<bool, Question>
    ensures within { number_in result ≡ within_number (certificate f) (at sigma) (at rho) }
    ensures ready { IfOk result (λ tight. Ready (certificate f) (at sigma) (at rho)) }
    ensures slack { IfOk result (λ tight. tight ≡ slack_test (certificate f) (at sigma) (at rho)) }
{
    let ranged = in_range(f) && tables_fit(&f, &sigma, &rho);
    ask(ranged, Question::Ranges)?;
    let sets = sets_tight(f, sigma)?;
    Ok(sets & winners_slack(f, rho))
}

// Questions 11 and 15, or 7 where a figure, a σ or a ρ is out of range.
#[tactic(auto, unfolding(crate::specs::DiscountRefusals::bounded_number))]
pub fn bounded(f: Figures, sigma: [u64; 64], rho: [u64; 6]) -> Result<(), Question>
    ensures { number_in result ≡ bounded_number (certificate f) (at sigma) (at rho) }
{
    let tight = bounds_met(f, sigma, rho)?;
    ask(tight, Question::Slack)
}
