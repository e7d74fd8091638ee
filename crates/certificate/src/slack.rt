// Each multiplier stands only where its bound is met: question 15 for one bound, and on R and T for each winner.
ghost use Rattle.std.specs.Prelude.{◌≡◌, ◌&&◌, ℕ};
ghost use Rattle.pricing.specs.Questions.{test, slack, slack_reserve, slack_zero};
ghost use Rattle.certificate.specs.Figures.{at, certificate};
ghost use Rattle.certificate.specs.Readiness.{WinnersReady};

use crate::ranges::Figures;

// Whether a multiplier is zero or its bound is met.
#[tactic(auto, unfolding(pricing::specs::Questions::slack))]
pub(crate) fn slack_at(multiplier: u64, a: u64, b: u64) -> bool
    ensures { result ≡ slack multiplier a b }
{
    (multiplier == 0) | (a == b)
}

// Question 15 on R and T: the discount is q × ρ where R stands, and 0 where T does.
#[tactic(auto, using(crate::proofs::Tests::question_steps))]
pub(crate) fn winners_slack(f: Figures, rho: [u64; 6]) -> bool
    requires { WinnersReady (certificate f) (at rho) }
    ensures { (σ : ℕ → ℕ) → result
        ≡ (test slack_reserve (certificate f) σ (at rho) && test slack_zero (certificate f) σ (at rho)) }
{
    let w = f.winners();
    let mut reserves = true;
    let mut zeros = true;
    for j in 0..w {
        reserves &= slack_at(f.r[j], f.x[j], f.q * rho[j]);
        zeros &= slack_at(f.t[j], f.x[j], 0);
    }
    reserves & zeros
}
