// The discounts of each non-empty set against its bound: question 11, and question 15 on U.
ghost use Rattle.std.specs.Prelude.{◌≡◌, cond, ℕ, IfOk};
ghost use Rattle.questions.specs.Numbers.{number_in};
ghost use Rattle.pricing.specs.Questions.{test, within_sets, slack_sets};
ghost use Rattle.certificate.specs.Figures.{at, certificate};
ghost use Rattle.certificate.specs.Readiness.{SetsReady};

use crate::ranges::Figures;
use crate::slack::slack_at;
use crate::sums::sum_in;
use numbers::sets_end;
use questions::Question;

// Question 11, that no set's discounts are above q × σ; past it, whether they meet q × σ where U stands, as question 15 asks.
#[tactic(auto, using(crate::proofs::Tests::question_steps))]
pub(crate) fn sets_tight(f: Figures, sigma: [u64; 64]) -> Result<bool, Question>
    requires { SetsReady (certificate f) (at sigma) }
    ensures within { (ρ : ℕ → ℕ) → number_in result ≡ cond (test within_sets (certificate f) (at sigma) ρ) 0 11 }
    ensures slack { IfOk result (λ tight. (ρ : ℕ → ℕ) → tight ≡ test slack_sets (certificate f) (at sigma) ρ) }
{
    let w = f.winners();
    let mut within = true;
    let mut tight = true;
    for set in 1..sets_end(w) {
        let given = sum_in(w, set, &f.x);
        let bound = f.q * sigma[set];
        within &= given <= bound;
        tight &= slack_at(f.u[set], given, bound);
    }
    if within {
        Ok(tight)
    } else {
        Err(Question::WithinSets)
    }
}
