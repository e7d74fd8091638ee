// The multipliers show that no other discounts of this sum are nearer: question 14, in numbers without a sign.
ghost use Rattle.std.specs.Prelude.{◌≡◌, ℕ};
ghost use Rattle.pricing.specs.Questions.{test, stationary};
ghost use Rattle.certificate.specs.Figures.{at, certificate};
ghost use Rattle.certificate.specs.Readiness.{SetsReady};

use crate::ranges::Figures;
use crate::signs::{part_above, part_below};
use crate::sums::held;

// Question 14: at each winner, q × σ - x is G + u + r - t, with what is taken away put on the other side.
#[tactic(auto, using(crate::proofs::Balance::balance_steps), unfolding(crate::proofs::Balance::claimed, crate::proofs::Balance::carried))]
pub(crate) fn all_balanced(f: Figures, sigma: [u64; 64]) -> bool
    requires { SetsReady (certificate f) (at sigma) }
    ensures { (ρ : ℕ → ℕ) → result ≡ test stationary (certificate f) (at sigma) ρ }
{
    let w = f.winners();
    let above = part_above(f.g);
    let below = part_below(f.g);
    let mut ok = true;
    for j in 0..w {
        let claimed = f.q * sigma[1 << j] + f.t[j] + below;
        let carried = above + held(w, j, &f.u) + f.r[j] + f.x[j];
        ok &= claimed == carried;
    }
    ok
}
