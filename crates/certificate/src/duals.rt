// The multipliers show that no greater sum is possible: question 12, that they cover each winner, and question 13, that the totals meet.
ghost use Rattle.std.specs.Prelude.{◌≡◌, ℕ};
ghost use Rattle.pricing.specs.Questions.{test, cover, totals};
ghost use Rattle.certificate.specs.Figures.{at, certificate};
ghost use Rattle.certificate.specs.InRange.{Ranges};
ghost use Rattle.certificate.specs.Readiness.{Ready};

use crate::ranges::Figures;
use crate::sums::{held, sets_weighed};

// Question 12.
#[tactic(auto, using(crate::proofs::Tests::question_steps))]
pub(crate) fn all_covered(f: Figures) -> bool
    requires { Ranges (certificate f) }
    ensures { (σ ρ : ℕ → ℕ) → result ≡ test cover (certificate f) σ ρ }
{
    let w = f.winners();
    let mut ok = true;
    for j in 0..w {
        ok &= f.s <= f.z[j] + held(w, j, &f.y);
    }
    ok
}

// Question 13.
#[tactic(auto, using(crate::proofs::Tests::question_steps))]
pub(crate) fn totals_meet(f: Figures, sigma: [u64; 64], rho: [u64; 6]) -> bool
    requires { Ready (certificate f) (at sigma) (at rho) }
    ensures { result ≡ test totals (certificate f) (at sigma) (at rho) }
{
    let w = f.winners();
    let sets = sets_weighed(w, &f.y, &sigma);
    let mut winners = 0;
    let mut given = 0;
    for j in 0..w {
        winners += f.z[j] * rho[j];
        given += f.x[j];
    }
    f.q * (sets + winners) == f.s * given
}
