// Sums over the members of a set, over the sets that hold a winner, and over all sets: there are at most 63 non-empty ones. Bit k of a
// set's number stands for winner k.
ghost use Rattle.std.specs.Prelude.{◌≡◌, ◌≤◌, ◌*◌};
ghost use Rattle.sets.specs.Sets.{sum_in, over_sets, holding};
ghost use Rattle.certificate.specs.Figures.{at};
ghost use Rattle.pricing.specs.Ranges.{most_scale, most_multiplier};
ghost use Rattle.certificate.specs.Bounds.{most_sigma};
ghost use Rattle.certificate.specs.Readiness.{WinnersAdd, HoldingAdd, SetsWeigh};

use numbers::{has, sets_end, share};

// The sum over the members of a set.
#[tactic(auto, using(crate::proofs::Steps::steps), unfolding(sets::specs::Sets::sum_in))]
pub(crate) fn sum_in(w: usize, set: usize, xs: &[u64; 6]) -> u64
    requires { WinnersAdd w (at xs.now) }
    ensures { result ≡ sum_in w set (at xs.now) }
{
    let mut added = 0;
    for k in 0..w {
        added += share(has(set, k), xs[k]);
    }
    added
}

// The sum over the sets that hold winner k.
#[tactic(auto, using(crate::proofs::Steps::steps), unfolding(sets::specs::Sets::holding))]
pub(crate) fn held(w: usize, k: usize, xs: &[u64; 64]) -> u64
    requires { HoldingAdd w k (at xs.now) }
    ensures { (result ≡ holding w k (at xs.now)) × (result ≤ 63 * most_multiplier) }
{
    let mut added = 0;
    for set in 1..sets_end(w) {
        added += share(has(set, k), xs[set]);
    }
    added
}

// The sum over the sets of a multiplier times σ.
#[tactic(auto, using(crate::proofs::Steps::steps))]
pub(crate) fn sets_weighed(w: usize, ys: &[u64; 64], sigma: &[u64; 64]) -> u64
    requires { SetsWeigh w (at ys.now) (at sigma.now) }
    ensures { (result ≡ over_sets w (λ L. at ys.now L * at sigma.now L)) × (result ≤ 63 * (most_scale * most_sigma)) }
{
    let mut added = 0;
    for set in 1..sets_end(w) {
        added += ys[set] * sigma[set];
    }
    added
}
