// Question 7: whether a certificate's figures, and the tables that it is judged by, are in range.
ghost use Rattle.std.specs.Prelude.{◌≡◌, ◌≤◌};
ghost use Rattle.pricing.specs.Ranges.{most_winners, scale_in_range, counts_in_range, winners_in_range, sets_in_range, in_range};
ghost use Rattle.certificate.specs.Figures.{at, certificate};
ghost use Rattle.certificate.specs.Bounds.{tables_fit, reserve_in_range};

use crate::most::at_most;
use crate::ranges::Figures;
use crate::signs::g_in_range;
use numbers::sets_end;

// Winners.
const MOST_WINNERS: u64 = 6;

// The denominators q and s, and the multipliers y and z.
const MOST_SCALE: u64 = 10_000;

// A discount.
const MOST_DISCOUNT: u64 = 10_000_000_000;

// The multipliers u, r, t and g, g without its sign.
pub(crate) const MOST_MULTIPLIER: u64 = 1_000_000_000_000;

// ρ, which is no more than one amount of a book.
const MOST_RHO: u64 = 1_000_000;

// σ, which is no more than six amounts.
const MOST_SIGMA: u64 = 6_000_000;

// Whether a denominator is from 1 to its bound.
fn scale_in_range(n: u64) -> bool
    ensures { result ≡ scale_in_range n }
{
    (1 <= n) & (n <= MOST_SCALE)
}

// The winners' count and both denominators.
fn counts_in_range(w: u64, q: u64, s: u64) -> bool
    ensures { result ≡ counts_in_range w q s }
{
    (w <= MOST_WINNERS) & scale_in_range(q) & scale_in_range(s)
}

// The winners' numbers.
#[tactic(auto, using(crate::proofs::Parts::winners_part))]
fn winners_in_range(f: &Figures) -> bool
    requires { f.now.w ≤ most_winners }
    ensures { result ≡ winners_in_range f.now.w (at f.now.x) (at f.now.z) (at f.now.r) (at f.now.t) }
{
    let w = f.winners();
    at_most(&f.x[..w], MOST_DISCOUNT)
        & at_most(&f.z[..w], MOST_SCALE)
        & at_most(&f.r[..w], MOST_MULTIPLIER)
        & at_most(&f.t[..w], MOST_MULTIPLIER)
}

// The sets' numbers.
#[tactic(auto, using(crate::proofs::Parts::sets_part))]
fn sets_in_range(f: &Figures) -> bool
    requires { f.now.w ≤ most_winners }
    ensures { result ≡ sets_in_range f.now.w (at f.now.y) (at f.now.u) }
{
    let end = sets_end(f.winners());
    at_most(&f.y[1..end], MOST_SCALE) & at_most(&f.u[1..end], MOST_MULTIPLIER)
}

// All figures.
#[tactic(auto, unfolding(pricing::specs::Ranges::in_range))]
pub(crate) fn in_range(f: Figures) -> bool
    ensures { result ≡ in_range (certificate f) }
{
    counts_in_range(f.w, f.q, f.s) && winners_in_range(&f) & sets_in_range(&f) & g_in_range(f.g)
}

// The tables of sets and winners.
#[tactic(auto, using(crate::proofs::Parts::winners_part, crate::proofs::Parts::sets_part), unfolding(crate::specs::Bounds::tables_fit))]
pub(crate) fn tables_fit(f: &Figures, sigma: &[u64; 64], rho: &[u64; 6]) -> bool
    ensures { result ≡ tables_fit f.now.w (at sigma.now) (at rho.now) }
{
    let w = f.winners();
    f.w <= MOST_WINNERS
        && at_most(&sigma[1..sets_end(w)], MOST_SIGMA) & at_most(&rho[..w], MOST_RHO)
}

// What question 10 reads.
#[tactic(auto, using(crate::proofs::Parts::winners_part), unfolding(crate::specs::Bounds::reserve_in_range))]
pub(crate) fn reserve_in_range(w: u64, q: u64, rho: &[u64; 6]) -> bool
    ensures { result ≡ reserve_in_range w q (at rho.now) }
{
    w <= MOST_WINNERS && scale_in_range(q) & at_most(&rho[..w as usize], MOST_RHO)
}
