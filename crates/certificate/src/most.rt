// Whether numbers, one after another, are at most a bound: those by winner, or those by set.
ghost use Rattle.std.specs.Prelude.{◌≡◌, length};
ghost use Rattle.certificate.specs.Figures.{at};
ghost use Rattle.pricing.specs.Ranges.{winners_at_most};

// Whether each number is at most `most`.
#[tactic(auto, using(crate::proofs::Steps::steps), unfolding(pricing::specs::Ranges::winners_at_most))]
pub(crate) fn at_most(xs: &[u64], most: u64) -> bool
    ensures { result ≡ winners_at_most (length xs.now) most (at xs.now) }
{
    let mut ok = true;
    for &x in xs {
        ok &= x <= most;
    }
    ok
}
