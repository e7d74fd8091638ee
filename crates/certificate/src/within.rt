// Each winner's discount is within its bound: question 10.
ghost use Rattle.std.specs.Prelude.{◌≡◌};
ghost use Rattle.certificate.specs.Figures.{at};
ghost use Rattle.certificate.specs.InRange.{Reserves};
ghost use Rattle.certificate.specs.DiscountRefusals.{reserve_kept};

// Question 10.
#[tactic(auto, using(crate::proofs::Steps::steps), unfolding(crate::specs::DiscountRefusals::reserve_kept))]
pub(crate) fn reserve_kept(w: usize, q: u64, x: &[u64; 6], rho: &[u64; 6]) -> bool
    requires { Reserves w q (at rho.now) }
    ensures { result ≡ reserve_kept w q (at rho.now) (at x.now) }
{
    let mut ok = true;
    for j in 0..w {
        ok &= x[j] <= q * rho[j];
    }
    ok
}
