// The hours that a set's clients take, in lanes. Where they do not fit the supply a guard is set.
ghost use Rattle.std.specs.Prelude.{◌≡◌, true, cond, ◌+◌, ◌≤◌, eqb};
ghost use Rattle.std.specs.Int.Bits.{bit_and};
ghost use Rattle.winners.specs.Lanes.{guards, lanes_full};

use crate::lanes;

// The hours used once a set's clients have taken theirs: their least hours, or in their place those of their heaviest bids.
#[derive(Clone, Copy)]
pub(crate) struct Taken {
    pub(crate) least: u64,
    pub(crate) heads: u64,
}

impl Taken {
    // The same of the set with one client more.
    pub(crate) fn with_client(self, least: u64, head: u64) -> Taken
        requires least { (eqb (bit_and self.least guards) 0 ≡ true → self.least ≤ lanes_full) × (least ≤ lanes_full) }
        requires heads { (eqb (bit_and self.heads guards) 0 ≡ true → self.heads ≤ lanes_full) × (head ≤ lanes_full) }
        ensures least { result.least ≡ cond (eqb (bit_and self.least guards) 0) (self.least + least) self.least }
        ensures heads { result.heads ≡ cond (eqb (bit_and self.heads guards) 0) (self.heads + head) self.heads }
    {
        Taken {
            least: with_hours(self.least, least),
            heads: with_hours(self.heads, head),
        }
    }
}

// One client's hours more; where a guard is set already, it stays so.
fn with_hours(before: u64, hours: u64) -> u64
    requires { (eqb (bit_and before guards) 0 ≡ true → before ≤ lanes_full) × (hours ≤ lanes_full) }
    ensures { result ≡ cond (eqb (bit_and before guards) 0) (before + hours) before }
{
    if lanes::fit(before) {
        before + hours
    } else {
        before
    }
}
