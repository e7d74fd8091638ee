// Sets of clients as numbers: bit c - 1 stands for client c.
ghost use Rattle.std.specs.Prelude.{◌≡◌, Bool, ℕ, ◌≤◌, ◌<◌, length};
ghost use Rattle.sets.specs.Sets.{set_of};
ghost use Rattle.winners.specs.ClientSets.{clients_in, First, Others};

use crate::places::CLIENTS;

// The set of the places below 6 of which a test holds; the place of client c is c - 1.
pub(crate) fn of_those<F: Fn(usize) -> bool>(is_in: F) -> usize
    requires { (j : ℕ) → j < 6 → F.pre is_in j }
    ensures { (p : ℕ → Bool) → ((j : ℕ) (r : Bool) → j < 6 → F.post is_in j r → r ≡ p j) → result ≡ set_of 6 p }
{
    let mut set = 0;
    for j in (0..CLIENTS).rev() {
        set = usize::from(is_in(j)) + 2 * set;
    }
    set
}

// The first client of a set that is not empty.
pub(crate) fn first(set: usize) -> usize
    requires { (1 ≤ set) × (set < 64) }
    ensures { First set result }
{
    set.trailing_zeros() as usize + 1
}

// How many clients a set has.
#[tactic(auto, using(crate::proofs::ClientSets::clients_count))]
pub(crate) fn count(set: usize) -> usize
    requires { set < 64 }
    ensures { result ≡ length (clients_in set) }
{
    set.count_ones() as usize
}

// The set without its first client, whose bit is the lowest.
pub(crate) fn others(set: usize) -> usize
    requires { (1 ≤ set) × (set < 64) }
    ensures { Others set result }
{
    set & (set - 1)
}
