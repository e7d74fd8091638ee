// v and σ of sets of clients, by the values of all sets of clients.
ghost use Rattle.std.specs.Prelude.{◌≡◌};
ghost use Rattle.book.specs.Book.{Book, supplies};
ghost use Rattle.book.specs.Sound.{Sound};
ghost use Rattle.winners.specs.ClientLists.{RisingList};
ghost use Rattle.winners.specs.Combinations.{amount_of};
ghost use Rattle.winners.specs.Passes.{ValuesTo};
ghost use Rattle.winners.specs.Rows.{searched};
ghost use Rattle.winners.specs.Surpluses.{surplus_table};

use crate::lists;
use crate::places::{ALL, SETS};

// v, and σ by set number.
#[derive(Clone, Copy, Default)]
pub struct Surpluses {
    pub value: u64,
    pub sigma: [u64; 64],
}

// What the value of all exceeds the value without each set of a list of clients by, by the sets' numbers.
pub(crate) fn sigma_by(clients: &[u8], values: &[u64; SETS]) -> [u64; SETS]
    requires { RisingList clients.now }
    ensures { (b : Book) → Sound b → ValuesTo (searched b 0) (amount_of b) (supplies b) 64 values.now
        → result ≡ surplus_table b clients.now }
{
    let discards = lists::discards(clients);
    let end = numbers::sets_end(clients.len());
    let mut sigma = [0; SETS];
    for set in 1..end {
        let kept = ALL - usize::from(discards[set]);
        sigma[set] = values[ALL].saturating_sub(values[kept]);
    }
    sigma
}
