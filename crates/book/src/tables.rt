// Question 3: of the supplies and reserves of a book's kinds, and of the statuses in its bytes, since a cap cannot hold a status of 2. Both
// end with the first no.
ghost use Rattle.std.specs.Prelude.{◌≡◌, map};
ghost use Rattle.book.specs.Lists.{all};
ghost use Rattle.book.specs.Questions.{kind_good, status_good};
ghost use Rattle.book.specs.Value.{kind_of};

use crate::value::Kind;

// The most hours for sale of a kind, the highest reserve of an hour, and the highest status.
const MOST_SUPPLY: u8 = 200;

const MOST_RESERVE: u16 = 10000;

const MOST_STATUS: u8 = 1;

// Whether each kind has a supply and a reserve in range.
pub(crate) fn kinds_good(kinds: &[Kind]) -> bool
    ensures { result ≡ all kind_good (map kind_of kinds.now) }
{
    kinds.iter().all(|kind| (kind.supply <= MOST_SUPPLY) & (kind.reserve <= MOST_RESERVE))
}

// Whether each status is 0 or 1.
pub(crate) fn statuses_good(statuses: &[u8]) -> bool
    ensures { result ≡ all status_good statuses.now }
{
    statuses.iter().all(|&status| status <= MOST_STATUS)
}
