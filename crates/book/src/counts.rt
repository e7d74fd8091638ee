// Questions 1 and 2, put to any bytes (specs/Questions.antt), and the ranges of the counts, to which a book that is a value is held too.
ghost use Rattle.std.specs.Prelude.{◌≡◌, ◌≤◌, true};
ghost use Rattle.book.specs.Lists.{within as within_range};
ghost use Rattle.book.specs.Questions.{version_good, counts_ranged, counts_good};

use crate::layout::BESIDE_HOURS;
use crate::value::{BIDS, CLIENTS, KINDS};
use crate::{bytes, layout};

// The version, and how many bytes tell it and the book's length.
const VERSION: u8 = 1;

const HEAD: usize = 3;

// Whether x is from low to high.
#[tactic(auto, unfolding(crate::specs::Lists::within))]
pub(crate) fn within(low: usize, x: usize, high: usize) -> bool
    ensures tested { result ≡ within_range low x high }
    ensures inside { result ≡ true → (low ≤ x) × (x ≤ high) }
{
    (low <= x) & (x <= high)
}

// Question 1.
#[tactic(auto, unfolding(crate::specs::Questions::version_good))]
pub(crate) fn is_version_good(input: &[u8]) -> bool
    ensures { result ≡ version_good input.now }
{
    (HEAD <= input.len()) & (bytes::byte_at(input, 0) == VERSION)
}

// Whether each count is in its range.
#[tactic(auto, unfolding(crate::specs::Questions::counts_ranged))]
pub(crate) fn are_counts_ranged(k: usize, n: usize, m: usize) -> bool
    ensures { result ≡ counts_ranged k n m }
{
    within(1, k, KINDS) & (within(1, n, CLIENTS) & (m <= BIDS))
}

// Question 2.
pub(crate) fn are_counts_good(input: &[u8]) -> bool
    ensures { result ≡ counts_good input.now }
{
    let long = usize::from(layout::length(input));
    let k = usize::from(layout::kinds(input));
    let n = usize::from(layout::clients(input));
    let m = usize::from(layout::bids(input));
    let inside = (long <= input.len()) & (layout::statuses_from(input) + n < long);
    let formula = layout::bids_from(input) + m * (k + BESIDE_HOURS);
    inside & (are_counts_ranged(k, n, m) & (long == formula))
}
