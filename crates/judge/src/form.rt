// Question 6 put to what follows a book: version, length and number of winners.
ghost use Rattle.std.specs.Prelude.{◌≡◌, ◌≤◌, true, false, MatchOption};
ghost use Rattle.demands.specs.Sheet.{sheet_w, sheet_formula};
ghost use Rattle.judge.specs.Reading.{FormIs};

use book::bytes;

// The number of winners, at place 3.
#[tactic(auto, unfolding(demands::specs::Sheet::sheet_w))]
pub(crate) fn winners_of(part: &[u8]) -> usize
    ensures { result ≡ sheet_w part.now }
{
    usize::from(bytes::byte_at(part, 3))
}

// The length of a sheet with w winners: 20 bytes, 29 for each winner and 12 for each non-empty set.
#[tactic(auto, unfolding(demands::specs::Sheet::sheet_formula))]
fn length_of(w: usize) -> usize
    requires { w ≤ 6 }
    ensures { result ≡ sheet_formula w }
{
    20 + 29 * w + 12 * (numbers::sets_end(w) - 1)
}

// The number of winners where question 6 over a book of n clients is answered by yes; with at most six winners, since a sheet is read into
// arrays of six. The version stands at place 0 and the length at 1; there are four bytes at least.
#[tactic(auto, using(crate::proofs::Formed::form_tests), unfolding(demands::specs::Sheet::sheet_long))]
pub(crate) fn winners_in_form(part: &[u8], n: usize) -> Option<usize>
    ensures { MatchOption result (FormIs part.now n false) (λ w. FormIs part.now n true × (w ≡ sheet_w part.now)) }
{
    let w = winners_of(part);
    if n.min(6) < w {
        return None;
    }
    let version = bytes::byte_at(part, 0);
    let own = usize::from(bytes::u16_at(part, 1));
    let formula = length_of(w);
    let start = (4 <= part.len()) & (version == 1);
    let good = start & ((own == formula) & (part.len() == formula));
    good.then_some(w)
}
