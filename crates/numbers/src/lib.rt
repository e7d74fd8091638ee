// Small functions on numbers, and on sets written as numbers, which ask nothing. Every layer cites their contracts, but no layer yet that
// of `sheet_length`. The laws of proofs/Shifts.antt say what a shift computes that loses no bit, and those of proofs/Lengths.antt what the
// table of sheet lengths holds.
#![tactic(auto)]

ghost use Rattle.std.specs.Prelude.{◌≡◌, true, false, ◌^◌, ◌≤◌, min};
ghost use Rattle.sets.specs.Sets.{has};
ghost use Rattle.numbers.specs.Lengths.{sheet_length};

// A number where it counts, and 0 where it does not.
pub fn share<T: Default + Copy>(on: bool, number: T) -> T
    ensures counted { on ≡ true → result ≡ number }
    ensures left_out { on ≡ false → T.is_default result }
{
    if on { number } else { T::default() }
}

// Whether a set of places, written as a number, has a place.
#[tactic(auto, using(sets::proofs::Members::and_mask), unfolding(sets::specs::Sets::has))]
pub fn has(set: usize, place: usize) -> bool
    ensures { result ≡ has set place }
{
    place < 64 && (set >> place) & 1 == 1
}

// 2^w, the end of the sets of w winners, whose numbers are 1 to 2^w - 1; for more than six winners as for six.
pub fn sets_end(w: usize) -> usize
    ensures { (result ≡ 2 ^ min w 6) × (1 ≤ result) × (result ≤ 64) }
{
    1 << w.min(6)
}

// The length of a sheet in bytes, by its number of winners.
const SHEET_LENGTHS: [usize; 7] = [20, 61, 114, 191, 316, 537, 950];

// The length of a sheet with w winners; 0, which is no sheet's, for more than six.
#[tactic(auto, unfolding(crate::specs::Lengths::sheet_length, crate::specs::Lengths::sheet_lengths))]
pub fn sheet_length(w: usize) -> usize
    ensures { result ≡ sheet_length w }
{
    SHEET_LENGTHS.get(w).copied().unwrap_or(0)
}
