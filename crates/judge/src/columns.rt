// An array of numbers by place, filled up with zeros: a column of a sheet.
ghost use Rattle.std.specs.Prelude.{◌≡◌, ℕ, ◌≤◌, ◌<◌};
ghost use Rattle.judge.specs.Columns.{Column};

// The numbers from place `first` on and before `end`, as `number` gives them.
pub(crate) fn column<const N: usize, F: Fn(usize) -> u64>(
    first: usize,
    end: usize,
    number: F,
) -> [u64; N]
    requires room { (first ≤ end) × (end ≤ N) }
    requires may { (i : ℕ) → first ≤ i → i < end → F.pre number i }
    ensures { (f : ℕ → ℕ) → ((i r : ℕ) → first ≤ i → i < end → F.post number i r → r ≡ f i) → Column first end f result }
{
    let mut xs = [0; N];
    for i in first..end {
        xs[i] = number(i);
    }
    xs
}
