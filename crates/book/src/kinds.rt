// What is said of each kind, one entry for each of four: those of the kinds that there are, and zeros past them.
ghost use Rattle.book.specs.Room.{FirstOf};

use crate::value::KINDS;

// The first k of four entries. They are four single values, since of a loop a compiler makes a copy that it then waits for; and all four
// are handed back as they are, so that a loop over bids moves four hours at once.
pub(crate) fn first_of<T: Default + Copy>(k: usize, entries: [T; 4]) -> [T; 4]
    ensures { FirstOf T.is_default k entries result }
{
    if KINDS <= k {
        return entries;
    }
    let first = numbers::share(0 < k, entries[0]);
    let second = numbers::share(1 < k, entries[1]);
    let third = numbers::share(2 < k, entries[2]);
    let fourth = numbers::share(3 < k, entries[3]);
    [first, second, third, fourth]
}
