// The pass over all sets of clients, from few clients to many. A set's value is the larger of its floor, which is the largest value without
// one of its clients, and of its best combination where nobody passes. Where its clients' heaviest bids fit together, they are that, and
// nothing is searched.
ghost use Rattle.std.specs.Prelude.{◌≡◌, ◌+◌, ◌<◌, ltb, length};
ghost use Rattle.sets.specs.Sets.{set_of};
ghost use Rattle.book.specs.Book.{supplies};
ghost use Rattle.book.specs.Value.{book_of};
ghost use Rattle.winners.specs.Combinations.{amount_of};
ghost use Rattle.winners.specs.Passes.{FloorPast, ValuesTo, Weighable, SetWeighed, Passable, SetsWeighed};
ghost use Rattle.winners.specs.Rows.{row_of, searched};

use crate::full::Search;
use crate::places::{ROWS, SETS};
use crate::row::Row;
use crate::taken::Taken;
use crate::{client_sets, lanes, rows, trims};
use book::SoundBook;

// A set's floor: one client after another is left out.
fn floor_of(set: usize, values: &[u64; SETS]) -> u64
    requires { set < 64 }
    ensures { FloorPast 0 set values.now result }
{
    let mut floor: u64 = 0;
    let mut left = set;
    while 0 < left {
        let rest = client_sets::others(left);
        floor = floor.max(values[set - (left - rest)]);
        left = rest;
    }
    floor
}

// The set of the clients that have a bid.
fn held_in(rows: &[Row; ROWS]) -> usize
    ensures { result ≡ set_of 6 (λ j. ltb 0 (length (row_of rows.now (1 + j)))) }
{
    client_sets::of_those(
        |j|
            requires { j < 6 }
        { !rows[j + 1].offers().is_empty() },
    )
}

// The value of a set, by what its clients take.
fn value_of(set: usize, taken: Taken, search: Search) -> u64
    requires { Weighable set taken.least taken.heads search.rows.now search.values.now }
    ensures { SetWeighed set taken.least taken.heads search.entry.rows.now search.entry.values.now result }
{
    if lanes::fit(taken.heads) {
        let first = client_sets::first(set);
        return search.head(first).weight + search.values[client_sets::others(set)];
    }
    let floor = floor_of(set, search.values);
    if !lanes::fit(taken.least) {
        return floor;
    }
    search.full(client_sets::count(set), set, taken.least, floor)
}

// The values of all sets. Clients without a bid are left out, and for the others the least hours and the hours of heads are added up from
// set to set.
fn weigh_sets(held: usize, used: u64, rows: &[Row; ROWS], leasts: &[u64; ROWS]) -> [u64; SETS]
    requires { Passable held used rows.now leasts.now }
    ensures { SetsWeighed held used rows.now leasts.now result }
{
    let mut values = [0u64; SETS];
    let mut taken = [Taken {
        least: used,
        heads: used,
    }; SETS];
    for set in 1..SETS {
        let some = set & held;
        if some < set {
            values[set] = values[some];
        } else {
            let first = client_sets::first(set);
            let rest = client_sets::others(set);
            let search = Search {
                rows,
                values: &values,
            };
            let least = leasts[first];
            let now = taken[rest].with_client(least, least + search.head(first).hours);
            taken[set] = now;
            values[set] = value_of(set, now, search);
        }
    }
    values
}

// The greatest value of every set of clients of a sound book, of which some are discarded: these add nothing to any set. Where nobody has
// a bid it is 0.
pub(crate) fn weigh_all(sound: SoundBook, discard: u8) -> [u64; SETS]
    ensures { let b = book_of sound.entry.book.now in ValuesTo (searched b discard) (amount_of b) (supplies b) 64 result }
{
    let used = lanes::used(sound.book.supplies());
    let mut rows = [Row::empty(); ROWS];
    rows::fill(sound, discard, used, &mut rows);
    let leasts = trims::settle_all(&mut rows);
    let held = held_in(&rows);
    if held == 0 {
        return [0; SETS];
    }
    weigh_sets(held, used, &rows, &leasts)
}
