// The greatest value of a set of clients where nobody passes, by a search on the clients left, which are fewer by one at each call. It ends
// a client's row, whose weights fall, at the first bid that cannot beat what is found: the known value of the clients after it is the most
// that they can add. The hours of a bid and the hours used are numbers in lanes.
ghost use Rattle.std.specs.Prelude.{◌≡◌, ℕ, ◌≤◌, length, get_or};
ghost use Rattle.winners.specs.Full.{found_most, Searchable, Searched};
ghost use Rattle.winners.specs.Rows.{offer_at, row_of};
ghost use Rattle.winners.specs.declared.places.TheConstants.{ROWS, SETS};

use crate::places::{ROW_BIDS, ROWS, SETS};
use crate::row::{Offer, Row};
use crate::{client_sets, lanes};

// What the search looks up: the rows by client, and by set the values of the clients left, which are ceilings.
#[derive(Clone, Copy)]
pub(crate) struct Search<'a> {
    pub(crate) rows: &'a [Row; ROWS],
    pub(crate) values: &'a [u64; SETS],
    ghost rows_long: { length rows.now ≡ ROWS },
    ghost values_long: { length values.now ≡ SETS },
    ghost values_few: { (set : ℕ) → get_or values.now set 0 ≤ found_most },
}

impl<'a> Search<'a> {
    // A client's offers.
    fn row(self, client: usize) -> &'a [Offer]
        requires { client ≤ 6 }
        ensures { result.now ≡ row_of self.entry.rows.now client }
    {
        self.rows[client].offers()
    }

    // A client's head, the first and heaviest of its offers.
    pub(crate) fn head(self, client: usize) -> Offer
        requires { (client ≤ 6) × (1 ≤ length (row_of self.rows.now client)) }
        ensures { result ≡ offer_at (row_of self.entry.rows.now client) 0 }
    {
        self.row(client)[0]
    }

    // The larger of the floor and of the greatest value of one client that does not pass, the last: as weights fall, the first of its bids
    // that fits is its best.
    fn last_bid(self, set: usize, used: u64, floor: u64) -> u64
        requires { Searchable 1 set used floor self.rows.now self.values.now }
        ensures { Searched set used floor self.entry.rows.now self.entry.values.now result }
    {
        let client = client_sets::first(set);
        for offer in self.row(client) {
            let taken = used + offer.hours;
            if lanes::fit(taken) {
                return floor.max(offer.weight);
            }
        }
        floor
    }

    // The same of two clients, the last: for each bid of the first that fits, the best of the other's. The loop ends with the room of a
    // row, so that a compiler can write it out.
    fn last_pair(self, set: usize, used: u64, floor: u64) -> u64
        requires { Searchable 2 set used floor self.rows.now self.values.now }
        ensures { Searched set used floor self.entry.rows.now self.entry.values.now result }
    {
        let client = client_sets::first(set);
        let rest = client_sets::others(set);
        let most = self.values[rest];
        let offers = self.row(client);
        let mut top = floor;
        for d in 0..ROW_BIDS {
            if offers.len() <= d {
                return top;
            }
            let offer = offers[d];
            let after = used + offer.hours;
            if lanes::fit(after) {
                if offer.weight + most <= top {
                    return top;
                }
                top = offer.weight + self.last_bid(rest, after, top.saturating_sub(offer.weight));
            }
        }
        top
    }

    // The same of a set of clients (`ahead` of them), in whatever market the rows lay out. The last two clients take no call of their own.
    pub(crate) fn full(self, ahead: usize, set: usize, used: u64, floor: u64) -> u64
        requires { Searchable ahead set used floor self.rows.now self.values.now }
        ensures { Searched set used floor self.entry.rows.now self.entry.values.now result }
    {
        if ahead == 1 {
            return self.last_bid(set, used, floor);
        }
        if ahead == 2 {
            return self.last_pair(set, used, floor);
        }
        let client = client_sets::first(set);
        let rest = client_sets::others(set);
        let ceiling = self.values[rest];
        let mut top = floor;
        for offer in self.row(client) {
            let weight = offer.weight;
            if weight + ceiling <= top {
                return top;
            }
            let after = used + offer.hours;
            if lanes::fit(after) {
                let base = top.saturating_sub(weight);
                let more = if ahead == 3 {
                    self.last_pair(rest, after, base)
                } else {
                    self.full(ahead - 1, rest, after, base)
                };
                top = weight + more;
            }
        }
        top
    }
}
