// Least hours: for each client the least hours of each kind among its bids are taken off its bids, so that they are asked for once,
// whatever bids are taken.
ghost use Rattle.std.specs.Prelude.{ℕ, ◌≤◌};
ghost use Rattle.market.specs.Market.{Market};
ghost use Rattle.winners.specs.Rows.{offers_of, RowsHeld};
ghost use Rattle.winners.specs.Trims.{Settled, TrimmedTo};

use crate::places::ROWS;
use crate::row::Row;

// One row. The least hours are handed back.
#[tactic(auto, using(crate::proofs::Trimming::settled_there))]
fn settle(row: &mut Row) -> u64
    ensures { Settled (offers_of row.old) (offers_of row.new) result }
{
    let least = row.least_hours();
    row.take_off(least);
    least
}

// All clients' rows, of whatever market they are. The least hours are handed back by client.
pub(crate) fn settle_all(rows: &mut [Row; ROWS]) -> [u64; ROWS]
    ensures { (m : Market) (wt : ℕ → ℕ) (k n : ℕ) → k ≤ 4 → RowsHeld m wt k n rows.old
        → TrimmedTo m wt k n ROWS rows.new result }
{
    let mut leasts = [0u64; ROWS];
    for c in 1..ROWS {
        leasts[c] = settle(&mut rows[c]);
    }
    leasts
}
