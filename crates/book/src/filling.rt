// A book's entries put from its bytes into arrays, with zeros past the counts and for hours past the kinds (specs/Reading.antt). The loop
// over bids tests no length: the caller has put question 2, so that the bids stand inside the bytes.
ghost use Rattle.std.specs.Prelude.{◌≡◌, ◌<◌, true, replicate};
ghost use Rattle.sets.specs.Tables.{tabulate};
ghost use Rattle.book.specs.Layout.{kind_here, book_in};
ghost use Rattle.book.specs.Questions.{counts_good};
ghost use Rattle.book.specs.Reading.{cap_of, kind_entry, arrays_of};

use crate::layout::{BESIDE_HOURS, FIRST_KIND, KIND};
use crate::value::{Book, Kind};
use crate::{bytes, kinds, layout};

// The kind at a place: a supply, and after it a reserve.
#[tactic(auto, unfolding(crate::specs::Layout::kind_here, crate::specs::Reading::kind_entry))]
fn kind_at(input: &[u8], at: usize) -> Kind
    requires { at < 1024 }
    ensures { result ≡ kind_entry (kind_here at input.now) }
{
    Kind {
        supply: bytes::byte_at(input, at),
        reserve: bytes::u16_at(input, at + 1),
    }
}

// The kinds.
pub(crate) fn kinds(input: &[u8]) -> [Kind; 4]
    ensures { result ≡ (arrays_of (book_in input.now)).kinds }
{
    let k = usize::from(layout::kinds(input));
    let first = kind_at(input, FIRST_KIND);
    let second = kind_at(input, FIRST_KIND + KIND);
    let third = kind_at(input, FIRST_KIND + 2 * KIND);
    let fourth = kind_at(input, FIRST_KIND + 3 * KIND);
    kinds::first_of(k, [first, second, third, fourth])
}

// The status of a client that stands, and of one that is withdrawn.
const STANDING: u8 = 0;

const WITHDRAWN: u8 = 1;

// The cap of a client that stands, which no bid's hours exceed.
const WHOLE: u16 = 65535;

// The cap of the client at a place: whole where it stands, and 0 where it is withdrawn or past the last.
#[tactic(auto, unfolding(crate::specs::Reading::cap_of))]
fn cap_at(statuses: &[u8], client: usize) -> u16
    ensures { result ≡ cap_of statuses.now client }
{
    let status = statuses.get(client).copied().unwrap_or(WITHDRAWN);
    if status == STANDING { WHOLE } else { 0 }
}

// The caps of clients with these statuses: single values, as of the kinds (src/kinds.rt).
#[tactic(auto, unfolding(sets::specs::Tables::tabulate))]
pub(crate) fn caps(statuses: &[u8]) -> [u16; 6]
    ensures { result ≡ tabulate 6 (cap_of statuses.now) }
{
    let first = cap_at(statuses, 0);
    let second = cap_at(statuses, 1);
    let third = cap_at(statuses, 2);
    let fourth = cap_at(statuses, 3);
    let fifth = cap_at(statuses, 4);
    let sixth = cap_at(statuses, 5);
    [first, second, third, fourth, fifth, sixth]
}

// The bids, into arrays of zeros: a client, four hours and an amount of each. Four bytes are taken for the hours whatever k is:
// the amount stands after them.
pub(crate) fn fill_bids(input: &[u8], book: &mut Book)
    requires counts { counts_good input.now ≡ true }
    requires clients { book.old.client ≡ replicate 48 0 }
    requires hours { book.old.hours ≡ replicate 48 (replicate 4 0) }
    requires amounts { book.old.amount ≡ replicate 48 0 }
    ensures { let held = arrays_of (book_in input.now) in
        book.new ≡ record book.old { client = held.client; hours = held.hours; amount = held.amount } }
{
    let k = usize::from(layout::kinds(input));
    let from = layout::bids_from(input);
    let long = k + BESIDE_HOURS;
    for i in 0..usize::from(layout::bids(input)) {
        let bid = &input[from + i * long..from + (i + 1) * long];
        book.client[i] = bid[0];
        book.hours[i] = kinds::first_of(k, [bid[1], bid[2], bid[3], bid[4]]);
        book.amount[i] = bytes::four_in(bid, k + 1);
    }
}
