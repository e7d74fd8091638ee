// Layer 2: weighing combinations of a book that is a value.
//
// What a client may cite: `weigh`, whether bids are a combination of greatest value, with v and σ of every set of them; `greatest_of`, the
// greatest value with clients discarded; `surpluses_of`, v and σ of every set of a list of clients. Each takes any value, puts
// `Book::sound` to it first, asks nothing of its caller, and its contract gives every field of its answer as a value (specs/). For callers
// with the bytes of a book there are `greatest_value` and `surpluses`, by `book::read`, which finds a book sound or refuses it; and
// `weigh_sound` is `weigh` of a book that is known to be sound. Laws for the layers above: proofs/Books.antt, Greatest.antt, Surplus.antt
// and Most.antt.
#![tactic(auto)]

mod choice;
mod client_sets;
mod full;
mod hours;
mod kept;
mod lanes;
mod lists;
mod pass;
mod places;
mod row;
mod rows;
mod table;
mod taken;
mod trims;
mod value;
mod values;
mod weighing;

pub use table::{SigmaTable, surpluses, surpluses_of};
pub use value::{Worth, greatest_of, greatest_value};
pub use values::Surpluses;
pub use weighing::{Weighed, weigh, weigh_sound};
