// How many there are of what the search looks up.

// How many clients there are at the most, and rows with nobody's, which is row 0.
pub(crate) const CLIENTS: usize = 6;

pub(crate) const ROWS: usize = 7;
// How many bids a row has room for.
pub(crate) const ROW_BIDS: usize = 8;
// How many sets of clients there are, and the set of all.
pub(crate) const SETS: usize = 64;

pub(crate) const ALL: usize = 63;
