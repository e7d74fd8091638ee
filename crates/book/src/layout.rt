// The length and the counts that any bytes give a book, and where its statuses and bids stand by these (specs/Layout.antt).
ghost use Rattle.std.specs.Prelude.{◌≡◌, ◌<◌, true};
ghost use Rattle.book.specs.Layout.{book_long, k_of, n_of, m_of, statuses_from, bids_from, book_in};
ghost use Rattle.book.specs.Questions.{counts_good};

use crate::bytes;

// Where the length stands, and the number of kinds.
const LENGTH: usize = 1;

const KINDS: usize = 3;

// Where the first kind stands.
pub(crate) const FIRST_KIND: usize = 4;

// The bytes of a kind: a supply, and two of a reserve.
pub(crate) const KIND: usize = 3;

// The bytes of a bid beside its hours: a client ahead of them, and four of an amount after them.
pub(crate) const BESIDE_HOURS: usize = 5;

#[tactic(auto, unfolding(crate::specs::Layout::book_long))]
pub(crate) fn length(book: &[u8]) -> u16
    ensures { result ≡ book_long book.now }
{
    bytes::u16_at(book, LENGTH)
}

#[tactic(auto, unfolding(crate::specs::Layout::k_of))]
pub(crate) fn kinds(book: &[u8]) -> u8
    ensures { result ≡ k_of book.now }
{
    bytes::byte_at(book, KINDS)
}

#[tactic(auto, unfolding(crate::specs::Layout::n_of))]
pub(crate) fn clients(book: &[u8]) -> u8
    ensures { result ≡ n_of book.now }
{
    bytes::byte_at(book, FIRST_KIND + KIND * usize::from(kinds(book)))
}

#[tactic(auto, unfolding(crate::specs::Layout::statuses_from))]
pub(crate) fn statuses_from(book: &[u8]) -> usize
    ensures place { result ≡ statuses_from book.now }
    ensures low { result < 1024 }
{
    FIRST_KIND + KIND * usize::from(kinds(book)) + 1
}

#[tactic(auto, unfolding(crate::specs::Layout::statuses_from, crate::specs::Layout::m_of))]
pub(crate) fn bids(book: &[u8]) -> u8
    ensures { result ≡ m_of book.now }
{
    bytes::byte_at(book, statuses_from(book) + usize::from(clients(book)))
}

#[tactic(auto, unfolding(crate::specs::Layout::statuses_from, crate::specs::Layout::bids_from))]
pub(crate) fn bids_from(book: &[u8]) -> usize
    ensures place { result ≡ bids_from book.now }
    ensures low { result < 2048 }
{
    statuses_from(book) + usize::from(clients(book)) + 1
}

// The statuses of a book whose counts are good.
pub(crate) fn statuses(book: &[u8]) -> &[u8]
    requires { counts_good book.now ≡ true }
    ensures { result.now ≡ (book_in book.now).statuses }
{
    let from = statuses_from(book);
    let n = usize::from(clients(book));
    &book[from..from + n]
}
