// A book as a value: what layer 1 hands out and every layer above takes. A cap of 0 is a withdrawn client's. What any such value means as a
// book is said by `book_of` (specs/Value.antt); the methods say it of its bids, kinds and clients, by the number of a bid or a client from
// 1. Where there is none, 0.
ghost use Rattle.std.specs.Prelude.{◌≡◌, min, map, get_or, IfOk};
ghost use Rattle.questions.specs.Numbers.{number_in};
ghost use Rattle.book.specs.Lists.{row};
ghost use Rattle.book.specs.Book.{bid_at, client_of, standing, supplies, reserves_of};

use crate::sound::SoundBook;
use crate::{counts, kinds, paid, tables, test_of_value};
use questions::Question;

// How many kinds, clients and bids there is room for.
pub(crate) const KINDS: usize = 4;

pub(crate) const CLIENTS: usize = 6;

pub(crate) const BIDS: usize = 48;

// A kind of hour: how many are for sale, and the reserve of one.
#[derive(Clone, Copy, Default)]
#[repr(C)]
pub struct Kind {
    pub supply: u8,
    pub reserve: u16,
}

// A bid: whose it is, the hours of each kind that it asks for, and its amount.
#[derive(Clone, Copy, Default)]
struct Bid {
    client: u8,
    hours: [u8; 4],
    amount: u32,
}

// Bids are in three arrays: in one of structs they took longer to read. Kinds, which have padding, stand last, or a book that is filled is
// copied through memory (docs/DECISIONS.md, 63 and 53).
#[derive(Clone, Copy, Default)]
#[repr(C)]
pub struct Book {
    pub k: u8,
    pub n: u8,
    pub caps: [u16; 6],
    pub m: u8,
    pub client: [u8; 48],
    pub hours: [[u8; 4]; 48],
    pub amount: [u32; 48],
    pub kinds: [Kind; 4],
}

impl Book {
    ghost use Rattle.book.specs.Value.{kind_of, book_of, sound_number};

    // How many kinds it has.
    pub(crate) fn kind_count(&self) -> usize
        ensures { result ≡ min self.now.k 4 }
    {
        usize::from(self.k).min(KINDS)
    }

    // How many clients.
    pub(crate) fn client_count(&self) -> usize
        ensures { result ≡ min self.now.n 6 }
    {
        usize::from(self.n).min(CLIENTS)
    }

    // How many bids.
    pub(crate) fn bid_count(&self) -> usize
        ensures { result ≡ min self.now.m 48 }
    {
        usize::from(self.m).min(BIDS)
    }

    // The kinds that count.
    pub(crate) fn held_kinds(&self) -> &[Kind]
        ensures { map kind_of result.now ≡ (book_of self.now).kinds }
    {
        &self.kinds[..self.kind_count()]
    }

    // The bid of a number; 0 past the last kind, and zeros where there is no bid.
    fn bid(&self, number: usize) -> Bid
        ensures client { result.client ≡ client_of (book_of self.now) number }
        ensures hours { result.hours ≡ row 4 0 (λ j. get_or (bid_at (book_of self.now) number).hours j 0) }
        ensures amount { result.amount ≡ (bid_at (book_of self.now) number).amount }
    {
        if !counts::within(1, number, self.bid_count()) {
            return Bid::default();
        }
        let place = number - 1;
        Bid {
            client: self.client[place],
            hours: kinds::first_of(self.kind_count(), self.hours[place]),
            amount: self.amount[place],
        }
    }

    // The client of a bid.
    pub fn client_of(&self, number: usize) -> u8
        ensures { result ≡ client_of (book_of self.now) number }
    {
        self.bid(number).client
    }

    // The amount of a bid.
    pub fn amount_of(&self, number: usize) -> u32
        ensures { result ≡ (bid_at (book_of self.now) number).amount }
    {
        self.bid(number).amount
    }

    // The reserves of a bid's hours.
    #[tactic(auto, using(crate::proofs::ReservedHours::reserves_by_number))]
    pub fn reserves_of(&self, number: usize) -> u64
        ensures { result ≡ reserves_of (bid_at (book_of self.now) number).hours (book_of self.now).kinds }
    {
        paid::reserves_of_four(self.bid(number).hours, self.kinds)
    }

    // The hours that a bid asks of each kind; 0 past the last kind.
    pub fn hours_of(&self, number: usize) -> [u8; 4]
        ensures { result ≡ row 4 0 (λ j. get_or (bid_at (book_of self.now) number).hours j 0) }
    {
        self.bid(number).hours
    }

    // The hours for sale of each kind; 0 past the last.
    pub fn supplies(&self) -> [u8; 4]
        ensures { result ≡ row 4 0 (λ j. get_or (supplies (book_of self.now)) j 0) }
    {
        let [first, second, third, fourth] = kinds::first_of(self.kind_count(), self.kinds);
        [first.supply, second.supply, third.supply, fourth.supply]
    }

    // Whether a client stands; nobody is client 0, and nobody stands past the last.
    #[tactic(auto, using(crate::proofs::Held::standing_by_number))]
    pub fn is_standing(&self, client: usize) -> bool
        ensures { result ≡ standing (book_of self.now) client }
    {
        if !counts::within(1, client, self.client_count()) {
            return false;
        }
        self.caps[client - 1] != 0
    }

    // The book with the knowledge that it is sound, or the first of questions 2 to 5 that it fails. What comes after the first 'no' is not
    // looked at.
    pub fn sound(&self) -> Result<SoundBook<'_>, Question>
        ensures number { number_in result ≡ sound_number self.now }
        ensures book { IfOk result (λ sound. sound.book.now ≡ self.now) }
    {
        let k = usize::from(self.k);
        if !counts::are_counts_ranged(k, usize::from(self.n), usize::from(self.m)) {
            return Err(Question::Counts);
        }
        if !tables::kinds_good(self.held_kinds()) {
            return Err(Question::Tables);
        }
        test_of_value::bids(self)?;
        Ok(SoundBook { book: self })
    }
}
