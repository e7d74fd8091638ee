// The library for callers in C, C++, Rust and others: functions that return their answers by value and lend nothing.
#![tactic(auto)]

ghost use Rattle.book.specs.Layout.{book_in};
ghost use Rattle.book.specs.Questions.{book_refusal};
ghost use Rattle.demands.specs.Call.{call_in};
ghost use Rattle.judge.specs.Judgement.{Judgement};
ghost use Rattle.listing.specs.Listing.{Listed};
ghost use Rattle.winners.specs.Surpluses.{AllSurplusesAre};
ghost use Rattle.winners.specs.Worth.{WorthIs};
ghost use Rattle.exports.specs.Version.{version_number};
ghost use Rattle.std.specs.Prelude.{◌≡◌};

use judge::Prices;
use text::Text;
use winners::{SigmaTable, Worth};

// The greatest value of a book with clients discarded.
#[unsafe(no_mangle)]
pub extern "C" fn gimletsorrel_greatest_value(book: &[u8], discard: u8) -> Worth
    ensures { WorthIs (book_refusal book.now) (book_in book.now) discard result.number result.value }
{
    winners::greatest_value(book, discard)
}

// The greatest value of a book, and σ of every set of its clients.
#[unsafe(no_mangle)]
pub extern "C" fn gimletsorrel_surpluses(book: &[u8]) -> SigmaTable
    ensures { AllSurplusesAre book.now result.number result.value result.sigma }
{
    winners::surpluses(book)
}

// The answer to an input: a book, and the sheet after it.
#[unsafe(no_mangle)]
pub extern "C" fn gimletsorrel_judge_sheet(input: &[u8]) -> Prices
    ensures { Judgement (call_in input.now) result }
{
    judge::judge_sheet(input)
}

// The text that is printed for an input.
#[unsafe(no_mangle)]
pub extern "C" fn gimletsorrel_price_list(input: &[u8]) -> Text
    ensures { Listed input.now result }
{
    listing::price_list(input)
}

// The version that the file VERSION names: the gate holds the three numbers to it.
const MAJOR: u32 = 0;

const MINOR: u32 = 1;

const PATCH: u32 = 0;

// The version of the library as one number.
#[unsafe(no_mangle)]
pub extern "C" fn gimletsorrel_version() -> u32
    ensures { result ≡ version_number 0 1 0 }
{
    10000 * MAJOR + 100 * MINOR + PATCH
}
