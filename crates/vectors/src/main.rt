// Runs test vectors through the public operations. Standard input has a line for each: a letter that says which operation, a label, a
// colon, and bytes in hexadecimal (spaces count for nothing). For each line the letter, the label, a colon and the answer are printed, a
// space before each number. rust/vectors writes the lines, and what must be printed.
//
// Operations over bytes (over_bytes.rt) take their numbers first, one byte each, then the bytes:
//   b w d q  the number in 1, 2, 4 or 8 bytes at a place
//   R        reading a book: number, length and the book
//   G        the greatest value without the clients of a discard byte; D for all 256 discard bytes
//   T        the greatest value, and σ of every set of clients
//   J        judging an input
//   F        reading a sheet over a book of n clients; f the bid numbers alone
// Operations over a book that is a value (over_value.rt) take their numbers, then changes of the value (change.rt), then the book's bytes:
//   S        the number of the first question that it fails
//   c a r h  of a bid, its client, amount, reserves and hours; t whether a client stands; s the supplies
//   l        of a bid, its client, amount and reserves in one answer
//   g        the greatest value without the clients of a discard byte
//   u        the greatest value, and σ of the sets of a list of clients: how many, then six places
//   W        weighing a list of bids: how many, then six places
//   O        judging a sheet, which follows the book
#![tactic(auto)]

mod change;
mod over_bytes;
mod over_value;
mod print;
mod text;

ghost use Rattle.std.specs.Prelude.{◌<◌, length};

use book::{Book, bytes};
use change::book_of;
use judge::sheet;
use print::{number, numbers};
use std::io::{self, Read};

// Prints the answer to a letter and bytes. Any letter that is no other's is O.
fn answer(out: &impl Print, letter: u8, s: &[u8]) -> io::Result<()> {
    match letter {
        b'b' => number(out, over_bytes::numbered(s, bytes::byte_at)),
        b'w' => number(out, over_bytes::numbered(s, bytes::u16_at)),
        b'd' => number(out, over_bytes::numbered(s, bytes::u32_at)),
        b'q' => number(out, over_bytes::numbered(s, bytes::u64_at)),
        b'R' => print::reading(out, book::read(s)),
        b'G' => print::worth(out, over_bytes::worth(s)),
        b'D' => print::worths(out, s),
        b'T' => print::table(out, winners::surpluses(s)),
        b'J' => print::prices(out, judge::judge_sheet(s)),
        b'F' => print::sheet(out, over_bytes::numbered(s, sheet::read)),
        b'f' => numbers(out, &sheet::bids_of(s)),
        b'S' => number(out, questions::number_in(&book_of(s).sound())),
        b's' => numbers(out, &book_of(s).supplies()),
        b'c' => number(out, over_value::numbered(s, Book::client_of)),
        b'a' => number(out, over_value::numbered(s, Book::amount_of)),
        b'r' => number(out, over_value::numbered(s, Book::reserves_of)),
        b'l' => numbers(out, &over_value::numbered(s, over_value::bid)),
        b'h' => numbers(out, &over_value::numbered(s, Book::hours_of)),
        b't' => number(out, u8::from(over_value::numbered(s, Book::is_standing))),
        b'g' => print::worth(out, over_value::worth(s)),
        b'u' => print::table(out, over_value::table(s)),
        b'W' => print::weighed(out, over_value::weighed(s)),
        _ => print::prices(out, over_value::judged(s)),
    }
}

// Prints a line's letter and label, a colon, and the answer.
fn print_line(out: &impl Print, label: &[u8], s: &[u8]) -> io::Result<()> {
    out.write_all(label)?;
    out.write_all(b":")?;
    answer(out, bytes::byte_at(label, 0), s)?;
    out.write_all(b"\n")
}

// How many bytes of a line are taken; more are left out.
const ROOM: usize = 4096;

// Prints the answer to the first of some lines, and hands out those after it. A line that cannot be written is passed over.
fn run_line<'a>(out: &impl Print, lines: &'a [u8]) -> &'a [u8]
    requires { 0 < length lines.now }
    ensures { length result.now < length lines.now }
{
    let (label, rest) = lines.split_at(text::find(lines, b':'));
    let (written, rest) = rest.split_at(text::find(rest, b'\n'));
    let mut bytes = [0; ROOM];
    let n = text::unhex(written, &mut bytes);
    let _ = print_line(out, label, &bytes[..n]);
    text::after(rest, 1)
}

fn run_all(out: &impl Print, mut lines: &[u8]) {
    while !lines.is_empty() {
        lines = run_line(out, lines);
    }
}

fn main(rt: HostRuntime) {
    let mut lines = Vec::new(rt.alloc());
    let _ = rt.stdin().read_to_end(&mut lines);
    run_all(&rt, lines.as_slice());
}
