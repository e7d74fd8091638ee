// The program: reads a call from standard input and writes its price list, or its refusal, to standard output. What is printed of what was
// read is proved in crates/listing, and here that enough is read. Standard error says where there was no input, and where the text cannot
// be written. A read that fails counts as the end of the input.
#![tactic(auto)]

ghost use Rattle.std.specs.Prelude.{◌<◌, ◌≤◌, ℕ, List, length, take, IfSome, OnOk};
ghost use Rattle.std.specs.Io.KnownBytes.{Consumes, IsAtEnd};
ghost use Rattle.listing.specs.Listing.{Listed};

use std::io;
use std::io::Read;
use text::Text;

// How many bytes were read, and whether a read failed then.
#[derive(Drop)]
struct Filled {
    len: usize,
    end: io::Result<()>,
}

// Reads until the array is full, the input ends or a read fails; what was read stands at the start of the array.
fn read_full<R: Read>(reader: &mut R, into: &mut [u8]) -> Filled
    ensures within { result.len ≤ length into.new }
    ensures bytes { Consumes (R.remaining reader.old) (R.remaining reader.new) (take result.len into.new) }
    ensures all { OnOk result.end (result.len < length into.new → IsAtEnd (R.remaining reader.new)) }
{
    let mut len = 0;
    while len < into.len() {
        match reader.read(&mut into[len..]) {
            Ok(0) => break,
            Ok(more) => len += more,
            Err(error) => return Filled {
                len,
                end: Err(error),
            },
        }
    }
    Filled { len, end: Ok(()) }
}

// The printed text of what a reader gives, and how its reading ended.
#[derive(Drop)]
struct Answered {
    list: Text,
    filled: Filled,
}

// Reads an input, up to more bytes than any call has, and answers it: with the text of the bytes that were read, which is that of the whole
// input unless a read is said to have failed.
fn answer<R: Read>(reader: &mut R) -> Answered
    ensures read { (read : List ℕ) × Consumes (R.remaining reader.old) (R.remaining reader.new) read × Listed read result.list }
    ensures whole { OnOk result.filled.end (IfSome (R.remaining reader.old) (λ input. Listed input result.list)) }
{
    let mut input = [0; listing::LOOKED_AT];
    let filled = read_full(reader, &mut input);
    let list = listing::price_list_of(&input[..filled.len]);
    Answered { list, filled }
}

fn main(rt: HostRuntime) {
    let answered = answer(&mut rt.stdin());
    if answered.filled.len == 0 {
        let _ = rt.stderr().write_all(b"price_list: the input is empty\n");
    }
    let written = rt.stdout().write_all(answered.list.as_slice());
    if written.is_err() {
        let _ = rt
            .stderr()
            .write_all(b"price_list: the answer could not be written\n");
    }
}
