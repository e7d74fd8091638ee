// Big-endian numbers at any place of any bytes. A byte past the end reads as 0 (specs/Bytes.antt).
ghost use Rattle.std.specs.Prelude.{◌≡◌, ◌+◌, ◌≤◌, leb, length};
ghost use Rattle.book.specs.Bytes.{byte, field};

pub fn byte_at(bytes: &[u8], at: usize) -> u8
    ensures { result ≡ byte at bytes.now }
{
    bytes.get(at).copied().unwrap_or(0)
}

// Whether n bytes stand at a place: then one test does for all of them.
fn has_room(bytes: &[u8], at: usize, n: usize) -> bool
    ensures { result ≡ leb (at + n) (length bytes.now) }
{
    n <= bytes.len() && at <= bytes.len() - n
}

#[tactic(auto, using(crate::proofs::Fields::field_four))]
pub(crate) fn four_in(bytes: &[u8], at: usize) -> u32
    requires { at + 4 ≤ length bytes.now }
    ensures { result ≡ field at 4 bytes.now }
{
    u32::from_be_bytes([bytes[at], bytes[at + 1], bytes[at + 2], bytes[at + 3]])
}

#[tactic(auto, using(crate::proofs::Fields::field_eight))]
fn eight_in(bytes: &[u8], at: usize) -> u64
    requires { at + 8 ≤ length bytes.now }
    ensures { result ≡ field at 8 bytes.now }
{
    u64::from_be_bytes([
        bytes[at],
        bytes[at + 1],
        bytes[at + 2],
        bytes[at + 3],
        bytes[at + 4],
        bytes[at + 5],
        bytes[at + 6],
        bytes[at + 7],
    ])
}

// Where a number may end past the bytes it is read half by half.
#[tactic(auto, using(crate::proofs::Fields::field_past, crate::proofs::Fields::field_two))]
pub fn u16_at(bytes: &[u8], at: usize) -> u16
    ensures { result ≡ field at 2 bytes.now }
{
    if bytes.len() <= at {
        return 0;
    }
    u16::from(byte_at(bytes, at)) * 0x100 + u16::from(byte_at(bytes, at + 1))
}

pub fn u32_at(bytes: &[u8], at: usize) -> u32
    ensures { result ≡ field at 4 bytes.now }
{
    if has_room(bytes, at, 4) {
        return four_in(bytes, at);
    }
    if bytes.len() <= at {
        return 0;
    }
    u32::from(u16_at(bytes, at)) * 0x1_0000 + u32::from(u16_at(bytes, at + 2))
}

pub fn u64_at(bytes: &[u8], at: usize) -> u64
    ensures { result ≡ field at 8 bytes.now }
{
    if has_room(bytes, at, 8) {
        return eight_in(bytes, at);
    }
    if bytes.len() <= at {
        return 0;
    }
    u64::from(u32_at(bytes, at)) * 0x1_0000_0000 + u64::from(u32_at(bytes, at + 4))
}
