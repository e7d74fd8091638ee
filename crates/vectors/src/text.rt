// Bytes: where one stands, those after a place, and those that are written in hexadecimal.
ghost use Rattle.std.specs.Prelude.{◌≡◌, ◌-◌, ◌≤◌, ◌<◌, length, IfSome};

// Where a byte first stands, or the end.
pub(crate) fn find(s: &[u8], byte: u8) -> usize
    ensures { result ≤ length s.now }
{
    s.iter().position(|&b| b == byte).unwrap_or(s.len())
}

// The bytes after the first n.
pub(crate) fn after(s: &[u8], n: usize) -> &[u8]
    ensures { length result.now ≡ length s.now - n }
{
    s.get(n..).unwrap_or_default()
}

// What a hexadecimal digit counts, where the byte is one.
fn digit(b: u8) -> Option<u8>
    ensures { IfSome result (λ d. d < 16) }
{
    match b {
        b'0'..=b'9' => Some(b - b'0'),
        b'A'..=b'F' => Some(b - b'A' + 10),
        _ => None,
    }
}

// Puts the bytes that are written in s at the start of out, as many as fit, and says how many.
pub(crate) fn unhex(s: &[u8], out: &mut [u8]) -> usize
    ensures { result ≤ length out.new }
{
    let mut digits = s.iter().filter_map(|&b| digit(b));
    for (n, byte) in out.iter_mut().enumerate() {
        let (Some(high), Some(low)) = (digits.next(), digits.next()) else {
            return n;
        };
        *byte = high << 4 | low;
    }
    out.len()
}
