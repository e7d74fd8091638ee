// Text in a fixed array of 128 bytes: bytes are put one behind the other, and what no longer fits is left out. A caller may cite the
// contracts of the methods of `Text`, the definitions of specs/ and the laws of proofs/. No method asks anything of its caller, and none
// can fail.
#![tactic(auto)]

ghost use Rattle.std.specs.Prelude.{◌≡◌, take};
ghost use Rattle.text.specs.Decimal.{decimal};
ghost use Rattle.text.specs.Text.{blank, pushed, pushes};

// How many bytes there is room for.
const CAPACITY: usize = 128;

// Bytes, of which the first `len` have been put there.
#[derive(Clone, Copy)]
#[repr(C)]
pub struct Text {
    pub bytes: [u8; CAPACITY],
    pub len: usize,
}

impl Text {
    // No byte yet: zeros, none of them counted.
    #[tactic(auto, unfolding(crate::specs::Text::blank))]
    pub fn new() -> Text
        ensures { result ≡ blank }
    {
        Text {
            bytes: [0; CAPACITY],
            len: 0,
        }
    }

    // The bytes that have been put there; all 128 where `len` is greater.
    pub fn as_slice(&self) -> &[u8]
        ensures { result.now ≡ take self.now.len self.now.bytes }
    {
        &self.bytes[..self.len.min(CAPACITY)]
    }

    // Puts a byte behind the others; where there is no room left, the text stays as it is.
    #[tactic(auto, unfolding(crate::specs::Text::pushed))]
    pub fn push(&mut self, byte: u8)
        ensures { self.new ≡ pushed self.old byte }
    {
        if self.len < CAPACITY {
            self.bytes[self.len] = byte;
            self.len += 1;
        }
    }

    // Puts the bytes of a word behind the others.
    pub fn push_all(&mut self, word: &[u8])
        ensures { self.new ≡ pushes self.old word.now }
    {
        for &byte in word {
            self.push(byte);
        }
    }

    // Puts the decimal digits of a number behind the others, in ASCII: those of its tenth, where there are any, and then the last one.
    #[tactic(auto, using(crate::proofs::Decimal::decimal_steps, crate::proofs::Pushes::pushes_snoc), unfolding(crate::specs::Text::pushes))]
    pub fn push_decimal(&mut self, n: u64)
        ensures { self.new ≡ pushes self.old (decimal n) }
    {
        if 10 <= n {
            self.push_decimal(n / 10);
        }
        self.push(b'0' + (n % 10) as u8);
    }
}
