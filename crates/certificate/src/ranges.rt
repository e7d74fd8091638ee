// An auction certificate in arrays by value, and question 7: whether its figures are in range.
ghost use Rattle.std.specs.Prelude.{◌≡◌, cond, min};
ghost use Rattle.questions.specs.Numbers.{number_in};
ghost use Rattle.pricing.specs.Ranges.{in_range};
ghost use Rattle.certificate.specs.Figures.{certificate};

use crate::asking::ask;
use crate::limits::in_range;
use questions::Question;

// A certificate: w winners, the denominators q and s, the 64 bits of G in two's complement, then x, z, r and t by winner, y and u by
// the set's number. Entries from w up, set 0 and sets from 2^w up are not looked at.
#[derive(Clone, Copy, Default)]
pub struct Figures {
    pub w: u64,
    pub q: u64,
    pub s: u64,
    pub g: u64,
    pub x: [u64; 6],
    pub z: [u64; 6],
    pub r: [u64; 6],
    pub t: [u64; 6],
    pub y: [u64; 64],
    pub u: [u64; 64],
}

impl Figures {
    // The number of winners that are looked at: the arrays have room for six. That no loop goes further is plain to a compiler by this.
    pub fn winners(&self) -> usize
        ensures { result ≡ min self.now.w 6 }
    {
        self.w.min(6) as usize
    }
}

// Question 7.
pub fn ranges(f: Figures) -> Result<(), Question>
    ensures { number_in result ≡ cond (in_range (certificate f)) 0 7 }
{
    ask(in_range(f), Question::Ranges)
}
