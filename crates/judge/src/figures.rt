// The figures of a sheet. Behind version, length, w and w bid numbers stand q and s, four bytes each; 28 bytes of each winner, X, Z, R and
// T; G in eight; 12 bytes of each non-empty set, Y and U. Numbers have eight bytes, but for q, s, Z and Y, which have four.
ghost use Rattle.std.specs.Prelude.{◌≡◌, ◌≤◌};
ghost use Rattle.certificate.specs.Figures.{certificate};
ghost use Rattle.demands.specs.Sheet.{numbers_in};

use crate::columns::column;
use book::bytes;
use certificate::ranges::Figures;

// How far behind X, a winner's first number, the others begin; and U behind Y, a set's first.
const Z: usize = 8;

const R: usize = 12;

const T: usize = 20;

const U: usize = 4;

// The figures of a sheet with w winners.
pub(crate) fn figures_of(part: &[u8], w: usize) -> Figures
    requires { w ≤ 6 }
    ensures { certificate result ≡ numbers_in w part.now }
{
    let end = numbers::sets_end(w);
    Figures {
        w: w as u64,
        q: u64::from(bytes::u32_at(part, 4 + w)),
        s: u64::from(bytes::u32_at(part, 8 + w)),
        g: bytes::u64_at(part, 12 + 29 * w),
        x: column(0, w, |j| bytes::u64_at(part, 12 + w + 28 * j)),
        z: column(
            0,
            w,
            |j| u64::from(bytes::u32_at(part, 12 + w + 28 * j + Z)),
        ),
        r: column(0, w, |j| bytes::u64_at(part, 12 + w + 28 * j + R)),
        t: column(0, w, |j| bytes::u64_at(part, 12 + w + 28 * j + T)),
        y: column(
            1,
            end,
            |set| u64::from(bytes::u32_at(part, 20 + 29 * w + 12 * (set - 1))),
        ),
        u: column(
            1,
            end,
            |set| bytes::u64_at(part, 20 + 29 * w + 12 * (set - 1) + U),
        ),
    }
}
