// The hours of up to four kinds in one number: a lane of 16 bits for each kind, the first kind lowest. Instead of the hours left there are
// those used, which in each lane are 255 less those left. So the hours asked are taken by one addition, and they fit if and only if no lane
// goes over 255: then bit 8 of each lane, its guard (256), is clear.
ghost use Rattle.std.specs.Prelude.{◌≡◌, ◌≤◌, eqb, min, length, take};
ghost use Rattle.std.specs.Int.Bits.{bit_and};
ghost use Rattle.winners.specs.Lanes.{packed, used, Bytes, ones, guards, lanes_full, over_lanes, SmallerLanes};

// 255 in each lane.
const FULL: u64 = 0x00ff_00ff_00ff_00ff;
// Bit 8 of each lane.
const GUARDS: u64 = 0x0100_0100_0100_0100;
// What the second, third and fourth lane count.
const SECOND: u64 = 1 << 16;

const THIRD: u64 = 1 << 32;

const FOURTH: u64 = 1 << 48;

// Every bit of the first k lanes; the lanes are four.
fn lanes_to(k: usize) -> u64
    ensures { result ≡ ones (min k 4) }
{
    if k < 4 { (1 << (16 * k)) - 1 } else { u64::MAX }
}

// The hours asked of the first k kinds: all four are put into their lanes, and those past the first k are cut off.
pub(crate) fn packed(k: usize, asked: [u8; 4]) -> u64
    ensures { (result ≡ packed (take k asked)) × (result ≤ lanes_full) × Bytes (take k asked) × (length asked ≡ 4) }
{
    let [a, b, c, d] = asked;
    (u64::from(a) + u64::from(b) * SECOND + u64::from(c) * THIRD + u64::from(d) * FOURTH)
        & lanes_to(k)
}

// The hours used where these are left.
pub(crate) fn used(left: [u8; 4]) -> u64
    ensures { (result ≡ used 4 left) × (result ≤ lanes_full) × Bytes left }
{
    FULL - packed(4, left)
}

// Whether the hours used fit the supply: every guard is clear.
pub(crate) fn fit(after: u64) -> bool
    ensures { result ≡ eqb (bit_and after guards) 0 }
{
    after & GUARDS == 0
}

// What each lane of one number exceeds the same lane of the other by, and 0 where it does not: the guards keep the lanes apart, and tell
// which of them it is.
#[tactic(auto, unfolding(crate::specs::Lanes::over_lanes))]
fn over(a: u64, b: u64) -> u64
    requires { (a ≤ lanes_full) × (b ≤ lanes_full) }
    ensures { result ≡ over_lanes a b }
{
    let apart = a + GUARDS - b;
    let above = apart & GUARDS;
    apart & (above - (above >> 8))
}

// Lane by lane the smaller of two.
pub(crate) fn least(a: u64, b: u64) -> u64
    requires { (a ≤ lanes_full) × (b ≤ lanes_full) }
    ensures smaller { SmallerLanes a b result }
    ensures few { result ≤ lanes_full }
{
    a.saturating_sub(over(a, b))
}
