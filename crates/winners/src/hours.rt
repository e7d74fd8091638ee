// The hours of a bid against the hours left, four numbers for up to four kinds.
ghost use Rattle.std.specs.Prelude.{◌≡◌};
ghost use Rattle.market.specs.Market.{fits, less};

use std::array;

// Whether the hours asked fit what is left of each kind.
pub(crate) fn fit(asked: [u8; 4], left: [u8; 4]) -> bool
    ensures { result ≡ fits asked left }
{
    asked.iter().zip(&left).all(|(asked, left)| asked <= left)
}

// What is left of each kind once the hours asked are taken.
pub(crate) fn rest(asked: [u8; 4], left: [u8; 4]) -> [u8; 4]
    ensures { result ≡ less left asked }
{
    array::from_fn(|kind| left[kind].saturating_sub(asked[kind]))
}
