// Numbers with a sign, by their 64 bits in two's complement.
ghost use Rattle.std.specs.Prelude.{◌≡◌};
ghost use Rattle.pricing.specs.Ranges.{signed, g_in_range};
ghost use Rattle.certificate.specs.Figures.{above, below};

use crate::limits::MOST_MULTIPLIER;

// The part above zero.
#[tactic(auto, using(std::proofs::lemmas::Int::ints, std::proofs::lemmas::Int::clamps), unfolding(crate::specs::Figures::above))]
pub(crate) fn part_above(bits: u64) -> u64
    ensures { result ≡ above bits }
{
    bits.cast_signed().max(0).unsigned_abs()
}

// The part below zero, without its sign.
#[tactic(auto, using(std::proofs::lemmas::Int::ints), unfolding(crate::specs::Figures::below))]
pub(crate) fn part_below(bits: u64) -> u64
    ensures { result ≡ below bits }
{
    bits.cast_signed().min(0).unsigned_abs()
}

// Whether G, without its sign, is at most its bound.
#[tactic(auto, using(std::proofs::lemmas::Int::ints), unfolding(pricing::specs::Ranges::signed, pricing::specs::Ranges::g_in_range))]
pub(crate) fn g_in_range(bits: u64) -> bool
    ensures { result ≡ g_in_range (signed bits) }
{
    bits.cast_signed().unsigned_abs() <= MOST_MULTIPLIER
}
