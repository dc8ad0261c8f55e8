//! Which of 64 bytes pass a test, as the bits of a number: the lowest bit tells of the first byte.
ghost use Rattle.std.specs.Prelude.{◌≡◌, ◌==◌, ◌+◌, ◌*◌, ◌%◌, ◌^◌, ◌<◌, ◌≤◌, ℕ, length, map, take, if◌then◌else◌};
ghost use Rattle.std.specs.Int.{bit_at};
ghost use Rattle.std.specs.Simd.Lanes.{mask_l};
ghost use Rattle.morsel_grammar.specs.Split.{is_quote};
ghost use Rattle.morsel_cut.specs.Blocks.{ones_below};

use std::simd::prelude::*;

/// How many bytes are looked at at once.
pub const LANES: usize = 64;

/// Which of the first 64 bytes are this one.
#[inline(always)]
pub fn byte_mask(lane: &[u8], byte: u8) -> u64
    requires { LANES ≤ length lane.now }
    ensures { result ≡ mask_l (map (λ b. b == byte) (take LANES lane.now)) }
{
    u8x64::from_slice(lane)
        .simd_eq(u8x64::splat(byte))
        .to_bitmask()
}

/// Which of the first 64 bytes are quotes.
#[inline(always)]
pub fn quote_mask(lane: &[u8], quote: Option<u8>) -> u64
    requires { LANES ≤ length lane.now }
    ensures { result ≡ mask_l (map (is_quote quote) (take LANES lane.now)) }
{
    match quote {
        Some(quote) => byte_mask(lane, quote),
        None => 0,
    }
}

/// Every bit, or none.
#[inline(always)]
pub fn spread(bit: bool) -> u64
    ensures { result ≡ (if bit then 18446744073709551615 else 0) }
{
    if bit { u64::MAX } else { 0 }
}

/// The bits one place on, and this one before them.
#[inline(always)]
pub fn one_on(bits: u64, first: bool) -> u64
    ensures low { bit_at result 0 ≡ (if first then 1 else 0) }
    ensures high { (k : ℕ) → k + 1 < 64 → bit_at result (k + 1) ≡ bit_at bits k }
{
    bits << 1 | u64::from(first)
}

/// Each bit tells whether an odd number of bits is set up to it.
#[inline(always)]
pub fn prefix_xor(bits: u64) -> u64
    ensures { (k : ℕ) → k < 64 → bit_at result k ≡ ones_below bits (k + 1) % 2 }
{
    let m = bits ^ bits << 1;
    let m = m ^ m << 2;
    let m = m ^ m << 4;
    let m = m ^ m << 8;
    let m = m ^ m << 16;
    m ^ m << 32
}

/// How many bits there are up to the highest that is set, or 0.
#[inline(always)]
pub fn bits_up_to_highest(bits: u64) -> usize
    ensures below { bits < 2 ^ result }
    ensures above { 2 ^ result ≤ 2 * bits + 1 }
    ensures within { result ≤ LANES }
{
    LANES - bits.leading_zeros() as usize
}
