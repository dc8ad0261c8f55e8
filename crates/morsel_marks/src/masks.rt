//! Masks of 64 bytes beside those of `morsel_cut`: which of them are stops, and how many count.
ghost use Rattle.std.specs.Prelude.{◌≡◌, ◌==◌, ◌||◌, ◌-◌, ◌^◌, ◌≤◌, length, map, take};
ghost use Rattle.std.specs.Simd.Lanes.{mask_l};

use morsel_cut::masks::LANES;
use std::simd::prelude::*;

/// Which of the first 64 bytes are separators or eol bytes.
#[inline(always)]
pub fn stop_mask(lane: &[u8], separator: u8, eol: u8) -> u64
    requires { LANES ≤ length lane.now }
    ensures { result ≡ mask_l (map (λ b. b == separator || b == eol) (take LANES lane.now)) }
{
    let lane = u8x64::from_slice(lane);
    (lane.simd_eq(u8x64::splat(separator)) | lane.simd_eq(u8x64::splat(eol))).to_bitmask()
}

/// So many of the lowest bits.
#[inline(always)]
pub fn low_bits(count: usize) -> u64
    requires { count ≤ LANES }
    ensures { result ≡ 2 ^ count - 1 }
{
    if count < LANES {
        (1u64 << count) - 1
    } else {
        u64::MAX
    }
}
