//! The sixels at the front of bytes, which are drawn up to eight at a time.

ghost use Rattle.std.specs.Prelude.{◌≡◌, ℕ, ◌-◌, ◌<◌, ◌≤◌, IsTrue, false, length, take};
ghost use Rattle.std.specs.Prelude.{slice_index, slice_index_or};
ghost use Rattle.sixel_decoder.specs.inside.Runs.{IsSixelByte, bits_of};

use std::simd::prelude::*;

/// Sixels of one column each: their number, and the bits of eight of them.
///
/// Past the last one they are blank.
#[derive(Clone, Copy)]
pub struct FrontSixels {
    pub len: usize,
    pub bits: [u8; 8],
}

impl FrontSixels {
    /// Returns the sixels that the bytes begin with, at most eight.
    #[inline(always)]
    pub fn of(bytes: &[u8]) -> FrontSixels
        requires { 8 ≤ length bytes.now }
        ensures few { result.len ≤ 8 }
        ensures sixels { (k : ℕ) → k < result.len → IsSixelByte (slice_index bytes.now k) }
        ensures bits { take result.len result.bits ≡ bits_of (take result.len bytes.now) }
        ensures blank { (k : ℕ) → result.len ≤ k → slice_index_or result.bits k 0 ≡ 0 }
        ensures six { (k : ℕ) → slice_index_or result.bits k 0 < 64 }
    {
        let lanes = u8x8::from_slice(bytes) - u8x8::splat(0x3f);
        let others = lanes.simd_gt(u8x8::splat(0x3f)).to_bitmask();
        let len = (others.trailing_zeros() as usize).min(8);
        let front = u8x8::from_array([0, 1, 2, 3, 4, 5, 6, 7]).simd_lt(u8x8::splat(len as u8));
        FrontSixels {
            len,
            bits: front.select(lanes, u8x8::splat(0)).to_array(),
        }
    }
}
