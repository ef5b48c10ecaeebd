//! Pixels whose entries have no row, skipped 32 at a time.

ghost use Rattle.std.specs.Prelude.{◌≢◌, ℕ, ◌+◌, ◌<◌, ◌≤◌, length, slice_index};

use std::simd::prelude::*;

/// How many entries one comparison covers.
const LANES: usize = 32;

/// Returns how many pixels from `at` on have an entry without a row, up to 32.
///
/// The rows are those of `count` entries from `first` on. 0 if fewer than 32 pixels are left.
#[inline(always)]
pub fn others_from(indices: &[u8], at: usize, first: usize, count: usize) -> usize
    requires at { at ≤ length indices.now }
    requires first { first < 256 }
    requires count { count < 256 }
    ensures few { result ≤ 32 }
    ensures others { (k e : ℕ) → at ≤ k → k < at + result → e < count
        → slice_index indices.now k ≢ first + e }
{
    if indices.len() - at < LANES {
        return 0;
    }
    let entries = u8x32::from_slice(&indices[at..]);
    let places = entries - u8x32::splat(first as u8);
    let some = places.simd_lt(u8x32::splat(count as u8)).to_bitmask();
    if some == 0 {
        LANES
    } else {
        some.trailing_zeros() as usize
    }
}
