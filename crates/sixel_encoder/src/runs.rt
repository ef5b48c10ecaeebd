//! Runs of equal sixels in a row, counted sixteen at a time.

ghost use Rattle.std.specs.Prelude.{◌≡◌, ◌≢◌, ◌+◌, ◌-◌, ◌<◌, ◌≤◌, length, slice_index};
ghost use Rattle.sixel_encoder.specs.inside.Runs.{IsRun};

use std::simd::prelude::*;

/// How many sixels one comparison covers.
const LANES: usize = 16;

/// Returns how many of the sixteen sixels from `at` on equal `bits`, up to the first other one.
#[inline(always)]
pub fn equal_from(row: &[u8], at: usize, bits: u8) -> usize
    requires { at + 16 ≤ length row.now }
    ensures run { IsRun row.now at bits result }
    ensures stop { result < 16 → slice_index row.now (at + result) ≢ bits }
{
    let sixels = u8x16::from_slice(&row[at..]);
    let others = sixels.simd_ne(u8x16::splat(bits)).to_bitmask();
    if others == 0 {
        LANES
    } else {
        others.trailing_zeros() as usize
    }
}

/// Returns the end of the run of equal sixels that begins at `at`.
#[inline(always)]
pub fn end_of_sixels(row: &[u8], at: usize) -> usize
    requires { at < length row.now }
    ensures some { at < result }
    ensures run { IsRun row.now at (slice_index row.now at) (result - at) }
    ensures stop { result < length row.now → slice_index row.now result ≢ slice_index row.now at }
{
    let bits = row[at];
    let mut end = at + 1;
    'lanes: while row.len() - end >= LANES {
        let same = equal_from(row, end, bits);
        end += same;
        if same < LANES {
            return end;
        }
    }
    'rest: while end < row.len() && row[end] == bits {
        end += 1;
    }
    end
}
