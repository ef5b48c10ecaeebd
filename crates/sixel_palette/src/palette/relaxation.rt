//! Relaxing the distances of a bucket's colors by one more entry, eight at once or one by one.

ghost use Rattle.std.specs.Prelude.{◌≡◌, ◌⊎◌, ◌<◌, ◌≤◌, ◌+◌, ◌*◌, ℕ, List, [], ◌∷◌, ◌++◌, length};
ghost use Rattle.std.specs.Prelude.{slice_index};
ghost use Rattle.sixel_palette.specs.Palette.{distance};
ghost use Rattle.sixel_palette.specs.inside.Nearest.{IsNearestEntry, nearest_at};
ghost use Rattle.sixel_palette.specs.inside.Buckets.{AreNearestIn, IsSameOutside, IsGreatestIn};
ghost use Rattle.sixel_palette.specs.inside.Codes.{color_of, AreColorCodes};

use crate::palette::buckets::BUCKET;
use crate::palette::distance::distance_to;
use crate::palette::nearest_entry::{Entry, NearestEntry};
use std::simd::prelude::*;

/// How many colors are relaxed at once.
const LANES: usize = 8;

/// Relaxes a bucket's distances by one more entry, and returns the greatest of them.
///
/// The last bucket is relaxed color by color, because it may have fewer than 64.
#[inline(never)]
pub fn relax_bucket(
    codes: &[u32],
    squares: &mut [u32],
    indices: &mut [u8],
    bucket: usize,
    entry: Entry,
) -> u32
    requires some { 64 * bucket < length codes.now }
    requires small { AreColorCodes codes.now }
    requires squares { length squares.old ≡ length codes.now }
    requires indices { length indices.old ≡ length codes.now }
    ensures near { (entries : List (List ℕ)) → length entries ≡ entry.index
        → AreNearestIn entries codes.now squares.old indices.old bucket
        → AreNearestIn (entries ++ entry.color ∷ []) codes.now squares.new indices.new bucket }
    ensures squares { IsSameOutside bucket squares.old squares.new }
    ensures indices { IsSameOutside bucket indices.old indices.new }
    ensures greatest { IsGreatestIn codes.now squares.new bucket result }
{
    if codes.len() - BUCKET * bucket >= BUCKET {
        return relax_whole_bucket(codes, squares, indices, bucket, entry);
    }
    let start = BUCKET * bucket;
    let end = codes.len().min(start + BUCKET);
    let mut greatest = 0;
    for position in start..end {
        let before = NearestEntry {
            squared: squares[position],
            index: indices[position],
        };
        let near = before.with(distance_to(codes[position], entry.color), entry.index);
        squares[position] = near.squared;
        indices[position] = near.index;
        greatest = near.squared.max(greatest);
    }
    greatest
}

/// Relaxes the distances of a bucket of 64 colors, eight at once.
#[tactic(auto, using(crate::proofs::traversal::Lanes::greatest_lanes_first))]
#[inline(never)]
fn relax_whole_bucket(
    codes: &[u32],
    squares: &mut [u32],
    indices: &mut [u8],
    bucket: usize,
    entry: Entry,
) -> u32
    requires whole { 64 * bucket + 64 ≤ length codes.now }
    requires small { AreColorCodes codes.now }
    requires squares { length squares.old ≡ length codes.now }
    requires indices { length indices.old ≡ length codes.now }
    ensures near { (entries : List (List ℕ)) → length entries ≡ entry.index
        → AreNearestIn entries codes.now squares.old indices.old bucket
        → AreNearestIn (entries ++ entry.color ∷ []) codes.now squares.new indices.new bucket }
    ensures squares { IsSameOutside bucket squares.old squares.new }
    ensures indices { IsSameOutside bucket indices.old indices.new }
    ensures greatest { IsGreatestIn codes.now squares.new bucket result }
{
    let start = BUCKET * bucket;
    let mut greatest = relax_lanes(codes, squares, indices, start, entry);
    for eight in 1..BUCKET / LANES {
        let lanes = relax_lanes(codes, squares, indices, start + LANES * eight, entry);
        greatest = greatest.simd_max(lanes);
    }
    greatest_of_eight(greatest.to_array())
}

/// Relaxes the distances of eight colors by one more entry, and returns these distances.
#[inline(always)]
fn relax_lanes(
    codes: &[u32],
    squares: &mut [u32],
    indices: &mut [u8],
    at: usize,
    entry: Entry,
) -> u32x8
    requires within { at + 8 ≤ length codes.now }
    requires small { AreColorCodes codes.now }
    requires squares { length squares.old ≡ length codes.now }
    requires indices { length indices.old ≡ length codes.now }
    ensures near { (entries : List (List ℕ)) (k : ℕ) → length entries ≡ entry.index
        → at ≤ k → k < at + 8
        → IsNearestEntry entries (color_of (slice_index codes.now k))
        (nearest_at squares.old indices.old k)
        → IsNearestEntry (entries ++ entry.color ∷ []) (color_of (slice_index codes.now k))
        (nearest_at squares.new indices.new k) }
    ensures squares { (k : ℕ) → (k < at) ⊎ (at + 8 ≤ k)
        → slice_index squares.new k ≡ slice_index squares.old k }
    ensures indices { (k : ℕ) → (k < at) ⊎ (at + 8 ≤ k)
        → slice_index indices.new k ≡ slice_index indices.old k }
    ensures eight { length result ≡ 8 }
    ensures lanes { (j : ℕ) → j < 8 → slice_index result j ≡ slice_index squares.new (at + j) }
{
    let distances = u32x8::from_array(distances_of_eight(codes, at, entry.color));
    let squared = u32x8::from_slice(&squares[at..]);
    let nearest = u8x8::from_slice(&indices[at..]);
    let is_nearer = distances.simd_lt(squared);
    let least = distances.simd_min(squared);
    let own = is_nearer
        .cast::<i8>()
        .select(u8x8::splat(entry.index), nearest);
    least.copy_to_slice(&mut squares[at..]);
    own.copy_to_slice(&mut indices[at..]);
    least
}

/// The greatest of eight numbers.
#[inline(always)]
fn greatest_of_eight(numbers: [u32; 8]) -> u32
    ensures upper { (j : ℕ) → j < 8 → slice_index numbers j ≤ result }
    ensures reached { (j : ℕ) × (j < 8) × (slice_index numbers j ≡ result) }
{
    let mut greatest = numbers[0];
    for lane in 1..LANES {
        greatest = numbers[lane].max(greatest);
    }
    greatest
}

/// The squared distances of eight colors to another one.
///
/// LLVM computes them in lanes, too.
#[inline(always)]
fn distances_of_eight(codes: &[u32], at: usize, color: [u8; 3]) -> [u32; 8]
    requires within { at + 8 ≤ length codes.now }
    requires small { AreColorCodes codes.now }
    ensures { (j : ℕ) → j < 8
        → slice_index result j ≡ distance color (color_of (slice_index codes.now (at + j))) }
{
    let near = eight_codes(codes, at);
    [
        distance_to(near[0], color),
        distance_to(near[1], color),
        distance_to(near[2], color),
        distance_to(near[3], color),
        distance_to(near[4], color),
        distance_to(near[5], color),
        distance_to(near[6], color),
        distance_to(near[7], color),
    ]
}

/// Returns eight codes from this one on, read at once.
#[inline(always)]
fn eight_codes(codes: &[u32], at: usize) -> [u32; 8]
    requires { at + 8 ≤ length codes.now }
    ensures { (j : ℕ) → j < 8 → slice_index result j ≡ slice_index codes.now (at + j) }
{
    u32x8::from_slice(&codes[at..]).to_array()
}
