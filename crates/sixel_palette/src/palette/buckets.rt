//! The buckets of a nearest-entry search: colors in order, and their bounding box.
//!
//! An entry that is farther from a bucket's box than each of its colors is from its nearest entry
//! changes nothing in the bucket: branch and bound, as in a k-d tree. K. Fukunaga, P. M. Narendra,
//! "A branch and bound algorithm for computing k-nearest neighbors", IEEE Transactions on Computers
//! C-24 (1975), 750-753.

ghost use Rattle.std.specs.{Int.abs_diff, Prelude.{◌≡◌, ◌<◌, ◌≤◌, ◌*◌, ℕ, List, [], ◌∷◌, ◌++◌}};
ghost use Rattle.std.specs.Prelude.{length, IfOk, IsTrue, slice_index};
ghost use Rattle.sixel_palette.specs.Palette.{distance};
ghost use Rattle.sixel_palette.specs.inside.Buckets.{IsInInterval, IsInBox, IsBucket, AreBuckets};
ghost use Rattle.sixel_palette.specs.inside.Buckets.{IsGreatestIn, IsFirstGreatest, channel};
ghost use Rattle.sixel_palette.specs.inside.{Codes.AreColorCodes, Nearest.AreNearest};

use crate::palette::distance::wrapped_gap;
use crate::palette::nearest_entry::Entry;
use crate::palette::relaxation::relax_bucket;
use std::alloc::{AllocError, Global};

/// How many colors a bucket has. The last bucket may have fewer.
pub const BUCKET: usize = 64;

/// The bounding box of some colors, and the greatest distance to a nearest entry.
#[derive(Clone, Copy)]
pub struct Bucket {
    pub red: Interval,
    pub green: Interval,
    pub blue: Interval,
    pub greatest: u32,
}

/// The least and the greatest value of a channel.
#[derive(Clone, Copy)]
pub struct Interval {
    pub low: u8,
    pub high: u8,
}

impl Bucket {
    /// Returns whether an entry of this color is no nearer to any color of the bucket.
    ///
    /// Mostly the interval of red alone decides.
    #[tactic(auto, unfolding(crate::specs::Palette::distance, crate::specs::Palette::square_gap))]
    #[inline(always)]
    fn is_beyond(&self, color: [u8; 3]) -> bool
        ensures { IsTrue result → (c : List ℕ) → IsInBox self.now c
            → self.now.greatest ≤ distance color c }
    {
        self.red.gap(color[0]) >= self.greatest || self.gap(color) >= self.greatest
    }

    /// The squared distance of a color to the nearest color of the box.
    #[tactic(auto, unfolding(crate::specs::Palette::distance, crate::specs::Palette::square_gap))]
    #[inline(always)]
    pub fn gap(&self, color: [u8; 3]) -> u32
        ensures { (c : List ℕ) → IsInBox self.now c → result ≤ distance color c }
    {
        self.red.gap(color[0]) + self.green.gap(color[1]) + self.blue.gap(color[2])
    }
}

impl Interval {
    /// The squared distance of a channel to the interval.
    #[inline(always)]
    pub fn gap(self, value: u8) -> u32
        ensures least { (x : ℕ) → IsInInterval self x
            → result ≤ abs_diff value x * abs_diff value x }
        ensures small { result ≤ 65025 }
    {
        let own = u32::from(value);
        let near = own.max(u32::from(self.low)).min(u32::from(self.high));
        wrapped_gap(own, near)
    }

    /// The squared distance of a channel to the farther end of the interval.
    #[inline(always)]
    pub fn greatest_gap(self, value: u8) -> u32
        ensures greatest { (x : ℕ) → IsInInterval self x
            → abs_diff value x * abs_diff value x ≤ result }
        ensures small { result ≤ 65025 }
    {
        let own = u32::from(value);
        wrapped_gap(own, u32::from(self.low)).max(wrapped_gap(own, u32::from(self.high)))
    }
}

/// The buckets of some colors, whose distances to their nearest entries are given.
pub fn buckets_of(alloc: Global, codes: &[u32], squares: &[u32]) -> Result<Vec<Bucket>, AllocError>
    requires small { AreColorCodes codes.now }
    requires squares { length squares.now ≡ length codes.now }
    ensures { IfOk result (λ buckets. AreBuckets codes.now squares.now buckets.items) }
{
    let count = codes.len().div_ceil(BUCKET);
    let mut buckets = Vec::with_capacity(alloc, count)?;
    for position in 0..count {
        buckets.push(bucket_of(codes, squares, position))?;
    }
    Ok(buckets)
}

/// One of the buckets of some colors.
fn bucket_of(codes: &[u32], squares: &[u32], bucket: usize) -> Bucket
    requires some { 64 * bucket < length codes.now }
    requires small { AreColorCodes codes.now }
    requires squares { length squares.now ≡ length codes.now }
    ensures { IsBucket codes.now squares.now bucket result }
{
    let start = BUCKET * bucket;
    let part = &codes[start..codes.len().min(start + BUCKET)];
    Bucket {
        red: interval_of(part, 65536),
        green: interval_of(part, 256),
        blue: interval_of(part, 1),
        greatest: greatest_in(codes, squares, bucket),
    }
}

/// The greatest distance in a bucket.
fn greatest_in(codes: &[u32], squares: &[u32], bucket: usize) -> u32
    requires some { 64 * bucket < length codes.now }
    requires squares { length squares.now ≡ length codes.now }
    ensures { IsGreatestIn codes.now squares.now bucket result }
{
    let start = BUCKET * bucket;
    let end = codes.len().min(start + BUCKET);
    let mut greatest = 0;
    for position in start..end {
        greatest = squares[position].max(greatest);
    }
    greatest
}

/// The interval of a channel of some codes, whose unit is 65536, 256 or 1.
#[inline(always)]
fn interval_of(codes: &[u32], unit: u32) -> Interval
    requires { 0 < unit }
    ensures { (k : ℕ) → k < length codes.now
        → IsInInterval result (channel unit (slice_index codes.now k)) }
{
    let mut low = 255;
    let mut high = 0;
    for code in codes {
        let value = code / unit % 256;
        low = value.min(low);
        high = value.max(high);
    }
    Interval {
        low: low as u8,
        high: high as u8,
    }
}

/// Relaxes the distances by one more entry, in the buckets that it may be nearer to.
#[inline(never)]
pub fn relax_buckets(
    codes: &[u32],
    squares: &mut [u32],
    indices: &mut [u8],
    buckets: &mut [Bucket],
    entry: Entry,
)
    requires small { AreColorCodes codes.now }
    requires squares { length squares.old ≡ length codes.now }
    requires indices { length indices.old ≡ length codes.now }
    requires buckets { AreBuckets codes.now squares.old buckets.old }
    ensures near { (entries : List (List ℕ)) → length entries ≡ entry.index
        → AreNearest entries codes.now squares.old indices.old
        → AreNearest (entries ++ entry.color ∷ []) codes.now squares.new indices.new }
    ensures buckets { AreBuckets codes.now squares.new buckets.new }
{
    for position in 0..buckets.len() {
        let bucket = buckets[position];
        if !bucket.is_beyond(entry.color) {
            let greatest = relax_bucket(codes, squares, indices, position, entry);
            buckets[position] = Bucket { greatest, ..bucket };
        }
    }
}

/// The position of the first of the farthest colors.
#[inline(never)]
pub fn farthest_of(codes: &[u32], squares: &[u32], buckets: &[Bucket]) -> usize
    requires some { 0 < length codes.now }
    requires squares { length squares.now ≡ length codes.now }
    requires buckets { AreBuckets codes.now squares.now buckets.now }
    ensures { IsFirstGreatest squares.now result }
{
    let mut greatest = 0;
    for bucket in buckets {
        greatest = bucket.greatest.max(greatest);
    }
    let mut best = 0;
    'buckets: while buckets[best].greatest < greatest {
        best += 1;
    }
    let mut farthest = BUCKET * best;
    'positions: while squares[farthest] < greatest {
        farthest += 1;
    }
    farthest
}
