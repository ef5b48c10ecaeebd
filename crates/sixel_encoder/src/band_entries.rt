//! The palette entries of a band's pixels, column by column.

ghost use Rattle.std.specs.Prelude.{◌≡◌, ◌≢◌, ℕ, ◌+◌, ◌-◌, ◌*◌, ◌^◌, ◌<◌, ◌≤◌, ◌==◌, IfOk, length};
ghost use Rattle.std.specs.Prelude.{slice_index, true};
ghost use Rattle.sixel_encoder.specs.{Compact.transparent_sixel, Text.{entry_at, mask, sixel_of}};
ghost use Rattle.sixel_encoder.specs.inside.Compact.{AreLanes, AreSpare, lane_of};
ghost use Rattle.sixel_encoder.specs.inside.Indexed.{IsIndexed, drawing_of};

use crate::text::IndexedImage;
use sixel_palette::palette::colors::is_opaque;
use std::alloc::{AllocError, Global};
use std::simd::prelude::*;

/// The lane of a transparent pixel.
pub const TRANSPARENT: u16 = 256;

/// The palette entries of the pixels of one band.
#[derive(Drop)]
pub struct BandEntries<'a> {
    /// The image.
    pub image: &'a IndexedImage<'a>,
    /// The band.
    pub band: usize,
    /// Eight lanes for each column: those of its six pixels from the top, and two transparent ones.
    lanes: Vec<u16>,
}

impl<'a> BandEntries<'a> {
    /// Returns entries that have yet to be read.
    pub fn new(alloc: Global, image: &'a IndexedImage<'a>) -> Result<BandEntries<'a>, AllocError>
        requires { IsIndexed image.now }
        ensures image { IfOk result (λ entries. entries.image.now ≡ image.now) }
        ensures spare { IfOk result (λ entries. AreSpare image.now entries.lanes.items) }
    {
        let lanes = vec![in alloc; TRANSPARENT; 8 * image.width]?;
        Ok(BandEntries {
            image,
            band: 0,
            lanes,
        })
    }

    /// Reads the entries of a band.
    #[inline(never)]
    pub fn read(&mut self, band: usize)
        requires image { IsIndexed self.old.image.now }
        requires band { 6 * band < self.old.image.now.height }
        requires spare { AreSpare self.old.image.now self.old.lanes.items }
        ensures image { self.new.image ≡ self.old.image }
        ensures band { self.new.band ≡ band }
        ensures entries { AreLanes self.new }
    {
        self.band = band;
        for bit in 0..6 {
            write_line(&mut self.lanes, self.image, 6 * band + bit, bit);
        }
    }

    /// Returns the lane of a pixel: its entry, or [`TRANSPARENT`].
    #[inline(always)]
    pub fn lane(&self, column: usize, bit: usize) -> u16
        requires entries { AreLanes self.now }
        requires column { column < self.now.image.now.width }
        requires bit { bit < 6 }
        ensures { result
            ≡ lane_of (entry_at (drawing_of self.now.image.now) column (6 * self.now.band + bit)) }
    {
        self.lanes[8 * column + bit]
    }

    /// Returns whether the pixels of a column have one entry, or are all transparent.
    #[inline(always)]
    pub fn is_uniform(&self, column: usize) -> bool
        requires entries { AreLanes self.now }
        requires column { column < self.now.image.now.width }
        ensures { result ≡ true → (bit : ℕ) → bit < 6
            → entry_at (drawing_of self.now.image.now) column (6 * self.now.band + bit)
            ≡ entry_at (drawing_of self.now.image.now) column (6 * self.now.band + 0) }
    {
        let first = self.lane(column, 0);
        self.lanes_with(column, first) % 64 == 63
    }

    /// Returns whether the pixels of a column have the same entries as those of the one before.
    #[inline(always)]
    pub fn is_repeated(&self, column: usize) -> bool
        requires entries { AreLanes self.now }
        requires column { column < self.now.image.now.width }
        requires before { 0 < column }
        ensures { result ≡ true → (bit : ℕ) → bit < 6
            → entry_at (drawing_of self.now.image.now) column (6 * self.now.band + bit)
            ≡ entry_at (drawing_of self.now.image.now) (column - 1) (6 * self.now.band + bit) }
    {
        let lanes = self.lanes.as_slice();
        let own = u16x8::from_slice(&lanes[8 * column..]);
        let before = u16x8::from_slice(&lanes[8 * (column - 1)..]);
        own.simd_ne(before).to_bitmask() == 0
    }

    /// Returns the end of the columns whose pixels have the same entries as those of this one.
    #[inline(always)]
    pub fn end_of_repeats(&self, column: usize) -> usize
        requires entries { AreLanes self.now }
        requires column { column < self.now.image.now.width }
        ensures order { column < result }
        ensures within { result ≤ self.now.image.now.width }
        ensures same { (k bit : ℕ) → column ≤ k → k < result → bit < 6
            → entry_at (drawing_of self.now.image.now) k (6 * self.now.band + bit)
            ≡ entry_at (drawing_of self.now.image.now) column (6 * self.now.band + bit) }
    {
        let mut end = column + 1;
        'repeats: while end < self.image.width {
            if !self.is_repeated(end) {
                return end;
            }
            end += 1;
        }
        end
    }

    /// Returns the pixels of a column that have an entry.
    #[inline(always)]
    pub fn sixel(&self, column: usize, entry: usize) -> u8
        requires entries { AreLanes self.now }
        requires column { column < self.now.image.now.width }
        requires entry { entry < 256 }
        ensures { result ≡ sixel_of (drawing_of self.now.image.now) self.now.band entry column }
    {
        self.lanes_with(column, entry as u16)
    }

    /// Returns the transparent pixels of a column.
    #[inline(always)]
    pub fn transparent(&self, column: usize) -> u8
        requires entries { AreLanes self.now }
        requires column { column < self.now.image.now.width }
        ensures { result
            ≡ transparent_sixel (drawing_of self.now.image.now) self.now.band column }
    {
        self.lanes_with(column, TRANSPARENT) - 192
    }

    /// Returns which lanes of a column have a value, the first one in the lowest bit.
    #[inline(always)]
    fn lanes_with(&self, column: usize, value: u16) -> u8
        requires { 8 * column + 8 ≤ length self.now.lanes.items }
        ensures { result
            ≡ mask (λ bit. slice_index self.now.lanes.items (8 * column + bit) == value) 8 }
    {
        let lanes = self.lanes.as_slice();
        let own = u16x8::from_slice(&lanes[8 * column..]);
        own.simd_eq(u16x8::splat(value)).to_bitmask() as u8
    }
}

/// Writes the lanes of one row of pixels.
fn write_line(lanes: &mut [u16], image: &IndexedImage<'_>, row: usize, bit: usize)
    requires image { IsIndexed image.now }
    requires size { length lanes.old ≡ 8 * image.now.width }
    requires bit { bit < 8 }
    requires row { row < 2 ^ 32 }
    ensures line { (column : ℕ) → column < image.now.width
        → slice_index lanes.new (8 * column + bit)
        ≡ lane_of (entry_at (drawing_of image.now) column row) }
    ensures others { (column other : ℕ) → other < 8 → other ≢ bit
        → slice_index lanes.new (8 * column + other)
        ≡ slice_index lanes.old (8 * column + other) }
{
    // A copy, so that the compiler need not read the fields again after each store.
    let image = *image;
    for column in 0..image.width {
        lanes[8 * column + bit] = lane_at(&image, column, row);
    }
}

/// Returns the lane of a pixel, a transparent one below the last row.
///
/// The entry is read before the test, so that the compiler needs no branch.
#[inline(always)]
fn lane_at(image: &IndexedImage<'_>, column: usize, row: usize) -> u16
    requires image { IsIndexed image.now }
    requires column { column < image.now.width }
    ensures { result ≡ lane_of (entry_at (drawing_of image.now) column row) }
{
    if row >= image.height {
        return TRANSPARENT;
    }
    let pixel = row * image.width + column;
    let entry = u16::from(image.indices[pixel]);
    if is_opaque(image.pixels, pixel) {
        entry
    } else {
        TRANSPARENT
    }
}
