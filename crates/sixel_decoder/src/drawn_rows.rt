//! How far down pixels are set, by the sixels that were drawn so far.

ghost use Rattle.std.specs.Prelude.{◌≡◌, ℕ, ◌^◌, ◌<◌, slice_index_or};
ghost use Rattle.sixel_base.specs.DrawnHeight.{lowered, set_rows};
ghost use Rattle.sixel_decoder.specs.inside.Runs.{most_rows};

use std::simd::prelude::*;

/// The last row with a set pixel above the band, and the bits of the band's sixels.
///
/// Adding a sixel is one OR without a branch. The end of the band reduces the bits to rows.
#[derive(Clone, Copy)]
pub struct DrawnRows {
    /// The last row with a set pixel above the band, plus one, or 0 if there is none.
    pub above: usize,
    /// The bits of the sixels that were drawn one at a time.
    pub bits: u8,
    /// The bits of sixels that were drawn eight at once, a byte for each place.
    pub eights: u64,
}

impl DrawnRows {
    ghost use Rattle.sixel_decoder.specs.inside.DrawnRows.{drawn_rows};

    /// Creates the rows of no sixels.
    pub fn new() -> DrawnRows
        ensures { (top : ℕ) → drawn_rows result top ≡ 0 }
    {
        DrawnRows {
            above: 0,
            bits: 0,
            eights: 0,
        }
    }

    /// Adds a sixel of the band.
    #[inline(always)]
    pub fn add(&mut self, bits: u8)
        ensures { (top : ℕ) → drawn_rows self.new top
            ≡ lowered (drawn_rows self.old top) top (set_rows bits) }
    {
        self.bits |= bits;
    }

    /// Adds eight sixels of the band.
    #[inline(always)]
    pub fn add_eight(&mut self, bits: [u8; 8])
        requires { (k : ℕ) → slice_index_or bits k 0 < 64 }
        ensures { (top : ℕ) → drawn_rows self.new top
            ≡ lowered (drawn_rows self.old top) top (most_rows bits) }
    {
        self.eights |= u64::from_le_bytes(bits);
    }

    /// Ends the band, which begins at this row.
    pub fn end_band(&mut self, top: usize)
        ensures { (next : ℕ) → drawn_rows self.old top < 2 ^ 64
            → drawn_rows self.new next ≡ drawn_rows self.old top }
    {
        *self = DrawnRows {
            above: self.height(top),
            bits: 0,
            eights: 0,
        };
    }

    /// Returns the last row with a set pixel, plus one, if the band begins here.
    pub fn height(&self, top: usize) -> usize
        ensures { drawn_rows self.now top < 2 ^ 64 → result ≡ drawn_rows self.now top }
    {
        let eights = u8x8::from_array(self.eights.to_le_bytes());
        let rows = set_rows(self.bits | eights.reduce_or());
        if rows > 0 {
            self.above.max(top.saturating_add(rows))
        } else {
            self.above
        }
    }
}

/// Returns the last row of a sixel with a set pixel, plus one, or 0 if there is none.
fn set_rows(bits: u8) -> usize
    ensures { result ≡ set_rows bits }
{
    let mut rows = 0;
    'rows: for bit in 0..6 {
        if (bits >> bit) % 2 == 1 {
            rows = bit + 1;
        }
    }
    rows
}
