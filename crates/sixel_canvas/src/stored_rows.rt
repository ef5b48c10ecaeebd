//! Rows of pixels that are stored without gaps, and copies of them.
ghost use Rattle.std.specs.Prelude.{◌≡◌, ℕ, ◌+◌, ◌*◌, ◌^◌, ◌<◌, ◌/◌, ◌%◌, length, slice_index};
ghost use Rattle.std.specs.Prelude.{nat_lt, if◌then◌else◌};
ghost use Rattle.sixel_canvas.specs.Layout.{AreCopied, AreRowsIn, in_order, pixel_at, stored_pixel};

use crate::channels::{ChannelOrder, RowLayout, copy_row};

/// Rows of `width` pixels each, in RGBA. Pixels right of and below them are background.
#[derive(Clone, Copy)]
pub struct StoredRows<'a> {
    pub bytes: &'a [u8],
    pub width: usize,
    pub rows: usize,
    pub background: [u8; 4],
}

impl<'a> StoredRows<'a> {
    /// Copies `rows` rows from row `first` on to a caller's memory.
    pub fn copy(&self, first: usize, rows: usize, layout: RowLayout, out: &mut [u8])
        requires whole { length self.now.bytes.now ≡ 4 * (self.now.rows * self.now.width) }
        requires above_bottom { first + rows < 2 ^ 64 }
        requires fits { AreRowsIn layout rows (length out.old) }
        ensures len { length out.new ≡ length out.old }
        ensures copied { AreCopied (stored_pixel self.now.bytes.now self.now.width self.now.rows
            self.now.background) first rows layout out.old out.new }
    {
        let len = 4 * layout.columns;
        'copied: for row in 0..rows {
            let start = row * layout.stride;
            self.copy_row(first + row, layout.order, &mut out[start..start + len]);
        }
    }

    /// Copies one row to a row of a caller's memory.
    fn copy_row(&self, row: usize, order: ChannelOrder, out: &mut [u8])
        requires whole { length self.now.bytes.now ≡ 4 * (self.now.rows * self.now.width) }
        requires pixels { length out.old % 4 ≡ 0 }
        ensures len { length out.new ≡ length out.old }
        ensures copied { (i : ℕ) → i < length out.old → slice_index out.new i
            ≡ slice_index (in_order order (stored_pixel self.now.bytes.now self.now.width
            self.now.rows self.now.background (i / 4) row)) (i % 4) }
    {
        copy_row(self.row(row), self.background, order, out);
    }

    /// Returns the bytes of a row, or none where there is no such row.
    fn row(&self, row: usize) -> &[u8]
        requires whole { length self.now.bytes.now ≡ 4 * (self.now.rows * self.now.width) }
        ensures len { length result.now
            ≡ (if nat_lt row self.now.rows then 4 * self.now.width else 0) }
        ensures pixels { (column : ℕ) → column < self.now.width → row < self.now.rows
            → pixel_at result.now column ≡ stored_pixel self.now.bytes.now self.now.width
            self.now.rows self.now.background column row }
    {
        if row >= self.rows {
            return &[];
        }
        let start = 4 * (row * self.width);
        &self.bytes[start..start + 4 * self.width]
    }
}
