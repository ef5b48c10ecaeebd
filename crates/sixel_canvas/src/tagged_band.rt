//! A band in which a wide run over other pixels costs one tag per tile, and two ends.
ghost use Rattle.std.specs.Prelude.{◌≡◌, ℕ, ◌+◌, ◌-◌, ◌*◌, ◌/◌, ◌≤◌, ◌<◌, length, max, min, true};
ghost use Rattle.std.specs.Prelude.{false, nat_lt, slice_index_or, OnErr, OnOk, if◌then◌else◌};
ghost use Rattle.sixel_base.specs.Picture.{covers};
ghost use Rattle.sixel_canvas.specs.inside.{Band.cell, TaggedBand.{HasSameRoom, capacity, doubled}};
ghost use Rattle.sixel_canvas.specs.inside.{TaggedBand.{most_painted, tagged_cell}, Tags.is_tag};
ghost use Rattle.sixel_canvas.specs.{Drawn.{covers_eight, least_cost}, Paints.counted};

mod tags;

use crate::band::{Band, MAX_CAP};
use crate::tag::{NO_TAG, TILE, WIDE};
use std::alloc::{AllocError, Global};
use std::marker::Model;

/// A band of which tiles of 128 columns can have a tag.
///
/// A tag is the one color that a tile of a row shows, whatever is stored there. So a run over a
/// tile that was drawn on whole need not paint it. A run that covers a part of a tagged tile
/// paints the tile in its tag first.
#[derive(Drop)]
pub struct TaggedBand {
    pixels: Band,
    tags: Band,
    painted: u64,
}

impl Model for TaggedBand {
    ghost use Rattle.sixel_canvas.specs.inside.TaggedBand.{TaggedState, IsTaggedBand, tagged_state};

    ghost Value = { TaggedState };

    ghost view = { λ band. tagged_state band.pixels band.tags band.painted };

    ghost invariant = { λ band. IsTaggedBand (tagged_state band.pixels band.tags band.painted) };
}

impl TaggedBand {
    /// Returns a band of background with memory for no column.
    pub fn new(alloc: Global, background: [u8; 4]) -> TaggedBand
        ensures shown { (column k : ℕ) → tagged_cell result column k ≡ background }
        ensures background { result.pixels.background ≡ background }
        ensures extent { result.pixels.extent ≡ 0 }
        ensures capacity { capacity result ≡ 0 }
        ensures tags_extent { result.tags.extent ≡ 0 }
        ensures painted { result.painted ≡ 0 }
    {
        TaggedBand {
            pixels: Band::new(alloc, background),
            tags: Band::new(alloc, NO_TAG),
            painted: 0,
        }
    }

    /// Returns how many columns there is memory for.
    #[inline(always)]
    pub fn cap(&self) -> usize
        ensures value { result ≡ self.now.pixels.cap }
        ensures few { result ≤ 1000008 }
        ensures reached { self.now.pixels.extent ≤ result }
    {
        self.pixels.cap()
    }

    /// Returns the column from which on all six rows are background.
    #[inline(always)]
    pub fn extent(&self) -> usize
        ensures value { result ≡ self.now.pixels.extent }
        ensures within { result ≤ self.now.pixels.cap }
        ensures whole { 128 * self.now.tags.extent ≤ result }
        ensures clean { (column k : ℕ) → result ≤ column
            → tagged_cell self.now column k ≡ self.now.pixels.background }
    {
        self.pixels.extent()
    }

    /// Returns how many columns and tags were painted so far.
    ///
    /// A tag that is painted counts as the 128 columns of its tile.
    pub fn painted(&self) -> u64
        ensures { result ≡ self.now.painted }
    {
        self.painted
    }

    /// Grows the capacity by 31/32, or to `columns` if that is more.
    ///
    /// The columns and their tags together are at most twice `columns`.
    #[inline(never)]
    pub fn widen(&mut self, columns: usize) -> Result<(), AllocError>
        requires more { self.old.pixels.cap < columns }
        requires within { columns ≤ 1000008 }
        ensures held { OnOk result (columns ≤ self.new.pixels.cap) }
        ensures doubled { OnOk result (doubled self.old.pixels.cap ≤ self.new.pixels.cap) }
        ensures capacity { OnOk result (capacity self.new ≤ 2 * columns) }
        ensures shown { (column k : ℕ) → tagged_cell self.new column k
            ≡ tagged_cell self.old column k }
        ensures background { self.new.pixels.background ≡ self.old.pixels.background }
        ensures extent { self.new.pixels.extent ≡ self.old.pixels.extent }
        ensures tags_extent { self.new.tags.extent ≡ self.old.tags.extent }
        ensures refused { OnErr result (self.new ≡ self.old) }
        ensures painted { self.new.painted ≡ self.old.painted }
    {
        let cap = greater_cap(self.pixels.cap(), columns);
        let pixels = self.pixels.wider(cap)?;
        self.tags = self.tags.wider(cap.div_ceil(TILE))?;
        self.pixels = pixels;
        Ok(())
    }

    /// Draws a sixel over the columns from `from` up to before `to`, for which there is memory.
    #[inline(always)]
    pub fn draw(&mut self, from: usize, to: usize, bits: u8, color: [u8; 4])
        requires ordered { from < to }
        requires held { to ≤ self.old.pixels.cap }
        requires visible { is_tag color ≡ true }
        ensures drawn { (column k : ℕ) → tagged_cell self.new column k
            ≡ (if covers from to 0 bits column k then color else tagged_cell self.old column k) }
        ensures room { HasSameRoom self.old self.new }
        ensures extent { self.new.pixels.extent ≡ max self.old.pixels.extent to }
        ensures tags_extent { 128 * self.new.tags.extent ≤ max (128 * self.old.tags.extent) to }
        ensures least { counted self.old.painted (least_cost (to - from)) ≤ self.new.painted }
        ensures painted { self.new.painted ≤ self.old.painted + most_painted (to - from)
            + (max self.old.pixels.extent to - self.old.pixels.extent) }
    {
        if to - from < WIDE || from >= self.pixels.extent() {
            return self.paint(from, to, bits, color);
        }
        self.draw_wide(from, to, bits, color);
    }

    /// Whether a tile may have a tag.
    #[inline(always)]
    pub fn is_tagged(&self) -> bool
        ensures { result ≡ nat_lt 0 self.now.tags.extent }
    {
        self.tags.extent() > 0
    }

    /// Draws a sixel of one column on a band without tags, for which there is memory.
    #[inline(always)]
    pub fn draw_column(&mut self, at: usize, bits: u8, color: [u8; 4])
        requires untagged { self.old.tags.extent ≡ 0 }
        requires held { at < self.old.pixels.cap }
        ensures drawn { (column k : ℕ) → tagged_cell self.new column k
            ≡ (if covers at (at + 1) 0 bits column k then color
            else tagged_cell self.old column k) }
        ensures background { self.new.pixels.background ≡ self.old.pixels.background }
        ensures cap { self.new.pixels.cap ≡ self.old.pixels.cap }
        ensures tags { self.new.tags ≡ self.old.tags }
        ensures extent { self.new.pixels.extent ≡ max self.old.pixels.extent (at + 1) }
        ensures painted { self.new.painted ≡ counted self.old.painted 1 }
    {
        self.pixels.draw(at, at + 1, bits, color);
        self.painted = self.painted.saturating_add(1);
    }

    /// Draws a wide sixel over columns some of which were drawn on.
    #[inline(never)]
    fn draw_wide(&mut self, from: usize, to: usize, bits: u8, color: [u8; 4])
        requires ordered { from + 256 ≤ to }
        requires held { to ≤ self.old.pixels.cap }
        requires over { from < self.old.pixels.extent }
        requires visible { is_tag color ≡ true }
        ensures drawn { (column k : ℕ) → tagged_cell self.new column k
            ≡ (if covers from to 0 bits column k then color else tagged_cell self.old column k) }
        ensures room { HasSameRoom self.old self.new }
        ensures extent { self.new.pixels.extent ≡ max self.old.pixels.extent to }
        ensures tags_extent { 128 * self.new.tags.extent ≤ max (128 * self.old.tags.extent) to }
        ensures least { counted self.old.painted (least_cost (to - from)) ≤ self.new.painted }
        ensures painted { self.new.painted ≤ self.old.painted + most_painted (to - from)
            + (max self.old.pixels.extent to - self.old.pixels.extent) }
    {
        let first = from.div_ceil(TILE);
        let last = to.min(self.pixels.extent()) / TILE;
        if first >= last {
            return self.paint(from, to, bits, color);
        }
        self.paint(from, first * TILE, bits, color);
        self.tag(first, last, bits, color);
        self.paint(last * TILE, to, bits, color);
    }

    /// Paints a sixel over the columns from `from` up to before `to`.
    #[inline(always)]
    fn paint(&mut self, from: usize, to: usize, bits: u8, color: [u8; 4])
        requires ordered { from ≤ to }
        requires held { to ≤ self.old.pixels.cap }
        ensures drawn { (column k : ℕ) → tagged_cell self.new column k
            ≡ (if covers from to 0 bits column k then color else tagged_cell self.old column k) }
        ensures room { HasSameRoom self.old self.new }
        ensures extent { self.new.pixels.extent ≡ max self.old.pixels.extent to }
        ensures tags_extent { self.new.tags.extent ≡ self.old.tags.extent }
        ensures least { counted self.old.painted (to - from) ≤ self.new.painted }
        ensures painted { self.new.painted ≤ self.old.painted + (to - from)
            + 128 * (min ((to + 127) / 128) self.old.tags.extent - from / 128) }
    {
        self.untag(from, to);
        self.pixels.draw(from, to, bits, color);
        self.painted = self.painted.saturating_add((to - from) as u64);
    }

    /// Draws eight sixels of one column each, from `from` on: those past `to` are blank.
    #[inline(always)]
    pub fn draw_eight(&mut self, from: usize, to: usize, sixels: [u8; 8], color: [u8; 4])
        requires ordered { from < to }
        requires held { from + 8 ≤ self.old.pixels.cap }
        requires within { from ≤ 1000000 }
        requires few { to ≤ from + 8 }
        requires blank { (column k : ℕ) → to ≤ column
            → covers_eight from sixels 0 column k ≡ false }
        ensures drawn { (column k : ℕ) → tagged_cell self.new column k
            ≡ (if covers_eight from sixels 0 column k then color
            else tagged_cell self.old column k) }
        ensures room { HasSameRoom self.old self.new }
        ensures extent { self.new.pixels.extent ≡ max self.old.pixels.extent to }
        ensures tags_extent { self.new.tags.extent ≡ self.old.tags.extent }
        ensures least { counted self.old.painted 8 ≤ self.new.painted }
        ensures painted { self.new.painted ≤ self.old.painted + 264 }
    {
        self.untag(from, from + 8);
        self.pixels.draw_eight(from, to, sixels, color);
        self.painted = self.painted.saturating_add(8);
    }

    /// Returns the pixels of row `k` up to `extent`, without its tags.
    pub fn row(&self, k: usize) -> &[[u8; 4]]
        requires { k < 6 }
        ensures len { length result.now ≡ self.now.pixels.extent }
        ensures pixels { (column : ℕ) → slice_index_or result.now column self.now.pixels.background
            ≡ cell self.now.pixels column k }
    {
        self.pixels.row(k)
    }

    /// Fills the band with background.
    pub fn clear(&mut self)
        ensures shown { (column k : ℕ) → tagged_cell self.new column k
            ≡ self.old.pixels.background }
        ensures room { HasSameRoom self.old self.new }
        ensures extent { self.new.pixels.extent ≡ 0 }
        ensures tags_extent { self.new.tags.extent ≡ 0 }
        ensures painted { self.new.painted ≡ self.old.painted }
    {
        self.tags.clear();
        self.pixels.clear();
    }
}

/// Returns the new capacity of a band whose capacity `cap` is too small for `columns`.
fn greater_cap(cap: usize, columns: usize) -> usize
    requires more { cap < columns }
    requires within { columns ≤ 1000008 }
    ensures more { columns ≤ result }
    ensures doubled { doubled cap ≤ result }
    ensures within { result ≤ 1000008 }
    ensures most { result + (result + 127) / 128 ≤ 2 * columns }
{
    columns.max(MAX_CAP.min(2 * cap - cap / 32))
}
