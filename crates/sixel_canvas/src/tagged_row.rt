//! A row in which a wide run over other pixels costs one tag per tile, and two ends.
ghost use Rattle.std.specs.Prelude.{◌≡◌, ℕ, ◌+◌, ◌*◌, ◌/◌, ◌%◌, ◌^◌, ◌≤◌, ◌<◌, ◌++◌, ◌⊎◌, length};
ghost use Rattle.std.specs.Prelude.{max, min, true, false, nat_le, nat_lt, ◌&&◌, vec_len, IsOk};
ghost use Rattle.std.specs.Prelude.{OnOk, if◌then◌else◌};
ghost use Rattle.sixel_base.specs.{Limits.side_limit, Picture.joined};
ghost use Rattle.sixel_canvas.specs.inside.TaggedRow.{IsTaggedRow, IsUntagged, empty_tagged_row};
ghost use Rattle.sixel_canvas.specs.inside.{TaggedRow.{tag_of, tagged_pixel}, Tags.is_tag};

use crate::row::Row;
use crate::span::{AllocResult, add_pixels};
use crate::tag::{NO_TAG, TILE, WIDE, is_visible};
use std::alloc::Global;
use std::marker::Model;

/// A row of which tiles of 128 columns can have a tag.
///
/// A tag is the one color that a tile shows, whatever is stored there. So a run over a tile that
/// was drawn on need not paint it. A run that covers a part of a tagged tile paints the rest of
/// the tile in its tag first.
#[derive(Drop)]
pub struct TaggedRow {
    row: Row,
    tags: Row,
    appended: u64,
}

impl Model for TaggedRow {
    ghost use Rattle.sixel_canvas.specs.inside.TaggedRow.{TaggedRowState, IsTaggedRow};
    ghost use Rattle.sixel_canvas.specs.inside.TaggedRow.{tagged_row_state};

    ghost Value = { TaggedRowState };

    ghost view = { λ line. tagged_row_state line.row line.tags line.appended };

    ghost invariant = { λ line. IsTaggedRow (tagged_row_state line.row line.tags line.appended) };
}

impl TaggedRow {
    /// Returns a row with no pixel. It does not allocate.
    pub fn new(alloc: Global, background: [u8; 4]) -> TaggedRow
        ensures empty { result ≡ empty_tagged_row background }
        ensures sound { IsTaggedRow result }
    {
        TaggedRow {
            row: Row::new(alloc, background),
            tags: Row::new(alloc, NO_TAG),
            appended: 0,
        }
    }

    /// Returns how many columns the row has.
    pub fn len(&self) -> usize
        ensures { result ≡ length self.now.row.pixels }
    {
        self.row.len()
    }

    /// Returns how many pixels were copied or filled to grow the row.
    pub fn writes(&self) -> u64
        ensures value { result ≡ self.now.row.writes }
        ensures sound { IsTaggedRow self.now }
    {
        self.row.writes()
    }

    /// Returns how many pixels runs have painted past all that was drawn on.
    pub fn appended(&self) -> u64
        ensures value { result ≡ self.now.appended }
        ensures sound { IsTaggedRow self.now }
    {
        self.appended
    }

    /// Draws a run over the columns from `from` up to before `to`, and grows the row to them.
    #[tactic(auto, using(crate::proofs::TaggedRows::tagged_steps))]
    pub fn draw(&mut self, from: usize, to: usize, color: [u8; 4]) -> AllocResult<()>
        requires ordered { from < to }
        requires within { to ≤ side_limit }
        requires visible { is_tag color ≡ true }
        ensures drawn { OnOk result ((column : ℕ) → tagged_pixel self.new column
            ≡ (if nat_le from column && nat_lt column to then color
            else tagged_pixel self.old column)) }
        ensures len { OnOk result
            (length self.new.row.pixels ≡ max (length self.old.row.pixels) to) }
        ensures background { self.new.row.background ≡ self.old.row.background }
        ensures held { to ≡ from + 1 → to ≤ length self.old.row.pixels → IsOk result }
        ensures sound { IsTaggedRow self.new }
    {
        let len = self.row.len();
        self.row.grow(to)?;
        if to - from < WIDE && self.tags.is_empty() {
            self.row.paint(from, to, color);
            return Ok(());
        }
        if len <= from {
            self.row.paint(from, to, color);
            self.appended += (to - from) as u64;
            return Ok(());
        }
        self.draw_over(from, to, color)
    }

    /// Draws a run over columns that the row has.
    #[tactic(auto, using(crate::proofs::TaggedRows::tagged_steps))]
    #[inline(never)]
    fn draw_over(&mut self, from: usize, to: usize, color: [u8; 4]) -> AllocResult<()>
        requires ordered { from < to }
        requires held { to ≤ length self.old.row.pixels }
        requires visible { is_tag color ≡ true }
        ensures drawn { OnOk result ((column : ℕ) → tagged_pixel self.new column
            ≡ (if nat_le from column && nat_lt column to then color
            else tagged_pixel self.old column)) }
        ensures len { length self.new.row.pixels ≡ length self.old.row.pixels }
        ensures background { self.new.row.background ≡ self.old.row.background }
        ensures single { to ≡ from + 1 → IsOk result }
        ensures sound { IsTaggedRow self.new }
    {
        if from.div_ceil(TILE) >= to / TILE {
            self.paint(from, to, color);
            return Ok(());
        }
        self.tags.grow(to / TILE)?;
        self.tag(from, to, color);
        Ok(())
    }

    /// Draws a run that covers no tile whole over columns that the row has.
    fn paint(&mut self, from: usize, to: usize, color: [u8; 4])
        requires ordered { from ≤ to }
        requires held { to ≤ length self.old.row.pixels }
        requires short { to / 128 ≤ from / 128 + min 1 (from % 128) }
        ensures drawn { (column : ℕ) → tagged_pixel self.new column
            ≡ (if nat_le from column && nat_lt column to then color
            else tagged_pixel self.old column) }
        ensures len { length self.new.row.pixels ≡ length self.old.row.pixels }
        ensures background { self.new.row.background ≡ self.old.row.background }
        ensures sound { IsTaggedRow self.new }
    {
        self.untag_ends(from, to);
        self.row.paint(from, to, color);
    }

    /// Tags the tiles that a run covers whole, for which there is memory, and paints its ends.
    #[tactic(auto, using(crate::proofs::TaggedRows::tagged_ends))]
    fn tag(&mut self, from: usize, to: usize, color: [u8; 4])
        requires whole { from / 128 + min 1 (from % 128) < to / 128 }
        requires held { to ≤ length self.old.row.pixels }
        requires tags_held { to / 128 ≤ length self.old.tags.pixels }
        requires visible { is_tag color ≡ true }
        ensures drawn { (column : ℕ) → tagged_pixel self.new column
            ≡ (if nat_le from column && nat_lt column to then color
            else tagged_pixel self.old column) }
        ensures len { length self.new.row.pixels ≡ length self.old.row.pixels }
        ensures background { self.new.row.background ≡ self.old.row.background }
        ensures sound { IsTaggedRow self.new }
    {
        let first = from.div_ceil(TILE);
        let last = to / TILE;
        self.untag_ends(from, to);
        self.row.paint(from, first * TILE, color);
        self.row.paint(last * TILE, to, color);
        self.tags.paint(first, last, color);
    }

    /// Paints the tags of the tiles at both ends of a run, except in its own columns.
    fn untag_ends(&mut self, from: usize, to: usize)
        requires ordered { from ≤ to }
        requires held { to ≤ length self.old.row.pixels }
        ensures outside { (column : ℕ) → (column < from) ⊎ (to ≤ column)
            → tagged_pixel self.new column ≡ tagged_pixel self.old column }
        ensures left { is_tag (tag_of self.new (from / 128)) ≡ false }
        ensures right { is_tag (tag_of self.new (to / 128)) ≡ false }
        ensures len { length self.new.row.pixels ≡ length self.old.row.pixels }
        ensures tags_len { length self.new.tags.pixels ≡ length self.old.tags.pixels }
        ensures background { self.new.row.background ≡ self.old.row.background }
        ensures sound { IsTaggedRow self.new }
    {
        self.untag(from / TILE, from, to);
        self.untag(to / TILE, from, to);
    }

    /// Paints the tag of a tile, except in the columns from `from` up to before `to`.
    fn untag(&mut self, tile: usize, from: usize, to: usize)
        requires ordered { from ≤ to }
        ensures { IsUntagged self.old self.new tile from to }
    {
        let tag = self.tags.pixel(tile);
        if !is_visible(tag) {
            return;
        }
        let start = tile * TILE;
        let end = start + TILE;
        self.row.paint(start, from.clamp(start, end), tag);
        self.row.paint(to.clamp(start, end), end, tag);
        self.tags.paint(tile, tile + 1, NO_TAG);
    }

    /// Appends `width` pixels from the left, with background where the row is short.
    pub fn pack(&self, bytes: &mut Vec<u8>, width: usize) -> AllocResult<()>
        requires { vec_len bytes.old + 4 * width < 2 ^ 63 }
        ensures ok { OnOk result (bytes.new.items ≡ bytes.old.items
            ++ joined (λ column. tagged_pixel self.now column) width) }
        ensures len { OnOk result (vec_len bytes.new ≡ vec_len bytes.old + 4 * width) }
    {
        'segments: for tile in 0..width.div_ceil(TILE) {
            self.pack_tile(bytes, tile, TILE.min(width - tile * TILE))?;
        }
        Ok(())
    }

    /// Appends `count` pixels of a tile, from its left.
    #[tactic(auto, using(crate::proofs::TaggedRows::tagged_steps))]
    fn pack_tile(&self, bytes: &mut Vec<u8>, tile: usize, count: usize) -> AllocResult<()>
        requires within { count ≤ 128 }
        requires columns_fit { tile * 128 < 2 ^ 63 }
        requires bytes_fit { vec_len bytes.old + 4 * count < 2 ^ 63 }
        ensures ok { OnOk result (bytes.new.items ≡ bytes.old.items
            ++ joined (λ k. tagged_pixel self.now (tile * 128 + k)) count) }
        ensures len { OnOk result (vec_len bytes.new ≡ vec_len bytes.old + 4 * count) }
    {
        let tag = self.tags.pixel(tile);
        if is_visible(tag) {
            return add_pixels(bytes, count, tag);
        }
        self.row.pack(bytes, tile * TILE, count)
    }
}
