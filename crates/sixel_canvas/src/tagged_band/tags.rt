//! The tags of a band: how tiles get them, and how they are painted.
ghost use Rattle.std.specs.Prelude.{◌≡◌, ℕ, ◌+◌, ◌-◌, ◌*◌, ◌/◌, ◌≤◌, ◌<◌, max, min, true, false};
ghost use Rattle.std.specs.Prelude.{nat_le, nat_lt, ◌&&◌, if◌then◌else◌};
ghost use Rattle.sixel_base.specs.Picture.{covers};
ghost use Rattle.sixel_canvas.specs.inside.{Band.{cell, IsBand}, TaggedBand.HasSameRoom};
ghost use Rattle.sixel_canvas.specs.inside.{TaggedBand.tagged_cell, Tags.{is_tag, no_tag, under}};
ghost use Rattle.sixel_canvas.specs.Paints.{counted};

use crate::band::Band;
use crate::tag::{NO_TAG, TILE, is_visible};
use crate::tagged_band::TaggedBand;

impl TaggedBand {
    /// Gives the tiles from `first` up to before `last`, which were drawn on whole, a tag.
    pub(crate) fn tag(&mut self, first: usize, last: usize, bits: u8, color: [u8; 4])
        requires ordered { first < last }
        requires whole { 128 * last ≤ self.old.pixels.extent }
        requires visible { is_tag color ≡ true }
        ensures drawn { (column k : ℕ) → tagged_cell self.new column k
            ≡ (if covers (first * 128) (last * 128) 0 bits column k then color
            else tagged_cell self.old column k) }
        ensures pixels { self.new.pixels ≡ self.old.pixels }
        ensures tags_cap { self.new.tags.cap ≡ self.old.tags.cap }
        ensures extent { self.new.tags.extent ≡ max self.old.tags.extent last }
        ensures painted { self.new.painted ≡ counted self.old.painted (last - first) }
    {
        self.tags.draw(first, last, bits, color);
        self.painted = self.painted.saturating_add((last - first) as u64);
    }

    /// Paints the tags of the tiles that these columns lie in.
    #[inline(always)]
    pub(crate) fn untag(&mut self, from: usize, to: usize)
        requires ordered { from ≤ to }
        ensures shown { (column k : ℕ) → tagged_cell self.new column k
            ≡ tagged_cell self.old column k }
        ensures untagged { (column k : ℕ) → from ≤ column → column < to
            → is_tag (cell self.new.tags (column / 128) k) ≡ false }
        ensures room { HasSameRoom self.old self.new }
        ensures extent { self.new.pixels.extent ≡ self.old.pixels.extent }
        ensures tags_extent { self.new.tags.extent ≡ self.old.tags.extent }
        ensures painted { self.new.painted ≡ counted self.old.painted
            (128 * (min ((to + 127) / 128) self.old.tags.extent - from / 128)) }
    {
        let tagged = self.tags.extent();
        if tagged > 0 {
            let last = to.div_ceil(TILE).min(tagged);
            let first = last.min(from / TILE);
            self.untag_tiles(first, last);
            let painted = TILE * (last - first);
            self.painted = self.painted.saturating_add(painted as u64);
        }
    }

    /// Paints the tags of the tiles from `first` up to before `last`.
    #[inline(never)]
    fn untag_tiles(&mut self, first: usize, last: usize)
        requires ordered { first ≤ last }
        requires tagged { last ≤ self.old.tags.extent }
        ensures shown { (column k : ℕ) → tagged_cell self.new column k
            ≡ tagged_cell self.old column k }
        ensures untagged { (tile k : ℕ) → first ≤ tile → tile < last
            → is_tag (cell self.new.tags tile k) ≡ false }
        ensures others { (tile k : ℕ) → last ≤ tile
            → cell self.new.tags tile k ≡ cell self.old.tags tile k }
        ensures room { HasSameRoom self.old self.new }
        ensures extent { self.new.pixels.extent ≡ self.old.pixels.extent }
        ensures tags_extent { self.new.tags.extent ≡ self.old.tags.extent }
        ensures painted { self.new.painted ≡ self.old.painted }
    {
        'each: for tile in first..last {
            self.untag_tile(tile);
        }
    }

    /// Paints the tags of one tile.
    #[tactic(auto, using(crate::proofs::BandStates::all_rows))]
    fn untag_tile(&mut self, tile: usize)
        requires { tile < self.old.tags.extent }
        ensures shown { (column k : ℕ) → tagged_cell self.new column k
            ≡ tagged_cell self.old column k }
        ensures untagged { (k : ℕ) → is_tag (cell self.new.tags tile k) ≡ false }
        ensures others { (other k : ℕ) → (other ≡ tile → ⊥)
            → cell self.new.tags other k ≡ cell self.old.tags other k }
        ensures room { HasSameRoom self.old self.new }
        ensures extent { self.new.pixels.extent ≡ self.old.pixels.extent }
        ensures tags_extent { self.new.tags.extent ≡ self.old.tags.extent }
        ensures painted { self.new.painted ≡ self.old.painted }
    {
        paint_tags(&mut self.pixels, &self.tags, tile);
        self.tags.draw(tile, tile + 1, 63, NO_TAG);
    }

    /// Paints all tags, so that no tile has one.
    #[inline(never)]
    pub fn untag_all(&mut self)
        ensures shown { (column k : ℕ) → cell self.new.pixels column k
            ≡ tagged_cell self.old column k }
        ensures same { (column k : ℕ) → tagged_cell self.new column k
            ≡ tagged_cell self.old column k }
        ensures room { HasSameRoom self.old self.new }
        ensures extent { self.new.pixels.extent ≡ self.old.pixels.extent }
        ensures tags_extent { self.new.tags.extent ≡ 0 }
        ensures painted { self.new.painted
            ≡ counted self.old.painted (128 * self.old.tags.extent) }
    {
        let tagged = self.tags.extent();
        self.untag_tiles(0, tagged);
        self.tags.clear();
        self.painted = self.painted.saturating_add((TILE * tagged) as u64);
    }
}

/// Paints the tags that the rows of one tile have.
fn paint_tags(pixels: &mut Band, tags: &Band, tile: usize)
    requires tagged { tile < tags.now.extent }
    requires whole { 128 * tags.now.extent ≤ pixels.old.extent }
    requires pixels { IsBand pixels.old }
    requires clear { tags.now.background ≡ no_tag }
    ensures painted { (column k : ℕ) → cell pixels.new column k ≡ (if nat_le (tile * 128) column
        && nat_lt column (tile * 128 + 128) && nat_lt k 6
        then under (cell tags.now tile k) (cell pixels.old column k)
        else cell pixels.old column k) }
    ensures background { pixels.new.background ≡ pixels.old.background }
    ensures cap { pixels.new.cap ≡ pixels.old.cap }
    ensures extent { pixels.new.extent ≡ pixels.old.extent }
    ensures whole { IsBand pixels.new }
{
    'rows: for k in 0..6 {
        let tag = tags.row(k)[tile];
        if is_visible(tag) {
            let start = tile * TILE;
            pixels.draw_row(k, start, start + TILE, tag);
        }
    }
}
