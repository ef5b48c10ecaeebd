//! An image that is mapped to a palette, and the entries of neighbors that its pixels may keep.

ghost use Rattle.std.specs.Prelude.{◌≡◌, ◌+◌, ◌*◌, ◌/◌, ◌<◌, ◌≤◌, ℕ, IfOk, OnOk, Option, Some};
ghost use Rattle.std.specs.Prelude.{length};
ghost use Rattle.sixel_palette.specs.Dithering.{IsIndex, column_of_step, entry_above, entry_before};
ghost use Rattle.sixel_palette.specs.{Dithering.neighbor_of, Palette.{color_at, entry_of}};
ghost use Rattle.sixel_palette.specs.inside.{Keys.IsSearchOf, Mapped.{AreEntries, IsInside}};
ghost use Rattle.sixel_palette.specs.inside.Mapped.{IsKept, IsMappable, IsPlace, kept_value};
ghost use Rattle.sixel_palette.specs.inside.Mapped.{mapped_value};

use crate::palette::colors::is_opaque;
use crate::palette::distance::distance;
use crate::palette::nearest::Search;
use std::alloc::AllocError;

/// An image that is mapped to a palette.
#[derive(Clone, Copy)]
pub struct MappedImage<'a> {
    pub pixels: &'a [u8],
    pub width: usize,
    pub colors: &'a [[u8; 3]],
    /// How many eighths of an error are passed on.
    pub strength: u8,
    /// By how much an entry may be farther than the nearest one.
    pub tolerance: u32,
}

/// A step of a row, and its pixel.
#[derive(Clone, Copy)]
pub struct Place {
    pub row: usize,
    pub step: usize,
    pub pixel: usize,
}

/// An entry that a pixel may keep, and its squared distance to the pixel's target.
#[derive(Clone, Copy)]
pub struct Kept {
    pub squared: u32,
    pub index: u8,
}

/// No entry to keep: it is farther than any.
const NONE: Kept = Kept {
    squared: u32::MAX,
    index: 0,
};

impl Kept {
    /// Returns the nearer one of two entries, the first on ties.
    ///
    /// It has no branch, because in photographs either one is often the nearer.
    #[inline(always)]
    pub fn or_nearer(self, other: Self) -> Self
        ensures second { other.squared < self.squared → result ≡ other }
        ensures first { self.squared ≤ other.squared → result ≡ self }
    {
        Self {
            squared: other.squared.min(self.squared),
            index: if other.squared < self.squared {
                other.index
            } else {
                self.index
            },
        }
    }
}

impl<'a> MappedImage<'a> {
    /// Returns an image whose pixels have their nearest entries, without dithering.
    pub fn plain(pixels: &'a [u8], width: usize, colors: &'a [[u8; 3]]) -> Self
        ensures pixels { result.pixels.now ≡ pixels.now }
        ensures width { result.width ≡ width }
        ensures colors { result.colors.now ≡ colors.now }
        ensures strength { result.strength ≡ 0 }
    {
        Self {
            pixels,
            width,
            colors,
            strength: 0,
            tolerance: 0,
        }
    }
}

impl MappedImage<'_> {
    /// Returns the color of a pixel.
    #[inline(always)]
    pub fn color(&self, pixel: usize) -> [u8; 3]
        requires { pixel < length self.now.pixels.now / 4 }
        ensures { result ≡ color_at self.now.pixels.now pixel }
    {
        let at = 4 * pixel;
        [self.pixels[at], self.pixels[at + 1], self.pixels[at + 2]]
    }

    /// Returns the palette index for a target: of the entry that is kept, or of the nearest one.
    #[inline(always)]
    pub fn index_of(
        &self,
        search: &mut Search,
        kept: Kept,
        target: [u8; 3],
    ) -> Result<u8, AllocError>
        requires some { 0 < length self.now.colors.now }
        requires search { IsSearchOf self.now.colors.now search.old }
        ensures index { IfOk result (λ index. (neighbor : Option ℕ)
            → IsKept (mapped_value self.now) target neighbor kept
            → IsIndex (mapped_value self.now) target neighbor index) }
        ensures search { OnOk result (IsSearchOf self.now.colors.now search.new) }
    {
        let near = search.nearest_to(target)?;
        if self.tolerance == 0 {
            return Ok(near.index);
        }
        let is_kept = kept.squared < near.squared.saturating_add(self.tolerance);
        Ok(if is_kept { kept.index } else { near.index })
    }

    /// Returns the entries of the pixels before and above. Without a tolerance there are none.
    #[inline(always)]
    pub fn neighbors(
        &self,
        indices: &[u8],
        place: Place,
        before: Option<u8>,
        target: [u8; 3],
    ) -> (Kept, Kept)
        requires image { IsMappable self.now }
        requires place { IsPlace (mapped_value self.now) place }
        requires size { length indices.now ≡ length self.now.pixels.now / 4 }
        requires entries { AreEntries self.now.colors.now indices.now }
        requires before { before ≡ entry_before (mapped_value self.now) indices.now
            (place.row * self.now.width + place.step) }
        requires inside { (index : ℕ) → before ≡ Some index → index < length self.now.colors.now }
        ensures above { result.1.squared < result.0.squared → IsKept (mapped_value self.now) target
            (neighbor_of (mapped_value self.now) target indices.now
            (place.row * self.now.width + place.step)) result.1 }
        ensures before { result.0.squared ≤ result.1.squared → IsKept (mapped_value self.now) target
            (neighbor_of (mapped_value self.now) target indices.now
            (place.row * self.now.width + place.step)) result.0 }
    {
        if self.tolerance == 0 {
            return (NONE, NONE);
        }
        let before = self.kept_at(before, target);
        let above = self.kept_at(self.entry_above(indices, place), target);
        (before, above)
    }

    /// Returns an entry with its distance to a target.
    #[inline(always)]
    fn kept_at(&self, entry: Option<u8>, target: [u8; 3]) -> Kept
        requires { (index : ℕ) → entry ≡ Some index → index < length self.now.colors.now }
        ensures value { result ≡ kept_value self.now.colors.now target entry }
        ensures inside { IsInside self.now.colors.now target entry }
    {
        match entry {
            None => NONE,
            Some(index) => Kept {
                squared: distance(self.colors[usize::from(index)], target),
                index,
            },
        }
    }

    /// Returns the entry of the pixel above, in the same band.
    #[inline(always)]
    pub fn entry_above(&self, indices: &[u8], place: Place) -> Option<u8>
        requires image { IsMappable self.now }
        requires place { IsPlace (mapped_value self.now) place }
        requires size { length indices.now ≡ length self.now.pixels.now / 4 }
        ensures value { result ≡ entry_above (mapped_value self.now) indices.now
            (place.row * self.now.width + place.step) }
        ensures inside { (index : ℕ) → AreEntries self.now.colors.now indices.now
            → result ≡ Some index → index < length self.now.colors.now }
    {
        if place.row % 6 == 0 {
            return None;
        }
        self.entry_at(indices, place.pixel - self.width)
    }

    /// Returns the entry of a pixel, if the pixel is opaque.
    #[inline(always)]
    pub fn entry_at(&self, indices: &[u8], pixel: usize) -> Option<u8>
        requires pixel { pixel < length self.now.pixels.now / 4 }
        requires size { length indices.now ≡ length self.now.pixels.now / 4 }
        ensures value { result ≡ entry_of self.now.pixels.now indices.now pixel }
        ensures inside { (index : ℕ) → AreEntries self.now.colors.now indices.now
            → result ≡ Some index → index < length self.now.colors.now }
    {
        if !is_opaque(self.pixels, pixel) {
            return None;
        }
        Some(indices[pixel])
    }
}

/// Returns the column of a step of a row: odd rows go from the right.
#[inline(always)]
pub fn column_of_step(width: usize, row: usize, step: usize) -> usize
    requires { step < width }
    ensures value { result ≡ column_of_step width row step }
    ensures within { result < width }
{
    if row % 2 == 0 { step } else { width - 1 - step }
}
