//! Entries of pixels without diffusion, which are chosen for a small error and few bytes.

ghost use Rattle.std.specs.Prelude.{◌≡◌, ℕ, ◌+◌, ◌*◌, ◌/◌, ◌<◌, ◌≤◌, IfOk, Some, length};
ghost use Rattle.std.specs.Prelude.{slice_index};
ghost use Rattle.sixel_palette.specs.{Dithering.HaveChoice, Palette.{AreIndices, IsOpaque}};
ghost use Rattle.sixel_palette.specs.Palette.{entry_distance, entry_of, color_at};
ghost use Rattle.sixel_palette.specs.Undithered.{cheaper, cheapest, entry_above, entry_after};
ghost use Rattle.sixel_palette.specs.Undithered.{entry_before, is_entry, lacking, lacking_after};
ghost use Rattle.sixel_palette.specs.Undithered.{lacking_before, lacking_below, pixel_of, top_of};
ghost use Rattle.sixel_palette.specs.inside.Mapped.{IsMappable, mapped_value};
ghost use Rattle.sixel_palette.specs.inside.Undithered.{IsChoice, IsPriced, choice_value};

use crate::dithering::mapped::MappedImage;
use crate::palette::colors::is_opaque;
use crate::palette::distance::distance;
use std::alloc::{AllocError, Global};

/// A pixel of an image, and the palette indices that its entry is chosen by.
#[derive(Clone, Copy)]
struct Choice<'a> {
    image: &'a MappedImage<'a>,
    nearest: &'a [u8],
    /// Those of the pixels that are visited before.
    chosen: &'a [u8],
    column: usize,
    row: usize,
}

/// An entry, and what it costs.
#[derive(Clone, Copy)]
struct Priced {
    cost: u64,
    index: u8,
}

/// Returns the palette index of each pixel, from the indices of their nearest entries.
pub fn chosen_indices(
    alloc: Global,
    image: &MappedImage<'_>,
    nearest: Vec<u8>,
) -> Result<Vec<u8>, AllocError>
    requires image { IsMappable image.now }
    requires nearest { AreIndices image.now.pixels.now image.now.colors.now nearest.items }
    ensures { IfOk result (λ chosen. HaveChoice (mapped_value image.now) chosen.items) }
{
    if image.tolerance == 0 {
        return Ok(nearest);
    }
    let mut chosen = vec![in alloc; 0; nearest.len()]?;
    let height = nearest.len() / image.width;
    for band in 0..height / 6 + 1 {
        for column in 0..image.width {
            for row in 6 * band..(6 * band + 6).min(height) {
                let choice = Choice {
                    image: &*image,
                    nearest: &nearest,
                    chosen: &chosen,
                    column,
                    row,
                };
                let index = choice.index();
                chosen[row * image.width + column] = index;
            }
        }
    }
    Ok(chosen)
}

impl Choice<'_> {
    /// Returns the palette index of the pixel, 0 if it is transparent.
    #[inline(always)]
    fn index(&self) -> u8
        requires { IsChoice (choice_value self.now) self.now.column self.now.row }
        ensures opaque { IsOpaque self.now.image.now.pixels.now
            (pixel_of (choice_value self.now) self.now.column self.now.row)
            → result ≡ cheapest (choice_value self.now) self.now.column self.now.row }
        ensures hidden { slice_index self.now.image.now.pixels.now
            (4 * pixel_of (choice_value self.now) self.now.column self.now.row + 3) < 128
            → result ≡ 0 }
        ensures entry { 0 < length self.now.image.now.colors.now
            → result < length self.now.image.now.colors.now }
    {
        let pixel = self.row * self.image.width + self.column;
        if !is_opaque(self.image.pixels, pixel) {
            return 0;
        }
        let nearest = self.nearest[pixel];
        let lacking = self.lacking(nearest);
        if lacking == 0 {
            return nearest;
        }
        let own = Priced {
            cost: self.squares(nearest) + u64::from(self.image.tolerance) * lacking,
            index: nearest,
        };
        let left = self.cheaper(own, self.before());
        let upper = self.cheaper(left, self.above());
        self.cheaper(upper, self.after()).index
    }

    /// Returns the entry of the pixel before, in its row.
    #[inline(always)]
    fn before(&self) -> Option<u8>
        requires { IsChoice (choice_value self.now) self.now.column self.now.row }
        ensures value { result ≡ entry_before (choice_value self.now) self.now.column self.now.row }
        ensures inside { (index : ℕ) → result ≡ Some index
            → index < length self.now.image.now.colors.now }
    {
        if self.column == 0 {
            return None;
        }
        let pixel = self.row * self.image.width + self.column;
        self.image.entry_at(self.chosen, pixel - 1)
    }

    /// Returns the entry of the pixel above, in the same band.
    #[inline(always)]
    fn above(&self) -> Option<u8>
        requires { IsChoice (choice_value self.now) self.now.column self.now.row }
        ensures value { result ≡ entry_above (choice_value self.now) self.now.column self.now.row }
        ensures inside { (index : ℕ) → result ≡ Some index
            → index < length self.now.image.now.colors.now }
    {
        if self.row % 6 == 0 {
            return None;
        }
        let pixel = (self.row - 1) * self.image.width + self.column;
        self.image.entry_at(self.chosen, pixel)
    }

    /// Returns the entry nearest to the pixel after, in its row.
    #[inline(always)]
    fn after(&self) -> Option<u8>
        requires { IsChoice (choice_value self.now) self.now.column self.now.row }
        ensures value { result ≡ entry_after (choice_value self.now) self.now.column self.now.row }
        ensures inside { (index : ℕ) → result ≡ Some index
            → index < length self.now.image.now.colors.now }
    {
        if self.column + 1 == self.image.width {
            return None;
        }
        let pixel = self.row * self.image.width + self.column;
        self.image.entry_at(self.nearest, pixel + 1)
    }

    /// Returns the cheaper one of two entries, the first on ties.
    #[inline(always)]
    fn cheaper(&self, first: Priced, entry: Option<u8>) -> Priced
        requires choice { IsChoice (choice_value self.now) self.now.column self.now.row }
        requires first { IsPriced (choice_value self.now) self.now.column self.now.row first }
        requires inside { (index : ℕ) → entry ≡ Some index
            → index < length self.now.image.now.colors.now }
        ensures priced { IsPriced (choice_value self.now) self.now.column self.now.row result }
        ensures index { result.index
            ≡ cheaper (choice_value self.now) self.now.column self.now.row first.index entry }
    {
        match entry {
            Some(index) if index != first.index => {
                let squares = self.squares(index);
                if squares >= first.cost {
                    return first;
                }
                let cost = squares + u64::from(self.image.tolerance) * self.lacking(index);
                if cost < first.cost {
                    Priced { cost, index }
                } else {
                    first
                }
            }
            _ => first,
        }
    }

    /// Returns twice the squared distance of an entry.
    #[inline(always)]
    fn squares(&self, index: u8) -> u64
        requires choice { IsChoice (choice_value self.now) self.now.column self.now.row }
        requires inside { index < length self.now.image.now.colors.now }
        ensures value { result ≡ 2 * entry_distance self.now.image.now.colors.now
            (color_at self.now.image.now.pixels.now
            (pixel_of (choice_value self.now) self.now.column self.now.row)) index }
        ensures small { result < 400000 }
    {
        let pixel = self.row * self.image.width + self.column;
        let entry = self.image.colors[usize::from(index)];
        2 * u64::from(distance(entry, self.image.color(pixel)))
    }

    /// Returns how many columns beside the pixel lack an entry, 0 if the pixel above has it.
    #[inline(always)]
    fn lacking(&self, index: u8) -> u64
        requires { IsChoice (choice_value self.now) self.now.column self.now.row }
        ensures value { result
            ≡ lacking (choice_value self.now) self.now.column self.now.row index }
        ensures small { result ≤ 2 }
    {
        if self.is_above(index) {
            return 0;
        }
        self.lacking_before(index) + self.lacking_after(index)
    }

    /// Returns whether the pixel above, in the same band, has an entry.
    #[inline(always)]
    fn is_above(&self, index: u8) -> bool
        requires { IsChoice (choice_value self.now) self.now.column self.now.row }
        ensures { result ≡ is_entry
            (entry_above (choice_value self.now) self.now.column self.now.row) index }
    {
        if self.row % 6 == 0 {
            return false;
        }
        let pixel = (self.row - 1) * self.image.width + self.column;
        self.has(self.chosen, pixel, index)
    }

    /// Returns 1 if the column before lacks an entry.
    #[inline(always)]
    fn lacking_before(&self, index: u8) -> u64
        requires { IsChoice (choice_value self.now) self.now.column self.now.row }
        ensures value { result
            ≡ lacking_before (choice_value self.now) self.now.column self.now.row index }
        ensures small { result ≤ 1 }
    {
        if self.column == 0 {
            return 1;
        }
        self.lacking_below(self.chosen, self.top() - 1, index)
    }

    /// Returns 1 if the column after lacks an entry.
    #[inline(always)]
    fn lacking_after(&self, index: u8) -> u64
        requires { IsChoice (choice_value self.now) self.now.column self.now.row }
        ensures value { result
            ≡ lacking_after (choice_value self.now) self.now.column self.now.row index }
        ensures small { result ≤ 1 }
    {
        if self.column + 1 == self.image.width {
            return 1;
        }
        self.lacking_below(self.nearest, self.top() + 1, index)
    }

    /// Returns the topmost pixel of the column in the band.
    #[inline(always)]
    fn top(&self) -> usize
        requires { IsChoice (choice_value self.now) self.now.column self.now.row }
        ensures value { result ≡ top_of (choice_value self.now) self.now.column self.now.row }
        ensures column { self.now.column ≤ result }
        ensures inside { result + self.now.image.now.width
            ≤ length self.now.image.now.pixels.now / 4 + self.now.column }
    {
        self.row / 6 * 6 * self.image.width + self.column
    }

    /// Returns 1 if a column of the band lacks an entry, from its topmost pixel.
    #[inline(always)]
    fn lacking_below(&self, indices: &[u8], top: usize, index: u8) -> u64
        requires choice { IsChoice (choice_value self.now) self.now.column self.now.row }
        requires size { length indices.now ≡ length self.now.image.now.pixels.now / 4 }
        requires top { top < length indices.now }
        ensures value { result ≡ lacking_below (choice_value self.now) indices.now index top }
        ensures small { result ≤ 1 }
    {
        let mut pixel = top;
        for _line in 0..6_usize {
            if pixel >= indices.len() {
                return 1;
            }
            if self.has(indices, pixel, index) {
                return 0;
            }
            pixel += self.image.width;
        }
        1
    }

    /// Returns whether a pixel has an entry.
    #[inline(always)]
    fn has(&self, indices: &[u8], pixel: usize, index: u8) -> bool
        requires size { length indices.now ≡ length self.now.image.now.pixels.now / 4 }
        requires pixel { pixel < length indices.now }
        ensures { result
            ≡ is_entry (entry_of self.now.image.now.pixels.now indices.now pixel) index }
    {
        indices[pixel] == index && is_opaque(self.image.pixels, pixel)
    }
}
