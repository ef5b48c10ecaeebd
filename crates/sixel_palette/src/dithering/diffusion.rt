//! Error diffusion by Floyd and Steinberg, serpentine, in whole sixteenths.
//!
//! R. W. Floyd, L. Steinberg, "An adaptive algorithm for spatial greyscale", Proceedings of the
//! Society for Information Display 17 (1976), 75-77.

ghost use Rattle.std.specs.Prelude.{◌≡◌, ℕ, ◌<◌, ◌≤◌, ◌+◌, ◌-◌, ◌*◌, ◌/◌, IfOk, List, OnOk, length};
ghost use Rattle.std.specs.Prelude.{[], Some, slice_index, slice_index_or, slice_set};
ghost use Rattle.sixel_palette.specs.Dithering.{AreDiffused, AreVisited, entry_before, errors_of};
ghost use Rattle.sixel_palette.specs.inside.Diffusion.{AreErrors, AreLanes, AreParts, ArePrepared};
ghost use Rattle.sixel_palette.specs.inside.Diffusion.{AreReceived, HaveErrors, AreSixteenths};
ghost use Rattle.sixel_palette.specs.inside.Diffusion.{IsBeyond, IsLine, IsVisit, channels};
ghost use Rattle.sixel_palette.specs.inside.Diffusion.{color_error, no_error_lanes, received_of};
ghost use Rattle.sixel_palette.specs.inside.Diffusion.{IsPart, rounded_color};
ghost use Rattle.sixel_palette.specs.inside.Mapped.{AreEntries, IsMappable, IsPlace, mapped_value};

use crate::dithering::mapped::{MappedImage, Place, column_of_step};
use crate::dithering::sixteen_entries::SixteenEntries;
use crate::palette::colors::is_opaque;
use crate::palette::nearest::Search;
use crate::palette::nearest_indices::channel_bytes;
use std::alloc::{AllocError, Global};
use std::simd::prelude::*;

/// Returns the palette index of each pixel, whose target has the errors that it receives.
pub fn diffused_indices(alloc: Global, image: &MappedImage<'_>) -> Result<Vec<u8>, AllocError>
    requires { IsMappable image.now }
    ensures { IfOk result (λ indices. AreDiffused (mapped_value image.now) indices.items) }
{
    if image.pixels.is_empty() {
        return Ok(Vec::new(alloc));
    }
    let mut indices = vec![in alloc; 0; image.pixels.len() / 4]?;
    let mut line = vec![in alloc; image.no_error(); image.width]?;
    let mut entries = image.entries(alloc)?;
    for row in 0..image.pixels.len() / 4 / image.width {
        image.diffuse_row(&mut indices, &mut line, &mut entries, row)?;
    }
    Ok(indices)
}

/// An error of each channel, in sixteenths above the lowest one. The fourth lane has no meaning.
type PixelError = u16x4;

/// What is added to sixteenths, so that their limit is that of numbers of 16 bits.
const LOWEST: u16 = u16::MAX - 4080;

/// The entries of a palette, as a visit needs them.
#[derive(Drop)]
pub struct Entries {
    pub search: Search,
    /// All entries in lanes, if there are sixteen.
    pub sixteen: Option<SixteenEntries>,
    /// What each entry takes from the error.
    pub parts: Vec<u16x4>,
}

impl MappedImage<'_> {
    /// Returns the entries of the palette.
    fn entries(&self, alloc: Global) -> Result<Entries, AllocError>
        requires { IsMappable self.now }
        ensures { IfOk result (ArePrepared self.now) }
    {
        let mut parts = Vec::with_capacity(alloc, self.colors.len())?;
        for index in 0..self.colors.len() {
            parts.push(self.part(self.colors[index]))?;
        }
        Ok(Entries {
            search: Search::new(alloc, self.colors)?,
            sixteen: SixteenEntries::of(self.colors, self.tolerance),
            parts,
        })
    }

    /// Returns what an entry takes from the error: its sixteenths by the strength.
    fn part(&self, color: [u8; 3]) -> u16x4
        requires { self.now.strength ≤ 8 }
        ensures { IsPart self.now.strength color result }
    {
        channel_bytes(color);
        let strength = 16 * u16::from(self.strength);
        let lanes = u8x4::from_array([color[0], color[1], color[2], 0]);
        lanes.cast::<u16>() * u16x4::splat(strength)
    }

    /// Visits the pixels of a row.
    ///
    /// The line has the errors of the row above, by their columns. It gets those of this row.
    #[inline(never)]
    fn diffuse_row(
        &self,
        indices: &mut [u8],
        line: &mut [PixelError],
        entries: &mut Entries,
        row: usize,
    ) -> Result<(), AllocError>
        requires image { IsMappable self.now }
        requires row { row * self.now.width + self.now.width ≤ length self.now.pixels.now / 4 }
        requires indices { length indices.old ≡ length self.now.pixels.now / 4 }
        requires entries { AreEntries self.now.colors.now indices.old }
        requires visited { AreVisited (mapped_value self.now) indices.old (row * self.now.width) }
        requires line { IsLine (mapped_value self.now)
            (errors_of (mapped_value self.now) indices.old (row * self.now.width)) row 0 line.old }
        requires prepared { ArePrepared self.now entries.old }
        ensures indices { OnOk result (length indices.new ≡ length self.now.pixels.now / 4) }
        ensures entries { OnOk result (AreEntries self.now.colors.now indices.new) }
        ensures visited { OnOk result (AreVisited (mapped_value self.now) indices.new
            (row * self.now.width + self.now.width)) }
        ensures line { OnOk result (IsLine (mapped_value self.now)
            (errors_of (mapped_value self.now) indices.new (row * self.now.width + self.now.width))
            (row + 1) 0 line.new) }
        ensures prepared { OnOk result (ArePrepared self.now entries.new) }
    {
        // A copy stays in registers, since no store to a slice can change it.
        let image = *self;
        let mut before = image.no_error();
        let mut behind = image.no_error();
        let mut entry = None;
        for step in 0..image.width {
            let column = column_of_step(image.width, row, step);
            let place = Place {
                row,
                step,
                pixel: row * image.width + column,
            };
            let above = line[column];
            let neighbors = Neighbors {
                entry,
                before,
                behind,
                above,
                beyond: image.error_beyond(line, row, step),
            };
            image.visit(indices, entries, place, neighbors, &mut before)?;
            entry = image.entry_at(indices, place.pixel);
            line[column] = before;
            behind = above;
        }
        Ok(())
    }

    /// Returns the error above the next pixel of a row, if there is one.
    #[inline(always)]
    fn error_beyond(&self, line: &[PixelError], row: usize, step: usize) -> PixelError
        requires image { IsMappable self.now }
        requires step { step < self.now.width }
        requires line { length line.now ≡ self.now.width }
        ensures { IsBeyond (mapped_value self.now) line.now row step result }
    {
        if step + 1 == self.width {
            self.no_error()
        } else {
            line[column_of_step(self.width, row, step + 1)]
        }
    }

    /// Stores the index and the error of a place with these neighbors.
    #[inline(always)]
    fn visit(
        &self,
        indices: &mut [u8],
        entries: &mut Entries,
        place: Place,
        neighbors: Neighbors,
        error: &mut PixelError,
    ) -> Result<(), AllocError>
        requires image { IsMappable self.now }
        requires indices { length indices.old ≡ length self.now.pixels.now / 4 }
        requires entries { AreEntries self.now.colors.now indices.old }
        requires place { IsPlace (mapped_value self.now) place }
        requires entry { neighbors.entry ≡ entry_before (mapped_value self.now) indices.old
            (place.row * self.now.width + place.step) }
        requires inside { (index : ℕ) → neighbors.entry ≡ Some index
            → index < length self.now.colors.now }
        requires errors { HaveErrors neighbors }
        requires prepared { ArePrepared self.now entries.old }
        ensures indices { OnOk result (length indices.new ≡ length self.now.pixels.now / 4) }
        ensures entries { OnOk result (AreEntries self.now.colors.now indices.new) }
        ensures visit { OnOk result ((errors : List (List ℕ))
            → AreReceived (mapped_value self.now) errors
            (place.row * self.now.width + place.step) (received_of neighbors)
            → IsVisit (mapped_value self.now) errors (place.row * self.now.width + place.step)
            indices.old indices.new error.new) }
        ensures prepared { OnOk result (ArePrepared self.now entries.new) }
    {
        if !is_opaque(self.pixels, place.pixel) {
            indices[place.pixel] = 0;
            *error = self.no_error();
            return Ok(());
        }
        let (values, lanes) = self.sixteenths(place.pixel, neighbors);
        if let Some(sixteen) = &entries.sixteen {
            let above = self.entry_above(indices, place);
            let index = sixteen.index_of(lanes, neighbors.entry, above, self.tolerance);
            *error = self.store(indices, &entries.parts, place.pixel, values, index);
            return Ok(());
        }
        let target = color_of(lanes);
        let (before, above) = self.neighbors(indices, place, neighbors.entry, target);
        let kept = before.or_nearer(above);
        // In a flat area these branches are predicted, so that no distance is waited for.
        if kept.squared >= self.tolerance {
            let index = self.index_of(&mut entries.search, kept, target)?;
            *error = self.store(indices, &entries.parts, place.pixel, values, index);
        } else if above.squared < before.squared {
            *error = self.store(indices, &entries.parts, place.pixel, values, above.index);
        } else {
            *error = self.store(indices, &entries.parts, place.pixel, values, before.index);
        }
        Ok(())
    }

    /// Stores the index of an opaque pixel of these sixteenths, and returns what it passes on.
    #[inline(always)]
    fn store(
        &self,
        indices: &mut [u8],
        parts: &[u16x4],
        pixel: usize,
        values: u16x4,
        index: u8,
    ) -> PixelError
        requires strength { self.now.strength ≤ 8 }
        requires pixel { pixel < length indices.old }
        requires four { length values ≡ 4 }
        requires values { (k : ℕ) → slice_index values k ≤ 4080 }
        requires index { index < length self.now.colors.now }
        requires parts { AreParts self.now parts.now }
        ensures indices { indices.new ≡ slice_set indices.old pixel index }
        ensures entries { AreEntries self.now.colors.now indices.old
            → AreEntries self.now.colors.now indices.new }
        ensures error { channels result ≡ color_error self.now.strength values
            (slice_index_or self.now.colors.now index []) }
        ensures lanes { AreErrors result }
    {
        indices[pixel] = index;
        let whole = (values + u16x4::splat(4096)) * u16x4::splat(u16::from(self.strength));
        // The product does not wait for the entry.
        (whole - parts[usize::from(index)]) >> u16x4::splat(3)
    }

    /// Returns the channels of a pixel with what it receives, in sixteenths and rounded half up.
    ///
    /// The error before is the last one to be known. So its share is added last, to a sum that is
    /// limited as numbers of 16 bits are.
    #[inline(always)]
    fn sixteenths(&self, pixel: usize, neighbors: Neighbors) -> (u16x4, u8x4)
        requires strength { self.now.strength ≤ 8 }
        requires pixel { pixel < length self.now.pixels.now / 4 }
        requires errors { HaveErrors neighbors }
        ensures values { AreSixteenths self.now pixel (received_of neighbors) result.0 }
        ensures target { channels result.1 ≡ rounded_color result.0 }
    {
        let none = 512 * u16::from(self.strength);
        let color = color_lanes(self.pixels, pixel);
        let below_before = share(neighbors.behind, 3);
        let below = share(neighbors.above, 5);
        let whole = neighbors.beyond;
        let rest = whole - share(whole, 7) - share(whole, 3) - share(whole, 5);
        let known = color * u16x4::splat(16) + below_before + below + rest;
        let raised = known.saturating_add(u16x4::splat(LOWEST - none));
        let sum = raised.saturating_add(next_share(neighbors.before));
        (sum.saturating_sub(u16x4::splat(LOWEST)), rounded(sum))
    }

    /// Returns the error of a pixel that passes nothing on.
    #[inline(always)]
    fn no_error(&self) -> PixelError
        requires { self.now.strength ≤ 8 }
        ensures value { result ≡ no_error_lanes self.now.strength }
        ensures lanes { AreErrors result }
    {
        u16x4::splat(512 * u16::from(self.strength))
    }
}

/// What a pixel gets of its neighbors: an entry, and the errors of those that pass something on.
#[derive(Clone, Copy)]
pub struct Neighbors {
    /// The entry of the pixel before it in its row.
    pub entry: Option<u8>,
    /// The error of that pixel.
    pub before: PixelError,
    /// The one of the pixel above that.
    pub behind: PixelError,
    /// The one of the pixel above it.
    pub above: PixelError,
    /// The one of the pixel above the next one.
    pub beyond: PixelError,
}

/// Returns the bytes of a pixel: its channels, and then its alpha.
#[inline(always)]
fn color_lanes(pixels: &[u8], pixel: usize) -> u16x4
    requires { pixel < length pixels.now / 4 }
    ensures value { AreLanes result (λ k. slice_index pixels.now (4 * pixel + k)) }
    ensures small { (k : ℕ) → k < 4 → slice_index result k < 256 }
{
    u8x4::from_slice(&pixels[4 * pixel..]).cast::<u16>()
}

/// Returns `part` sixteenths of an error.
#[inline(always)]
fn share(error: u16x4, part: u16) -> u16x4
    requires error { AreErrors error }
    requires part { part ≤ 7 }
    ensures { AreLanes result (λ k. part * slice_index error k / 16) }
{
    (error * u16x4::splat(part)) >> u16x4::splat(4)
}

/// Returns seven sixteenths of an error, by a difference that takes less time than a product.
#[inline(always)]
fn next_share(error: u16x4) -> u16x4
    requires { AreErrors error }
    ensures { AreLanes result (λ k. 7 * slice_index error k / 16) }
{
    (error * u16x4::splat(8)).saturating_sub(error) >> u16x4::splat(4)
}

/// Returns the color of sums that are `LOWEST` above sixteenths, rounded half up.
#[inline(always)]
fn rounded(sum: u16x4) -> u8x4
    ensures { AreLanes result (λ k. (slice_index sum k - 61447) / 16) }
{
    (sum.saturating_sub(u16x4::splat(LOWEST - 8)) >> u16x4::splat(4)).cast::<u8>()
}

/// Returns the color of lanes.
#[inline(always)]
fn color_of(lanes: u8x4) -> [u8; 3]
    ensures { result ≡ channels lanes }
{
    let color = lanes.to_array();
    [color[0], color[1], color[2]]
}
