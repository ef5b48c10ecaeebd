//! Ordered dithering by the pattern of Ø. Kolås, "a dither" (2013).

ghost use Rattle.std.specs.Prelude.{◌≡◌, ◌*◌, ◌/◌, ◌<◌, ◌≤◌, IfOk, length};
ghost use Rattle.sixel_palette.specs.{Dithering.{HaveChoice, moved_image}, Pattern.amplitude_at};
ghost use Rattle.sixel_palette.specs.Pattern.{moved_channel, moved_pixels, shift_of, threshold};
ghost use Rattle.sixel_palette.specs.inside.Mapped.{IsMappable, mapped_value, pattern_value};
ghost use Rattle.sixel_palette.specs.Palette.{AreIndices};

use crate::dithering::gray::are_gray;
use crate::dithering::mapped::MappedImage;
use crate::dithering::undithered::chosen_indices;
use crate::palette::colors::is_opaque;
use crate::palette::distance::distance;
use crate::palette::nearest_indices::nearest_indices;
use std::alloc::{AllocError, Global};

/// Which colors the pattern moves, and how far.
#[derive(Clone, Copy)]
pub struct Pattern {
    /// How many levels apart it moves a channel at most.
    pub amplitude: u8,
    /// The squared distance to its nearest entry below which a color stays.
    pub limit: u32,
}

/// Returns the chosen index of each pixel, whose color is moved by the pattern.
///
/// The indices of nearest entries are not read if the limit is 0.
pub fn ordered_indices(
    alloc: Global,
    image: &MappedImage<'_>,
    nearest: &[u8],
    pattern: Pattern,
) -> Result<Vec<u8>, AllocError>
    requires image { IsMappable image.now }
    requires nearest { 0 < pattern.limit
        → AreIndices image.now.pixels.now image.now.colors.now nearest.now }
    ensures { IfOk result (λ indices. HaveChoice
        (moved_image (mapped_value image.now) (pattern_value image.now.colors.now pattern))
        indices.items) }
{
    let moved = moved_pixels(alloc, image, nearest, pattern)?;
    let image = MappedImage {
        pixels: &moved,
        ..*image
    };
    let nearest = nearest_indices(alloc, image.pixels, image.colors)?;
    chosen_indices(alloc, &image, nearest)
}

/// Returns by how many columns the pattern of each channel is shifted: grays stay gray.
fn shift_of(colors: &[[u8; 3]]) -> u32
    ensures value { result ≡ shift_of colors.now }
    ensures small { result ≤ 112 }
{
    if are_gray(colors) { 0 } else { 112 }
}

/// Returns the pixels of an image, whose colors are moved by the pattern.
fn moved_pixels(
    alloc: Global,
    image: &MappedImage<'_>,
    nearest: &[u8],
    pattern: Pattern,
) -> Result<Vec<u8>, AllocError>
    requires image { IsMappable image.now }
    requires nearest { 0 < pattern.limit
        → AreIndices image.now.pixels.now image.now.colors.now nearest.now }
    ensures { IfOk result (λ moved. moved.items ≡ moved_pixels
        (pattern_value image.now.colors.now pattern) image.now.width image.now.pixels.now) }
{
    let mut moved = vec![in alloc; 0; 4 * (image.pixels.len() / 4)]?;
    fill(image, nearest, pattern, &mut moved);
    Ok(moved)
}

/// Writes the pixels of an image, whose colors are moved by the pattern.
#[tactic(auto, unfolding(sixel_base::specs::Picture::joined))]
fn fill(image: &MappedImage<'_>, nearest: &[u8], pattern: Pattern, moved: &mut [u8])
    requires image { IsMappable image.now }
    requires nearest { 0 < pattern.limit
        → AreIndices image.now.pixels.now image.now.colors.now nearest.now }
    requires size { length moved.old ≡ 4 * (length image.now.pixels.now / 4) }
    ensures { moved.new ≡ moved_pixels (pattern_value image.now.colors.now pattern)
        image.now.width image.now.pixels.now }
{
    let shift = shift_of(image.colors);
    for pixel in 0..image.pixels.len() / 4 {
        let column = pixel % image.width;
        let row = pixel / image.width;
        let at = 4 * pixel;
        let amplitude = pattern.amplitude_at(image, nearest, pixel);
        let [red, green, blue] = image.color(pixel);
        let red = moved_channel(amplitude, threshold(column, row, 0), red);
        let green = moved_channel(amplitude, threshold(column, row, shift), green);
        let blue = moved_channel(amplitude, threshold(column, row, 2 * shift), blue);
        moved[at..at + 4].copy_from_slice(&[red, green, blue, image.pixels[at + 3]]);
    }
}

impl Pattern {
    /// Returns the amplitude at a pixel, 0 if its color stays.
    #[inline(always)]
    fn amplitude_at(self, image: &MappedImage<'_>, nearest: &[u8], pixel: usize) -> u8
        requires nearest { 0 < self.limit
            → AreIndices image.now.pixels.now image.now.colors.now nearest.now }
        requires pixel { pixel < length image.now.pixels.now / 4 }
        ensures { result ≡ amplitude_at (pattern_value image.now.colors.now self)
            image.now.pixels.now pixel }
    {
        if self.limit == 0 {
            return self.amplitude;
        }
        if !is_opaque(image.pixels, pixel) {
            return 0;
        }
        let entry = image.colors[usize::from(nearest[pixel])];
        if distance(entry, image.color(pixel)) < self.limit {
            0
        } else {
            self.amplitude
        }
    }
}

/// Returns the number for a place, in the pattern shifted by some columns.
#[inline(always)]
fn threshold(column: usize, row: usize, shift: u32) -> u32
    requires { shift ≤ 224 }
    ensures value { result ≡ threshold column row shift }
    ensures small { result < 256 }
{
    let column = (column % 256) as u32;
    let row = (row % 256) as u32;
    (column + 237 * row + shift) * 119 % 256
}

/// Returns a channel moved by the threshold's part of the amplitude.
#[inline(always)]
fn moved_channel(amplitude: u8, threshold: u32, value: u8) -> u8
    requires { threshold < 256 }
    ensures { result ≡ moved_channel amplitude threshold value }
{
    let amplitude = u32::from(amplitude);
    let offset = 2 * threshold * amplitude + 256 + (65536 - 255 * amplitude);
    (u32::from(value) + offset / 512)
        .saturating_sub(128)
        .min(255) as u8
}
