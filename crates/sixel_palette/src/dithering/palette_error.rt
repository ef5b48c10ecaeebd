//! The summed squared error of a palette, and the tolerance and the pattern that follow from it.

ghost use Rattle.std.specs.Prelude.{◌≡◌, ◌*◌, ◌/◌, ◌≤◌, max};
ghost use Rattle.sixel_palette.specs.Dithering.{pattern_of, root, tolerance_of};
ghost use Rattle.sixel_palette.specs.Palette.{AreIndices, no_entry};
ghost use Rattle.sixel_palette.specs.Refined.{opaque_pixels, summed_error};
ghost use Rattle.sixel_palette.specs.inside.Error.{HasNearest, IsErrorOf};
ghost use Rattle.sixel_palette.specs.inside.Mapped.{pattern_value};

use crate::dither::{Amplitude, Dither};
use crate::dithering::mapped::MappedImage;
use crate::dithering::nearest::Nearest;
use crate::dithering::ordered::Pattern;
use crate::mapping::{Mapping, Tolerance};
use crate::palette::colors::is_opaque;
use crate::palette::distance::distance;

/// The summed squared error of a palette, and the number of opaque pixels.
#[derive(Clone, Copy)]
struct PaletteError {
    sum: u128,
    pixels: u64,
}

/// Returns the tolerance for the palette of an image.
pub fn tolerance_of(image: &MappedImage<'_>, nearest: &Nearest<'_>, mapping: Mapping) -> u32
    requires { HasNearest image.now nearest.now }
    ensures { result ≡ tolerance_of mapping.dither mapping.tolerance image.now.colors.now
        image.now.pixels.now }
{
    match mapping.tolerance {
        Tolerance::Squared(squared) => squared,
        Tolerance::Auto => {
            let error = palette_error(image, nearest);
            if error.sum == 0 {
                return 0;
            }
            let mean = error.mean().max(12);
            match mapping.dither {
                Dither::Off => 3 * mean,
                Dither::Ordered { .. } => 2 * mean,
                Dither::Diffusion { .. } => mean,
            }
        }
    }
}

/// Returns the pattern for the palette of an image.
pub fn pattern_of(image: &MappedImage<'_>, nearest: &Nearest<'_>, amplitude: Amplitude) -> Pattern
    requires { HasNearest image.now nearest.now }
    ensures { pattern_value image.now.colors.now result
        ≡ pattern_of amplitude image.now.colors.now image.now.pixels.now }
{
    match amplitude {
        Amplitude::Levels(amplitude) => Pattern {
            amplitude,
            limit: 0,
        },
        Amplitude::Auto => {
            let mean = palette_error(image, nearest).mean();
            Pattern {
                amplitude: root(4 * mean),
                limit: (mean / 4).min(12) + 1,
            }
        }
        Amplitude::Refined => {
            let mean = palette_error(image, nearest).mean();
            Pattern {
                amplitude: root(mean),
                limit: mean / 4 + 1,
            }
        }
    }
}

/// Returns the error of the palette, which is known of a refined one.
fn palette_error(image: &MappedImage<'_>, nearest: &Nearest<'_>) -> PaletteError
    requires { HasNearest image.now nearest.now }
    ensures { IsErrorOf image.now.colors.now image.now.pixels.now result }
{
    match nearest {
        Nearest::Found(indices) => index_error(image, indices),
        Nearest::Refined(refinement) => PaletteError {
            sum: u128::from(refinement.entries.error),
            pixels: refinement.entries.opaque,
        },
    }
}

/// Returns the error of a palette by the indices of nearest entries.
fn index_error(image: &MappedImage<'_>, nearest: &[u8]) -> PaletteError
    requires { AreIndices image.now.pixels.now image.now.colors.now nearest.now }
    ensures sum { result.sum ≡ summed_error image.now.colors.now image.now.pixels.now }
    ensures count { result.pixels ≡ opaque_pixels image.now.pixels.now (λ _. 1) }
{
    let mut error = PaletteError { sum: 0, pixels: 0 };
    for pixel in 0..nearest.len() {
        if is_opaque(image.pixels, pixel) {
            let entry = image.colors[usize::from(nearest[pixel])];
            error.sum += u128::from(distance(entry, image.color(pixel)));
            error.pixels += 1;
        }
    }
    error
}

impl PaletteError {
    /// Returns the mean squared error of an opaque pixel, rounded down.
    ///
    /// It bisects, because a division of 128 bits would call a function that C libraries lack.
    fn mean(&self) -> u32
        requires small { self.now.sum ≤ no_entry * self.now.pixels }
        ensures { result ≡ self.now.sum / max 1 self.now.pixels }
    {
        let pixels = u128::from(self.pixels.max(1));
        let mut mean = 0;
        let mut above: u32 = 0x40000;
        'halves: while above - mean > 1 {
            let middle = mean + (above - mean) / 2;
            if u128::from(middle) * pixels <= self.sum {
                mean = middle;
            } else {
                above = middle;
            }
        }
        mean
    }
}

/// Returns the square root of a number, rounded down, but at most 255.
fn root(number: u32) -> u8
    ensures { result ≡ root number 255 }
{
    for less in 0..255 {
        let root: u32 = 255 - less;
        if root * root <= number {
            return root as u8;
        }
    }
    0
}
