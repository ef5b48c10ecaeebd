//! The grays of a picture, which are mapped to a palette of grays.

ghost use Rattle.std.specs.Prelude.{◌≡◌, ◌*◌, ◌/◌, IfOk, length};
ghost use Rattle.sixel_palette.specs.Gray.{are_gray, brightness, gray_pixels, is_gray, maps_grays};

use crate::dither::Dither;
use crate::mapping::{Mapping, Tolerance};
use std::alloc::{AllocError, Global};

/// Returns whether the grays of an image are mapped in place of its colors.
pub fn maps_grays(mapping: Mapping, colors: &[[u8; 3]]) -> bool
    ensures { result ≡ maps_grays mapping.dither mapping.tolerance colors.now }
{
    match (mapping.dither, mapping.tolerance) {
        (Dither::Off, Tolerance::Squared(_)) => false,
        _ => are_gray(colors),
    }
}

/// Returns the pixels of an image in gray.
pub fn gray_pixels(alloc: Global, pixels: &[u8]) -> Result<Vec<u8>, AllocError>
    ensures { IfOk result (λ grays. grays.items ≡ gray_pixels pixels.now) }
{
    let mut grays = vec![in alloc; 0; 4 * (pixels.len() / 4)]?;
    fill(pixels, &mut grays);
    Ok(grays)
}

/// Writes the pixels of an image in gray.
#[tactic(auto, unfolding(sixel_base::specs::Picture::joined))]
fn fill(pixels: &[u8], grays: &mut [u8])
    requires { length grays.old ≡ 4 * (length pixels.now / 4) }
    ensures { grays.new ≡ gray_pixels pixels.now }
{
    for pixel in 0..pixels.len() / 4 {
        let at = 4 * pixel;
        let gray = brightness([pixels[at], pixels[at + 1], pixels[at + 2]]);
        grays[at..at + 4].copy_from_slice(&[gray, gray, gray, pixels[at + 3]]);
    }
}

/// Returns the brightness of a color.
fn brightness(color: [u8; 3]) -> u8
    ensures { result ≡ brightness color }
{
    let red = u32::from(color[0]);
    let green = u32::from(color[1]);
    let blue = u32::from(color[2]);
    ((77 * red + 150 * green + 29 * blue) / 256) as u8
}

/// Returns whether each color is gray.
pub fn are_gray(colors: &[[u8; 3]]) -> bool
    ensures { result ≡ are_gray colors.now (length colors.now) }
{
    let mut gray = true;
    for position in 0..colors.len() {
        gray = gray && is_gray(colors[position]);
    }
    gray
}

/// Returns whether the channels of a color are equal.
fn is_gray(color: [u8; 3]) -> bool
    ensures { result ≡ is_gray color }
{
    color[0] == color[1] && color[1] == color[2]
}
