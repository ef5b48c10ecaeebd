//! The palette index of each pixel in a given palette.

ghost use Rattle.std.specs.Prelude.{ℕ, ◌<◌, ◌≤◌, length, All, IfOk, slice_index};
ghost use Rattle.sixel_palette.specs.Palette.{AreIndices};

use crate::palette::assignment::nearest_among;
use crate::palette::color_set::ColorSet;
use crate::palette::indices::indices_of;
use std::alloc::{AllocError, Global};

/// Returns the palette index of each pixel: its nearest entry, the first of equals.
///
/// The index of a transparent pixel is 0.
pub fn nearest_indices(
    alloc: Global,
    pixels: &[u8],
    colors: &[[u8; 3]],
) -> Result<Vec<u8>, AllocError>
    requires some { 0 < length colors.now }
    requires few { length colors.now ≤ 256 }
    ensures { IfOk result (λ indices. AreIndices pixels.now colors.now indices.items) }
{
    let shown = ColorSet::of(alloc, pixels)?;
    let traversal = nearest_among(alloc, &shown.codes, colors)?;
    color_bytes(colors);
    Ok(indices_of(alloc, pixels, &shown, &traversal.indices)?)
}

/// States that the channels of colors are bytes. It does nothing.
pub fn color_bytes(colors: &[[u8; 3]])
    ensures { All (All (λ byte. byte < 256)) colors.now }
{
    for index in 0..colors.len() {
        channel_bytes(colors[index]);
    }
}

/// States that the channels of a color are bytes. It does nothing.
pub fn channel_bytes(color: [u8; 3])
    ensures { (k : ℕ) → k < 3 → slice_index color k < 256 }
{
    byte(color[0]);
    byte(color[1]);
    byte(color[2]);
}

/// States that a channel is a byte. It does nothing.
fn byte(channel: u8)
    ensures { channel < 256 }
{}
