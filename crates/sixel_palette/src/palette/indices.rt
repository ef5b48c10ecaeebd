//! The palette index of each pixel: that of its color's nearest entry.

ghost use Rattle.std.specs.Prelude.{◌≡◌, ℕ, ◌/◌, ◌%◌, ◌<◌, ◌≤◌, List, length, Contains, IfOk};
ghost use Rattle.sixel_palette.specs.Palette.{nearest, IsShown, AreIndices, no_entry};
ghost use Rattle.sixel_palette.specs.inside.Nearest.{AreNearest, IsIndexOf};
ghost use Rattle.sixel_palette.specs.inside.Ranks.{IsColorSet, IsColorSetOf};

use crate::palette::color_set::ColorSet;
use crate::palette::colors::{are_four_of, four_words, pixel_word};
use std::alloc::{AllocError, Global};

/// The palette index of each pixel, from those of the image's colors.
///
/// Four pixels that are equal to the one before them get its index without a search.
#[inline(never)]
pub fn indices_of(
    alloc: Global,
    pixels: &[u8],
    colors: &ColorSet,
    color_indices: &[u8],
) -> Result<Vec<u8>, AllocError>
    requires same { length colors.now.codes.items ≡ length color_indices.now }
    requires colors { IsColorSetOf pixels.now colors.now }
    ensures { IfOk result (λ indices. (entries : List (List ℕ)) (squares : List ℕ)
        → AreNearest entries colors.now.codes.items squares color_indices.now
        → ((c : List ℕ) → IsShown pixels.now c → nearest entries c < no_entry)
        → AreIndices pixels.now entries indices.items) }
{
    let count = pixels.len() / 4;
    let mut indices = vec![in alloc; 0; count]?;
    let mut last = 0;
    let mut index = 0;
    for four in 0..count / 4 {
        if are_four_of(pixels, 4 * four, last) {
            indices[4 * four..4 * four + 4].fill(index);
        } else {
            let words = four_words(pixels, 4 * four);
            for lane in 0..4 {
                index = index_of(colors, color_indices, words[lane]);
                indices[4 * four + lane] = index;
            }
            last = words[3];
        }
    }
    for pixel in count / 4 * 4..count {
        indices[pixel] = index_of(colors, color_indices, pixel_word(pixels, pixel));
    }
    Ok(indices)
}

/// The palette index for a pixel of this word, 0 if it is transparent.
#[inline(always)]
fn index_of(colors: &ColorSet, color_indices: &[u8], word: u32) -> u8
    requires colors { IsColorSet colors.now }
    requires same { length colors.now.codes.items ≡ length color_indices.now }
    requires listed { 128 ≤ word % 256 → Contains colors.now.codes.items (word / 256) }
    ensures { IsIndexOf colors.now.codes.items color_indices.now word result }
{
    if word % 256 < 128 {
        return 0;
    }
    color_indices[colors.position_of(word / 256)]
}
