//! Images in a palette of the caller, and in a refined palette.

use icy_sixel::encoder::{Dither, Mapping, TextForm, Tolerance, palette_indices};
use icy_sixel::{Result, SixelImage};
use std::alloc::Global;

/// Returns the compact output of an image in a fixed palette, by error diffusion.
pub fn encode_diffused(alloc: Global, image: &SixelImage, colors: &[[u8; 3]]) -> Result<String> {
    let mapping = Mapping {
        dither: Dither::Diffusion { strength: 8 },
        tolerance: Tolerance::Squared(0),
    };
    image.encode_with_palette(alloc, colors, mapping, TextForm::Compact)
}

/// Returns the output of an image by palette indices of another quantizer.
pub fn encode_by_indices(alloc: Global, image: &SixelImage, colors: &[[u8; 3]]) -> Result<String> {
    let mapping = Mapping {
        dither: Dither::Off,
        tolerance: Tolerance::Squared(0),
    };
    let indices = palette_indices(alloc, &image.pixels, image.width, colors, mapping)?;
    image.encode_indexed(alloc, colors, &indices, TextForm::Plain)
}

/// Returns the compact output of a photograph in few colors, by error diffusion.
pub fn encode_photograph(alloc: Global, image: &SixelImage) -> Result<String> {
    let mapping = Mapping {
        dither: Dither::Diffusion { strength: 7 },
        tolerance: Tolerance::Auto,
    };
    image.encode_refined(alloc, 16, mapping, TextForm::Compact)
}
