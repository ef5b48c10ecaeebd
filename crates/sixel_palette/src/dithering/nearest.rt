//! The nearest entries of an image's pixels: found, or looked up when they are needed.

ghost use Rattle.std.specs.Prelude.{IfOk};
ghost use Rattle.sixel_palette.specs.{Palette.AreIndices, inside.Error.HasNearest};

use crate::dithering::mapped::MappedImage;
use crate::palette::indices::indices_of;
use crate::palette::refined::Refinement;
use std::alloc::{AllocError, Global};

/// The palette index of each pixel's nearest entry.
#[derive(Drop)]
pub enum Nearest<'a> {
    /// The indices.
    Found(Vec<u8>),
    /// The refined palette in which they are looked up.
    Refined(&'a Refinement),
}

impl Nearest<'_> {
    /// Returns the indices.
    pub fn indices(self, alloc: Global, image: &MappedImage<'_>) -> Result<Vec<u8>, AllocError>
        requires { HasNearest image.now self }
        ensures { IfOk result
            (λ indices. AreIndices image.now.pixels.now image.now.colors.now indices.items) }
    {
        match self {
            Nearest::Found(indices) => Ok(indices),
            Nearest::Refined(refinement) => {
                let indices = &refinement.entries.indices;
                indices_of(alloc, image.pixels, &refinement.colors, indices)
            }
        }
    }
}
