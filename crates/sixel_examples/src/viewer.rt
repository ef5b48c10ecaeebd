//! A viewer of files.

use icy_sixel::{Result, SixelImage};
use std::alloc::Global;

/// What a viewer shows.
#[derive(Drop)]
pub struct View {
    pub image: SixelImage,
    /// How often each row is drawn, so that the pixels have their shape.
    pub row_repeat: u16,
    /// Whether the viewer draws something behind the image.
    pub has_transparency: bool,
}

/// Reads the image of a file, which may have other bytes around it.
pub fn open(alloc: Global, bytes: &[u8]) -> Result<View> {
    let image = SixelImage::decode(alloc, bytes)?;
    let row_repeat = image.aspect_ratio.pad();
    let has_transparency = image.has_transparency();
    Ok(View {
        image,
        row_repeat,
        has_transparency,
    })
}
