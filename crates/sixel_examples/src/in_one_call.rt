//! Whole images.

use icy_sixel::{
    DcsSettings, EncodeOptions, PaletteChoice, Result, SixelDecoder, SixelImage, choose_palette,
    witnesses_hold,
};
use std::alloc::Global;

/// Decodes the first DCS sequence in the bytes, or all of them as a payload.
pub fn decode(alloc: Global, decoder: &mut SixelDecoder, bytes: &[u8]) -> Result<SixelImage> {
    decoder.decode(alloc, bytes)
}

/// A payload, as a terminal's own parser has it once it has read the header.
pub fn decode_payload(
    alloc: Global,
    decoder: &mut SixelDecoder,
    payload: &[u8],
) -> Result<SixelImage> {
    let settings = DcsSettings::new(Some(9), Some(1), None);
    decoder.decode_from_dcs(alloc, payload, settings)
}

/// Returns the SIXEL output of an image in at most 16 colors.
pub fn encode(alloc: Global, pixels: Vec<u8>, width: usize, height: usize) -> Result<String> {
    let image = SixelImage::try_from_rgba(pixels, width, height)?;
    image.encode_with(alloc, &EncodeOptions { max_colors: 16 })
}

/// A palette of at most 16 colors, whose certificate was looked at.
pub fn palette(alloc: Global, pixels: &[u8]) -> Result<(PaletteChoice, bool)> {
    let choice = choose_palette(alloc, pixels, 16)?;
    let is_certified = witnesses_hold(&choice.witnesses, choice.error);
    Ok((choice, is_certified))
}
