//! An image whose pixels are borrowed, and its SIXEL output.

ghost use Rattle.std.specs.Prelude.{◌≡◌, ℕ, ◌+◌, ◌*◌, ◌<◌, ◌≤◌, All, IfErr, IfOk, MatchOption};
ghost use Rattle.std.specs.Prelude.{None, OnOk, length, slice_index, string_bytes};
ghost use Rattle.sixel_base.specs.Size.{verdict};
ghost use Rattle.sixel_encoder.specs.{Encoding.{image_fault, source_value}, Form.IsFormText};
ghost use Rattle.sixel_encoder.specs.IndexedDrawing.{IsTextOf, indexed_drawing};

use crate::compact::encode_compact;
use crate::form::TextForm;
use crate::text::{IndexedImage, encode_indexed};
use sixel_base::settings::{BackgroundMode, PixelAspectRatio};
use sixel_base::size::{validate_buffer, validate_encode_dimensions};
use sixel_base::{Result, SixelError};
use sixel_palette::palette::choose_palette;
use sixel_palette::palette::nearest_indices::color_bytes;
use std::alloc::Global;

/// An image to encode: `4 * width * height` bytes of pixels.
///
/// Their order is that of [`sixel_encode`](crate::sixel_encode).
#[derive(Clone, Copy)]
pub struct Source<'a> {
    pub pixels: &'a [u8],
    pub width: usize,
    pub height: usize,
    pub aspect_ratio: PixelAspectRatio,
    pub background_mode: BackgroundMode,
}

/// Returns the SIXEL output of an image, in at most `max_colors` colors.
///
/// Both forms have the same palette.
///
/// # Errors
///
/// Those of [`sixel_encode`](crate::sixel_encode).
pub fn encode_source(
    alloc: Global,
    source: &Source<'_>,
    max_colors: u16,
    form: TextForm,
) -> Result<String>
    ensures refused { MatchOption (image_fault (source_value source.now))
        (IfErr result (λ e. e ≡ SixelError.OutOfMemory))
        (λ fault. result ≡ Err fault) }
    ensures text { IfOk result
        (λ text. IsFormText form (source_value source.now) max_colors (string_bytes text)) }
    ensures bytes { OnOk result (All (λ byte. byte < 256) source.now.pixels.now) }
{
    validate_source(source)?;
    let choice = choose_palette(alloc, source.pixels, max_colors)?;
    encode_drawing(alloc, source, &choice.colors, &choice.indices, form)
}

/// Returns an error unless an image has valid sizes and the bytes for them.
pub fn validate_source(source: &Source<'_>) -> Result<()>
    ensures { result ≡ verdict (image_fault (source_value source.now)) }
{
    validate_encode_dimensions(source.width, source.height)?;
    validate_buffer(source.width, source.height, source.pixels.len())
}

/// Returns the SIXEL output of the drawing of an image by valid indices.
pub fn encode_drawing(
    alloc: Global,
    source: &Source<'_>,
    colors: &[[u8; 3]],
    indices: &[u8],
    form: TextForm,
) -> Result<String>
    requires sound { image_fault (source_value source.now) ≡ None }
    requires few { length colors.now ≤ 256 }
    requires count { length indices.now ≡ source.now.width * source.now.height }
    requires opaque { (pixel : ℕ) → pixel < length indices.now
        → 128 ≤ slice_index source.now.pixels.now (4 * pixel + 3)
        → slice_index indices.now pixel < length colors.now }
    ensures memory { IfErr result (λ e. e ≡ SixelError.OutOfMemory) }
    ensures text { IfOk result (λ text. IsTextOf form
        (indexed_drawing (source_value source.now) colors.now indices.now)
        (string_bytes text)) }
{
    color_bytes(colors);
    let image = IndexedImage {
        width: source.width,
        height: source.height,
        aspect_ratio: source.aspect_ratio,
        background_mode: source.background_mode,
        colors,
        pixels: source.pixels,
        indices,
    };
    let text = match form {
        TextForm::Plain => encode_indexed(alloc, &image)?,
        TextForm::Compact => encode_compact(alloc, &image)?,
    };
    Ok(text)
}
