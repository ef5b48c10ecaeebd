//! The SIXEL output of an image in a given palette.

ghost use Rattle.std.specs.Prelude.{◌≡◌, ◌*◌, ◌<◌, IfOk, length, string_bytes};
ghost use Rattle.sixel_base.specs.CallFault.{FailsBy, IsVerdict};
ghost use Rattle.sixel_encoder.specs.Encoding.{source_value};
ghost use Rattle.sixel_encoder.specs.IndexedDrawing.{IsPaletteText, IsTextOf, index_range_fault};
ghost use Rattle.sixel_encoder.specs.IndexedDrawing.{indexed_drawing, indexed_fault, palette_fault};

use crate::form::TextForm;
use crate::source::{Source, encode_drawing, validate_source};
use sixel_base::size::validate_color_count;
use sixel_base::{Result, SixelError};
use sixel_palette::dithering::dithered_indices;
use sixel_palette::dithering::mapped::MappedImage;
use sixel_palette::mapping::Mapping;
use sixel_palette::palette::colors::is_opaque;
use std::alloc::Global;

/// Returns the SIXEL output of an image in a palette of 1 to 256 colors.
///
/// # Errors
///
/// Those of [`sixel_encode`](crate::sixel_encode), then
/// `InvalidData("number of colors is not 1 to 256")`.
pub fn encode_in_palette(
    alloc: Global,
    source: &Source<'_>,
    colors: &[[u8; 3]],
    mapping: Mapping,
    form: TextForm,
) -> Result<String>
    ensures fault { FailsBy (palette_fault (source_value source.now) (length colors.now)) result }
    ensures text { IfOk result (λ text.
        IsPaletteText (source_value source.now) colors.now mapping form (string_bytes text)) }
{
    validate_source(source)?;
    validate_color_count(colors.len())?;
    let image = MappedImage::plain(source.pixels, source.width, colors);
    let indices = dithered_indices(alloc, &image, mapping)?;
    encode_drawing(alloc, source, colors, &indices, form)
}

/// Returns the SIXEL output of an image by given palette indices.
///
/// # Errors
///
/// Those of [`encode_in_palette`]. Then `BufferSizeMismatch` for another number of indices than
/// there are pixels, and `InvalidData("palette index out of range")` for an opaque pixel whose
/// index is past the palette.
pub fn encode_with_indices(
    alloc: Global,
    source: &Source<'_>,
    colors: &[[u8; 3]],
    indices: &[u8],
    form: TextForm,
) -> Result<String>
    ensures fault { FailsBy
        (indexed_fault (source_value source.now) (length colors.now) indices.now) result }
    ensures text { IfOk result (λ text. IsTextOf form
        (indexed_drawing (source_value source.now) colors.now indices.now)
        (string_bytes text)) }
{
    validate_source(source)?;
    validate_color_count(colors.len())?;
    let expected = source.width * source.height;
    let actual = indices.len();
    if actual != expected {
        return Err(SixelError::BufferSizeMismatch { expected, actual });
    }
    validate_indices(source.pixels, indices, colors.len())?;
    encode_drawing(alloc, source, colors, indices, form)
}

/// Returns an error unless the index of each opaque pixel is below `colors`.
fn validate_indices(pixels: &[u8], indices: &[u8], colors: usize) -> Result<()>
    requires { length pixels.now ≡ 4 * length indices.now }
    ensures { IsVerdict (index_range_fault pixels.now indices.now colors) result }
{
    for pixel in 0..indices.len() {
        if is_opaque(pixels, pixel) && usize::from(indices[pixel]) >= colors {
            return Err(SixelError::index_range());
        }
    }
    Ok(())
}
