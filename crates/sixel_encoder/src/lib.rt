//! The SIXEL output of an image.
//!
//! By default an image gets a palette of its own, chosen farthest first, without dithering. Each
//! band of six rows is written once for each palette entry that it uses. Every row takes the fewest
//! bytes that it can be written in. Other calls encode in a refined or a given palette, dither, or
//! write the compact form. `icy_sixel` re-exports the public names.
#![tactic(auto, using(std::proofs::lemmas::Bool::Decides::nat_tests))]

ghost use Rattle.std.specs.Prelude.{◌≡◌, ℕ, ◌<◌, All, IfErr, IfOk, MatchOption, string_bytes};
ghost use Rattle.sixel_base.specs.Payload.{Image};
ghost use Rattle.sixel_encoder.specs.Encoding.{image_fault, IsDrawing, IsText, shown_image};
ghost use Rattle.sixel_encoder.specs.{Encoding.square_value, Text.Drawing};

mod band;
mod band_entries;
mod bound;
mod compact;
mod decimal;
mod entries;
mod form;
mod given_palette;
pub mod laws;
mod pen;
mod pixels;
mod refined;
mod register_order;
mod run_tokens;
mod runs;
mod segment_rows;
mod segments;
mod source;
mod text;

pub use form::TextForm;
pub use given_palette::{encode_in_palette, encode_with_indices};
pub use refined::{Background, encode_on_background, encode_refined};
use sixel_base::settings::{BackgroundMode, PixelAspectRatio};
use sixel_base::{Result, SixelError};
use sixel_palette::palette::one_palette;
pub use source::{Source, encode_source};
use std::alloc::Global;

/// How an image is encoded.
#[derive(Debug, Clone, Copy, PartialEq, Eq)]
pub struct EncodeOptions {
    /// The most entries that the palette may have, clamped to 2 to 256.
    pub max_colors: u16,
}

impl Default for EncodeOptions {
    ghost is_default = { λ options. options.max_colors ≡ 256 };

    /// Returns the options for a palette of up to 256 entries.
    fn default() -> Self {
        Self { max_colors: 256 }
    }
}

/// Returns the SIXEL output of square pixels on a transparent background.
///
/// A pixel takes four bytes (red, green, blue, alpha), row by row from the top:
/// `4 * width * height` bytes in all. A pixel whose alpha is below 128 is transparent.
///
/// ```text
/// let text = sixel_encode(alloc, &pixels, width, height, &EncodeOptions::default())?;
/// ```
///
/// # Errors
///
/// The first of these that applies:
///
/// - `InvalidDimensions`: a size is zero
/// - `IntegerOverflow`: the bytes exceed `usize::MAX`
/// - `InvalidDimensions`: a size exceeds the limits
/// - `BufferSizeMismatch`: the pixels are another number of bytes
///
/// Otherwise only `OutOfMemory`.
pub fn sixel_encode(
    alloc: Global,
    pixels: &[u8],
    width: usize,
    height: usize,
    options: &EncodeOptions,
) -> Result<String>
    ensures refused { MatchOption (image_fault (square_value pixels.now width height))
        (IfErr result (λ e. e ≡ SixelError.OutOfMemory)) (λ fault. result ≡ Err fault) }
    ensures text { IfOk result (λ text.
        IsText (square_value pixels.now width height) options.now.max_colors (string_bytes text)) }
{
    let source = Source {
        pixels,
        width,
        height,
        aspect_ratio: PixelAspectRatio::Square,
        background_mode: BackgroundMode::Transparent,
    };
    encode_source(alloc, &source, options.max_colors, TextForm::Plain)
}

/// Returns what [`sixel_encode`] returns with the default options.
pub fn sixel_encode_default(
    alloc: Global,
    pixels: &[u8],
    width: usize,
    height: usize,
) -> Result<String>
    ensures refused { MatchOption (image_fault (square_value pixels.now width height))
        (IfErr result (λ e. e ≡ SixelError.OutOfMemory)) (λ fault. result ≡ Err fault) }
    ensures text { IfOk result
        (λ text. IsText (square_value pixels.now width height) 256 (string_bytes text)) }
{
    sixel_encode(alloc, pixels, width, height, &EncodeOptions::default())
}

/// States that images that look the same have the same output. It does nothing.
pub fn one_drawing()
    ensures { (image other : Image) (max_colors : ℕ) (drawing another : Drawing)
        → All (λ b. b < 256) image.pixels
        → shown_image image ≡ shown_image other → IsDrawing image max_colors drawing
        → IsDrawing other max_colors another → drawing ≡ another }
{
    one_palette();
}
