//! An image: its pixels, sizes, pixel shape and background.

ghost use Rattle.std.specs.{Option.option_or, Prelude.{◌≡◌, ℕ, ◌+◌, ◌*◌, ◌<◌, ◌≤◌, ◌↔◌, length}};
ghost use Rattle.std.specs.Prelude.{slice_index, IsTrue, MatchOption, MatchResult, vec_capacity};
ghost use Rattle.sixel_base.specs.{Settings.pad_of, Size.{size_fault, buffer_fault}};
ghost use Rattle.sixel_decoder.specs.Memory.{most_capacity};

mod encoding;

use crate::decoder::{DcsSettings, SixelDecoder};
pub use sixel_base::settings::{BackgroundMode, PixelAspectRatio};
use sixel_base::size::{pixel_bytes, validate_buffer};
use sixel_base::{Result, SixelError};
use sixel_decoder::DecodedPayload;
use std::alloc::Global;

/// An image of four bytes per pixel: red, green, blue, alpha.
///
/// The rows are stored from the top, and each row from the left.
#[derive(Debug, Drop)]
pub struct SixelImage {
    /// The pixels, `4 * width * height` bytes.
    pub pixels: Vec<u8>,
    /// Pixels in a row.
    pub width: usize,
    /// Rows.
    pub height: usize,
    /// The shape of a pixel.
    pub aspect_ratio: PixelAspectRatio,
    /// Whether pixels that were not drawn are opaque or transparent.
    pub background_mode: BackgroundMode,
}

impl SixelImage {
    ghost use Rattle.sixel_base.specs.Decoder.{new_decoder};
    ghost use Rattle.sixel_base.specs.OneShot.{found, Payload};
    ghost use Rattle.icy_sixel.specs.ImageView.{image_value};
    ghost use Rattle.sixel_decoder.specs.OneShotCalls.{IsDecoded};
    ghost use Rattle.sixel_decoder.specs.PictureView.{picture_value};

    /// Decodes the first DCS sequence in the bytes, or all of them as a payload.
    ///
    /// It does what [`SixelDecoder::decode`] of a new decoder does.
    ///
    /// ```rust
    /// let image = SixelImage::decode(alloc, bytes)?;
    /// let row_repeat = image.aspect_ratio.pad();
    /// let has_transparency = image.has_transparency();
    /// ```
    pub fn decode(alloc: Global, bytes: &[u8]) -> Result<Self>
        ensures { IsDecoded image_value new_decoder (found bytes.now) result }
    {
        SixelDecoder::new().decode(alloc, bytes)
    }

    /// Decodes one payload, as [`SixelDecoder::decode_from_dcs`] of a new decoder does.
    pub fn decode_from_dcs(alloc: Global, bytes: &[u8], settings: DcsSettings) -> Result<Self>
        ensures { IsDecoded image_value new_decoder (Payload settings bytes.now) result }
    {
        SixelDecoder::new().decode_from_dcs(alloc, bytes, settings)
    }

    /// Decodes the bytes of a text, as [`decode`](Self::decode) does.
    pub fn from_str(alloc: Global, text: &str) -> Result<Self>
        ensures { IsDecoded image_value new_decoder (found text.now) result }
    {
        Self::decode(alloc, text.as_bytes())
    }

    /// Creates the image of a decoded payload.
    pub(crate) fn from_picture(picture: DecodedPayload) -> Self
        requires { length picture.pixels.items ≡ 4 * (picture.width * picture.height) }
        ensures image { image_value result ≡ picture_value picture }
        ensures pixels { length result.pixels.items ≡ 4 * (result.width * result.height) }
        ensures memory { vec_capacity result.pixels ≤ most_capacity (length result.pixels.items) }
    {
        Self {
            pixels: picture.pixels,
            width: picture.width,
            height: picture.height,
            aspect_ratio: picture.aspect_ratio,
            background_mode: picture.background_mode,
        }
    }

    /// Creates an image with square pixels and a transparent background.
    ///
    /// Nothing is checked.
    pub fn from_rgba(pixels: Vec<u8>, width: usize, height: usize) -> Self
        ensures { result ≡ record {
          pixels = pixels;
          width = width;
          height = height;
          aspect_ratio = PixelAspectRatio.Square;
          background_mode = BackgroundMode.Transparent;
        } }
    {
        Self {
            pixels,
            width,
            height,
            aspect_ratio: PixelAspectRatio::Square,
            background_mode: BackgroundMode::Transparent,
        }
    }

    /// Creates an image as [`from_rgba`](Self::from_rgba), if the sizes are valid.
    ///
    /// An error drops the pixels. A zero size is `InvalidDimensions`, bytes above `usize::MAX` are
    /// `IntegerOverflow`, and another number of bytes is `BufferSizeMismatch`, in this order.
    pub fn try_from_rgba(pixels: Vec<u8>, width: usize, height: usize) -> Result<Self>
        ensures { MatchOption
            (option_or (size_fault width height) (buffer_fault width height (length pixels.items)))
            (result ≡ Ok (record {
              pixels = pixels;
              width = width;
              height = height;
              aspect_ratio = PixelAspectRatio.Square;
              background_mode = BackgroundMode.Transparent;
            }))
            (λ fault. result ≡ Err fault) }
    {
        pixel_bytes(width, height)?;
        validate_buffer(width, height, pixels.len())?;
        Ok(Self::from_rgba(pixels, width, height))
    }

    /// Returns this image with another pixel shape.
    pub fn with_aspect_ratio(self, ratio: PixelAspectRatio) -> Self
        ensures { result ≡ record self { aspect_ratio = ratio } }
    {
        Self {
            aspect_ratio: ratio,
            ..self
        }
    }

    /// Returns this image with another background.
    pub fn with_background_mode(self, mode: BackgroundMode) -> Self
        ensures { result ≡ record self { background_mode = mode } }
    {
        Self {
            background_mode: mode,
            ..self
        }
    }

    /// Returns width and height in pixels.
    pub fn dimensions(&self) -> (usize, usize)
        ensures { result ≡ (self.now.width, self.now.height) }
    {
        (self.width, self.height)
    }

    /// Returns width and height on the screen, in units of a pixel's width.
    pub fn corrected_dimensions(&self) -> (usize, usize)
        requires { self.now.height * pad_of self.now.aspect_ratio ≤ usize.MAX }
        ensures { result ≡ (self.now.width, self.now.height * pad_of self.now.aspect_ratio) }
    {
        (
            self.width,
            self.height * usize::from(self.aspect_ratio.pad()),
        )
    }

    /// Whether some pixel is transparent: its alpha, the last byte, is below 128.
    pub fn has_transparency(&self) -> bool
        ensures { IsTrue result ↔ ((pixel : ℕ) × (4 * pixel + 3 < length self.now.pixels.items)
            × (slice_index self.now.pixels.items (4 * pixel + 3) < 128)) }
    {
        let count = self.pixels.len() / 4;
        for pixel in 0..count {
            if self.pixels[4 * pixel + 3] < 128 {
                return true;
            }
        }
        false
    }

    /// Returns a copy of this image.
    pub fn clone(&self, alloc: Global) -> Result<Self>
        ensures { MatchResult result
            (λ image. image_value image ≡ image_value self.now) (λ e. e ≡ SixelError.OutOfMemory) }
    {
        Ok(Self {
            pixels: Vec::from_slice(alloc, &self.pixels)?,
            width: self.width,
            height: self.height,
            aspect_ratio: self.aspect_ratio,
            background_mode: self.background_mode,
        })
    }
}
