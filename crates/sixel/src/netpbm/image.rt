//! Reading of an image.

ghost use Rattle.std.specs.Prelude.{◌≡◌, Ok, Err, ◌⊎◌, MatchResult};
ghost use Rattle.sixel.specs.declared.netpbm.error.NetpbmError.TheVariants.{OutOfMemory};
ghost use Rattle.icy_sixel.specs.ImageView.{image_value};
ghost use Rattle.sixel.specs.netpbm.Image.{image_of};

use crate::netpbm::error::NetpbmError;
use crate::netpbm::header::read_header;
use icy_sixel::SixelImage;
use std::alloc::Global;

/// Reads the first image of a PAM, a PPM or a PGM file.
///
/// Its pixels are square. The formats are those with the magic numbers `P7`, `P6` and `P5`. Samples
/// up to 65535 are scaled to bytes. Bytes after the image are ignored.
///
/// ```text
/// let image = read_image(alloc, b"P6 1 1 255 \xff\x00\x00")?;
/// ```
///
/// # Errors
///
/// - `Magic`: the file has none of these magic numbers.
/// - `Header`: a field is missing, repeated, unknown or out of range.
/// - `TupleType`: a PAM file has more than four samples per pixel, or an unknown tuple type.
/// - `Incomplete`: there are fewer pixels than the header states.
/// - `OutOfMemory`: an allocation failed.
pub fn read_image(alloc: Global, bytes: &[u8]) -> Result<SixelImage, NetpbmError>
    ensures { MatchResult result (λ image. image_of bytes.now ≡ Ok (image_value image))
        (λ error. (error ≡ OutOfMemory) ⊎ (image_of bytes.now ≡ Err error)) }
{
    let (header, raster) = read_header(bytes)?;
    match header.raster_len() {
        Some(len) if len <= raster.len() => {
            let pixels = header.pixels(alloc, raster)?;
            Ok(SixelImage::from_rgba(pixels, header.width, header.height))
        }
        _ => Err(NetpbmError::Incomplete),
    }
}
