//! The file that `draw` reads a palette from: an image whose pixels are the colors.

ghost use Rattle.std.specs.Prelude.{◌≡◌, ◌⊎◌, Err, IfOk, MatchResult, Ok};
ghost use Rattle.sixel.specs.declared.netpbm.error.NetpbmError.TheVariants.{OutOfMemory};
ghost use Rattle.sixel.specs.Drawing.{colors_of, palette_of};

use crate::netpbm::{NetpbmError, read_image};
use std::alloc::{AllocError, Global};

/// Reads the colors of a palette file: those of its pixels, row by row.
///
/// The file is a PAM, a PPM or a PGM file. Alpha has no effect.
pub fn read_colors(alloc: Global, file: &[u8]) -> Result<Vec<[u8; 3]>, NetpbmError>
    ensures { MatchResult result (λ colors. palette_of file.now ≡ Ok colors.items)
        (λ error. (error ≡ OutOfMemory) ⊎ (palette_of file.now ≡ Err error)) }
{
    let image = read_image(alloc, file)?;
    Ok(pixel_colors(alloc, &image.pixels)?)
}

/// The colors of an image's pixels.
fn pixel_colors(alloc: Global, pixels: &[u8]) -> Result<Vec<[u8; 3]>, AllocError>
    ensures { IfOk result (λ colors. colors.items ≡ colors_of pixels.now) }
{
    let mut colors = Vec::with_capacity(alloc, pixels.len() / 4)?;
    for pixel in 0..pixels.len() / 4 {
        let at = 4 * pixel;
        colors.push([pixels[at], pixels[at + 1], pixels[at + 2]])?;
    }
    Ok(colors)
}
