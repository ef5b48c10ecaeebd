//! The SIXEL output of the images of PAM, PPM and PGM files, by the options of `draw`.

ghost use Rattle.std.specs.Prelude.{◌≡◌};
ghost use Rattle.sixel.specs.Drawing.{IsDrawOutput, IsPaletteOutput, IsRefinedOutput};
ghost use Rattle.sixel.specs.{Drawing.standard_limit, Options.mapping_of, WorkOutput.Draws};
ghost use Rattle.sixel.specs.netpbm.Image.{image_of};

pub mod files;
pub mod option_fault;
pub mod options;
mod palette_file;

use crate::fault::PictureFault;
use crate::netpbm::read_image;
use icy_sixel::TextForm;
use icy_sixel::encoder::Mapping;
use options::{DrawOptions, DrawPalette};
use palette_file::read_colors;
use std::alloc::Global;

/// Returns the SIXEL output of the image of a file.
///
/// The palette file is read only if the options name one.
pub fn draw(
    alloc: Global,
    options: DrawOptions,
    palette: &[u8],
    file: &[u8],
) -> Result<String, PictureFault>
    ensures { Draws result
        (IsDrawOutput options.palette (mapping_of options) palette.now (image_of file.now)) }
{
    let mapping = options.mapping();
    match options.palette {
        DrawPalette::Standard => draw_refined(alloc, None, mapping, file),
        DrawPalette::Refined(max_colors) => draw_refined(alloc, Some(max_colors), mapping, file),
        DrawPalette::File => draw_in_palette(alloc, palette, mapping, file),
    }
}

/// Returns the output in a refined palette of at most `max_colors` colors.
///
/// `None` means one color for 16 pixels, at least 16 and at most 256.
fn draw_refined(
    alloc: Global,
    max_colors: Option<u16>,
    mapping: Mapping,
    file: &[u8],
) -> Result<String, PictureFault>
    ensures { Draws result (IsRefinedOutput max_colors mapping (image_of file.now)) }
{
    let image = read_image(alloc, file)?;
    let max_colors = max_colors.unwrap_or(standard_limit(&image.pixels));
    let text = image.encode_refined(alloc, max_colors, mapping, TextForm::Compact)?;
    Ok(text)
}

/// The most colors for these pixels if no option states them.
fn standard_limit(pixels: &[u8]) -> u16
    ensures { result ≡ standard_limit pixels.now }
{
    (pixels.len() / 4 / 16).clamp(16, 256) as u16
}

/// Returns the output in the palette of a palette file.
fn draw_in_palette(
    alloc: Global,
    palette: &[u8],
    mapping: Mapping,
    file: &[u8],
) -> Result<String, PictureFault>
    ensures { Draws result (IsPaletteOutput mapping palette.now (image_of file.now)) }
{
    let colors = read_colors(alloc, palette)?;
    let image = read_image(alloc, file)?;
    let text = image.encode_with_palette(alloc, &colors, mapping, TextForm::Compact)?;
    Ok(text)
}
