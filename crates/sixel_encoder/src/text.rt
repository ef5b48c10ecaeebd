//! The SIXEL output of an image whose colors are chosen.

ghost use Rattle.std.specs.Prelude.{◌≡◌, ◌++◌, IfOk, OnOk, string_bytes};
ghost use Rattle.sixel_encoder.specs.Text.{color_definition, parameters_text, raster_text, text_of};
ghost use Rattle.sixel_encoder.specs.inside.Indexed.{IsIndexed, drawing_of};

use crate::band::BandRows;
use sixel_base::settings::{BackgroundMode, PixelAspectRatio};
use sixel_palette::palette::register_color::percentage;
use std::alloc::{AllocError, Global};

/// An image, and for each pixel its entry in a palette.
#[derive(Clone, Copy)]
pub struct IndexedImage<'a> {
    pub width: usize,
    pub height: usize,
    pub aspect_ratio: PixelAspectRatio,
    pub background_mode: BackgroundMode,
    pub colors: &'a [[u8; 3]],
    pub pixels: &'a [u8],
    pub indices: &'a [u8],
}

/// Returns the SIXEL output of an image.
pub fn encode_indexed(alloc: Global, image: &IndexedImage<'_>) -> Result<String, AllocError>
    requires { IsIndexed image.now }
    ensures { IfOk result (λ text. string_bytes text ≡ text_of (drawing_of image.now)) }
{
    let mut text = begin_text(alloc, image)?;
    for (entry, color) in image.colors.iter().enumerate() {
        push_definition(&mut text, entry, *color)?;
    }
    let mut rows = BandRows::new(alloc, image)?;
    for band in 0..image.height.div_ceil(6) {
        rows.push_band(&mut text, image, band)?;
    }
    text.push_str("\x1b\\")?;
    Ok(text)
}

/// Returns the output before the palette: the parameters and the raster attributes.
///
/// The parameters are shape, background and no grid size. The attributes are a pixel's height and
/// width, then the sizes.
pub fn begin_text(alloc: Global, image: &IndexedImage<'_>) -> Result<String, AllocError>
    ensures { IfOk result (λ text. string_bytes text
        ≡ parameters_text (drawing_of image.now) ++ raster_text (drawing_of image.now)) }
{
    let mut text = String::new(alloc);
    let p1 = image.aspect_ratio.to_p1_value();
    let p2 = image.background_mode.to_p2_value();
    write!(text, "\x1bP{p1};{p2};0q")?;
    let pad = image.aspect_ratio.pad();
    let width = image.width;
    let height = image.height;
    write!(text, "\"{pad};1;{width};{height}")?;
    Ok(text)
}

/// Appends the definition of one palette entry.
pub fn push_definition(text: &mut String, entry: usize, color: [u8; 3]) -> Result<(), AllocError>
    ensures { OnOk result
        (string_bytes text.new ≡ string_bytes text.old ++ color_definition entry color) }
{
    let red = percentage(color[0]);
    let green = percentage(color[1]);
    let blue = percentage(color[2]);
    write!(text, "#{entry};2;{red};{green};{blue}")
}
