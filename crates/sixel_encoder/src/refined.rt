//! The SIXEL output of an image in a refined palette.

ghost use Rattle.std.specs.Prelude.{◌≡◌, ◌*◌, ◌<◌, All, IfOk, OnOk, map, string_bytes};
ghost use Rattle.sixel_base.specs.CallFault.{FailsBy};
ghost use Rattle.sixel_encoder.specs.{Encoding.source_value, IndexedDrawing.palette_fault};
ghost use Rattle.sixel_encoder.specs.RefinedText.{IsBackgroundText, IsRefinedText, next_index};

use crate::form::TextForm;
use crate::source::{Source, encode_drawing, validate_source};
use sixel_base::Result;
use sixel_base::settings::BackgroundMode;
use sixel_base::size::validate_color_count;
use sixel_palette::dithering::map_to_refined;
use sixel_palette::mapping::Mapping;
use std::alloc::Global;

/// Returns the SIXEL output of an image in a refined palette.
///
/// It has at most `max_colors` colors. Up to 64 are spread for error diffusion, unless the image is
/// flat art.
///
/// # Errors
///
/// Those of [`encode_in_palette`](crate::encode_in_palette), for `max_colors` as the number of
/// colors.
pub fn encode_refined(
    alloc: Global,
    source: &Source<'_>,
    max_colors: u16,
    mapping: Mapping,
    form: TextForm,
) -> Result<String>
    ensures fault { FailsBy (palette_fault (source_value source.now) max_colors) result }
    ensures bytes { OnOk result (All (λ byte. byte < 256) (source_value source.now).pixels) }
    ensures text { IfOk result (λ text.
        IsRefinedText (source_value source.now) max_colors mapping form (string_bytes text)) }
{
    validate_source(source)?;
    validate_color_count(usize::from(max_colors))?;
    let room = usize::from(max_colors);
    let refined = map_to_refined(alloc, source.pixels, source.width, room, mapping)?;
    encode_drawing(alloc, source, &refined.colors, &refined.indices, form)
}

/// A background of its own color, and how many colors there are with it.
#[derive(Debug, Clone, Copy, PartialEq, Eq)]
pub struct Background {
    /// The color of register 0.
    pub color: [u8; 3],
    /// The most entries of the palette with the background, at least 2.
    pub max_colors: u16,
}

/// Returns the SIXEL output of an image on an opaque background of its own color.
///
/// The background is entry 0 of the palette, and no pixel is drawn in it. So terminals that paint
/// transparent pixels in the color of register 0 paint them in that color. The other entries are
/// those of [`encode_refined`] with one color less.
///
/// # Errors
///
/// Those of [`encode_refined`].
pub fn encode_on_background(
    alloc: Global,
    source: &Source<'_>,
    background: Background,
    mapping: Mapping,
    form: TextForm,
) -> Result<String>
    ensures fault { FailsBy
        (palette_fault (source_value source.now) background.max_colors) result }
    ensures text { IfOk result (λ text.
        IsBackgroundText (source_value source.now) background mapping form (string_bytes text)) }
{
    validate_source(source)?;
    let count = usize::from(background.max_colors);
    validate_color_count(count)?;
    let others = (count - 1).max(1);
    let mut refined = map_to_refined(alloc, source.pixels, source.width, others, mapping)?;
    refined.colors.insert(0, background.color)?;
    follow_background(&mut refined.indices);
    let source = Source {
        background_mode: BackgroundMode::Opaque,
        ..*source
    };
    encode_drawing(alloc, &source, &refined.colors, &refined.indices, form)
}

/// Moves each palette index behind the background.
fn follow_background(indices: &mut [u8])
    ensures { indices.new ≡ map next_index indices.old }
{
    for pixel in 0..indices.len() {
        let index = indices[pixel];
        indices[pixel] = index.saturating_add(1);
    }
}
