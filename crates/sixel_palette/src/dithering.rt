//! Palette indices of an image's pixels in a given palette.

ghost use Rattle.std.specs.{Int.abs_diff, Prelude.{◌≡◌, ◌⊎◌, ℕ, ◌+◌, ◌*◌, ◌/◌, ◌<◌, ◌≤◌, All}};
ghost use Rattle.std.specs.Prelude.{Contains, IfOk, List, OnOk, length, slice_index, true};
ghost use Rattle.sixel_base.specs.{CallFault.FailsBy, Limits.area_limit, Size.verdict};
ghost use Rattle.sixel_palette.specs.Dithering.{AreDithered, HasTarget, HaveTargets, Mapped};
ghost use Rattle.sixel_palette.specs.Dithering.{before_share, below_share, errors_of, index_error};
ghost use Rattle.sixel_palette.specs.Dithering.{indices_fault, mapped_of, next_share, no_error};
ghost use Rattle.sixel_palette.specs.Dithering.{passed_on, refined_mapping, rest_share};
ghost use Rattle.sixel_palette.specs.Dithering.{rounded_sixteenths, rows_fault, serpentine};
ghost use Rattle.sixel_palette.specs.Dithering.{target_of_visit, tolerance_of, visit_error};
ghost use Rattle.sixel_palette.specs.{Dithering.whole_rows, Gray.{is_gray, maps_grays}};
ghost use Rattle.sixel_palette.specs.{Gray.source_pixels, GrayDiffusion.{AreGrays, level_gap}};
ghost use Rattle.sixel_palette.specs.{Palette.{AreIndices, IsOpaque, color_at}, Refined.IsRefined};
ghost use Rattle.sixel_palette.specs.Refined.{IsRegisterColor, opaque_pixels, summed_error};
ghost use Rattle.sixel_palette.specs.Spread.{spread_amount, spread_entries};
ghost use Rattle.sixel_palette.specs.inside.{Error.HasNearest, Mapped.{IsMappable, IsWhole}};
ghost use Rattle.sixel_palette.specs.declared.palette.refined.RefinedPalette.{RefinedPalette};

mod diffusion;
mod gray;
pub mod mapped;
mod nearest;
mod ordered;
mod palette_error;
mod sixteen_entries;
mod undithered;

use crate::dither::{Amplitude, Dither};
use crate::dithering::diffusion::diffused_indices;
use crate::dithering::gray::{gray_pixels, maps_grays};
use crate::dithering::mapped::MappedImage;
use crate::dithering::nearest::Nearest;
use crate::dithering::ordered::{Pattern, ordered_indices};
use crate::dithering::palette_error::{pattern_of, tolerance_of};
use crate::dithering::undithered::chosen_indices;
use crate::mapping::{Mapping, Tolerance};
use crate::palette::nearest_indices::{color_bytes, nearest_indices};
use crate::palette::refined::Refinement;
use crate::palette::spread::spread_amount;
use sixel_base::size::validate_color_count;
use sixel_base::{Result, SixelError};
use std::alloc::{AllocError, Global};

/// Returns the palette index of each pixel in a palette of 1 to 256 colors.
///
/// The pixels are rows of `width`, four bytes each: red, green, blue, alpha. The target of a pixel
/// is its color, moved by the dithering. Each opaque pixel has the index of the entry nearest to
/// its target, the first of equals, apart from the tolerance. A distance is the sum of the squared
/// differences of the channels.
///
/// By diffusion, a pixel keeps the entry of an opaque neighbor if the distance of that entry to
/// the target is below the distance of the nearest entry plus the tolerance. One neighbor is the
/// pixel before it in its row: even rows go from the left, odd rows from the right. The other one
/// is the pixel above it in the same band of six rows. Of two entries the nearer one is kept, that
/// of the pixel before it on ties.
///
/// Otherwise, a pixel has the cheapest of up to four entries, the first of equals: the nearest one,
/// those of the opaque pixels before and above it, and the nearest one of the opaque pixel after
/// it. An entry costs twice its distance, and the tolerance for each of the two columns beside the
/// pixel, in its band of six rows, that lacks the entry. The columns cost nothing if the pixel
/// above has it. Bands, columns of a band and pixels of a column are visited in order. The column
/// after counts with nearest entries. So without dithering the summed squared error is at most the
/// least one plus the tolerance for each opaque pixel.
///
/// In a palette of grays, the brightness of the pixels is mapped in place of their colors, because
/// no gray makes up for the difference of a hue. What pixels pass on is gray then. Only without
/// dithering and with a tolerance other than the automatic one the colors are mapped.
///
/// A transparent pixel, whose alpha is below 128, has index 0. Its color has no effect: it neither
/// receives nor passes on a difference.
///
/// ```rust
/// let mapping = Mapping {
///     dither: Dither::Off,
///     tolerance: Tolerance::Squared(0),
/// };
/// let indices = palette_indices(alloc, &image.pixels, image.width, colors, mapping)?;
/// ```
///
/// # Errors
///
/// The first of these that applies:
///
/// - `InvalidDimensions`: the width is zero
/// - `BufferSizeMismatch`: the bytes are not whole rows; it expects those of the whole rows
/// - `InvalidData("number of colors is not 1 to 256")`
///
/// Otherwise only `OutOfMemory`.
pub fn palette_indices(
    alloc: Global,
    pixels: &[u8],
    width: usize,
    colors: &[[u8; 3]],
    mapping: Mapping,
) -> Result<Vec<u8>>
    ensures fault { FailsBy
        (indices_fault (length pixels.now) width (length colors.now)) result }
    ensures count { IfOk result (λ indices. length indices.items ≡ length pixels.now / 4) }
    ensures indices { IfOk result
        (λ indices. AreDithered mapping width pixels.now colors.now indices.items) }
    ensures nearest { mapping.dither ≡ Dither.Off → mapping.tolerance ≡ Tolerance.Squared 0
        → IfOk result (λ indices. AreIndices pixels.now colors.now indices.items) }
    ensures summed { mapping.dither ≡ Dither.Off → IfOk result (λ indices.
        let source = source_pixels mapping colors.now pixels.now in
        index_error colors.now source indices.items ≤ summed_error colors.now source
        + tolerance_of mapping.dither mapping.tolerance colors.now source
        * opaque_pixels source (λ _. 1)) }
    ensures exact { (strength : ℕ) → mapping.dither ≡ Dither.Diffusion strength
        → (mapping.tolerance ≡ Tolerance.Auto) ⊎ (mapping.tolerance ≡ Tolerance.Squared 0)
        → ((pixel : ℕ) → pixel < length pixels.now / 4 → IsOpaque pixels.now pixel
        → Contains colors.now (color_at pixels.now pixel))
        → IfOk result (λ indices. AreIndices pixels.now colors.now indices.items) }
{
    validate_rows(pixels.len(), width)?;
    validate_color_count(colors.len())?;
    color_bytes(colors);
    let image = MappedImage::plain(pixels, width, colors);
    Ok(dithered_indices(alloc, &image, mapping)?)
}

/// Returns the palette index of each pixel of whole rows, in 1 to 256 colors.
pub fn dithered_indices(
    alloc: Global,
    image: &MappedImage<'_>,
    mapping: Mapping,
) -> std::result::Result<Vec<u8>, AllocError>
    requires { IsMappable image.now }
    ensures { IfOk result (λ indices.
        AreDithered mapping image.now.width image.now.pixels.now image.now.colors.now
        indices.items) }
{
    if !maps_grays(mapping, image.colors) {
        return searched_indices(alloc, image, mapping);
    }
    let grays = gray_pixels(alloc, image.pixels)?;
    let image = MappedImage {
        pixels: &grays,
        ..*image
    };
    searched_indices(alloc, &image, mapping)
}

/// A refined palette of an image, and the palette index of each pixel.
#[derive(Drop)]
pub struct RefinedMapping {
    pub colors: Vec<[u8; 3]>,
    pub indices: Vec<u8>,
}

/// Refines a palette of at most `room` entries for whole rows of pixels, and maps them to it.
///
/// A palette of at most 64 entries is spread for error diffusion, unless the image is flat art.
/// `Amplitude::Auto` is taken as `Amplitude::Refined`.
pub fn map_to_refined(
    alloc: Global,
    pixels: &[u8],
    width: usize,
    room: usize,
    mapping: Mapping,
) -> std::result::Result<RefinedMapping, AllocError>
    requires width { 0 < width }
    requires rows { length pixels.now ≡ whole_rows (length pixels.now) width }
    requires area { length pixels.now / 4 ≤ area_limit }
    requires some { 0 < room }
    requires few { room ≤ 256 }
    ensures bytes { OnOk result (All (λ byte. byte < 256) pixels.now) }
    ensures spread { IfOk result (λ it. (palette : RefinedPalette)
        × IsRefined pixels.now room palette
        × (it.colors.items ≡ spread_entries (spread_amount mapping.dither room)
        (opaque_pixels pixels.now) palette.colors.items)) }
    ensures shown { IfOk result (λ it. All IsRegisterColor it.colors.items) }
    ensures few { IfOk result (λ it. length it.colors.items ≤ room) }
    ensures count { IfOk result (λ it. length it.indices.items ≡ length pixels.now / 4) }
    ensures known { IfOk result (λ it. (pixel : ℕ) → pixel < length pixels.now / 4
        → IsOpaque pixels.now pixel
        → slice_index it.indices.items pixel < length it.colors.items) }
    ensures dithered { IfOk result (λ it.
        AreDithered (refined_mapping mapping) width pixels.now it.colors.items it.indices.items) }
{
    let amount = spread_amount(mapping.dither, room);
    let refinement = Refinement::of(alloc, pixels, room, amount)?;
    let image = MappedImage::plain(pixels, width, &refinement.entries.colors);
    let mapping = refined_mapping(mapping);
    let indices = indices_from(alloc, &image, Nearest::Refined(&refinement), mapping)?;
    Ok(RefinedMapping {
        colors: refinement.entries.colors,
        indices,
    })
}

/// Returns the palette index of each pixel of whole rows in their refined palette.
fn indices_from(
    alloc: Global,
    image: &MappedImage<'_>,
    nearest: Nearest<'_>,
    mapping: Mapping,
) -> std::result::Result<Vec<u8>, AllocError>
    requires whole { IsWhole image.now }
    requires strength { image.now.strength ≤ 8 }
    requires nearest { HasNearest image.now nearest }
    ensures { IfOk result (λ indices.
        AreDithered mapping image.now.width image.now.pixels.now image.now.colors.now
        indices.items) }
{
    if image.colors.is_empty() {
        return Ok(nearest.indices(alloc, image)?);
    }
    if !maps_grays(mapping, image.colors) {
        return mapped_indices(alloc, image, nearest, mapping);
    }
    let grays = gray_pixels(alloc, image.pixels)?;
    let nearest = Nearest::Found(nearest_indices(alloc, &grays, image.colors)?);
    let image = MappedImage {
        pixels: &grays,
        ..*image
    };
    mapped_indices(alloc, &image, nearest, mapping)
}

/// Returns how pixels are mapped to a palette that is refined for them.
fn refined_mapping(mapping: Mapping) -> Mapping
    ensures { result ≡ refined_mapping mapping }
{
    match mapping.dither {
        Dither::Ordered {
            amplitude: Amplitude::Auto,
        } => Mapping {
            dither: Dither::Ordered {
                amplitude: Amplitude::Refined,
            },
            ..mapping
        },
        _ => mapping,
    }
}

/// Returns the index of each pixel for its target.
fn searched_indices(
    alloc: Global,
    image: &MappedImage<'_>,
    mapping: Mapping,
) -> std::result::Result<Vec<u8>, AllocError>
    requires { IsMappable image.now }
    ensures { IfOk result (λ indices.
        HaveTargets mapping image.now.width image.now.pixels.now image.now.colors.now
        indices.items) }
{
    match (mapping.dither, mapping.tolerance) {
        (Dither::Diffusion { strength }, Tolerance::Squared(tolerance)) => {
            let image = MappedImage {
                strength: strength.clamp(1, 8),
                tolerance,
                ..*image
            };
            diffused_indices(alloc, &image)
        }
        (
            Dither::Ordered {
                amplitude: Amplitude::Levels(amplitude),
            },
            Tolerance::Squared(tolerance),
        ) => {
            let image = MappedImage {
                tolerance,
                ..*image
            };
            let pattern = Pattern {
                amplitude,
                limit: 0,
            };
            ordered_indices(alloc, &image, &[], pattern)
        }
        _ => {
            let nearest = nearest_indices(alloc, image.pixels, image.colors)?;
            mapped_indices(alloc, image, Nearest::Found(nearest), mapping)
        }
    }
}

/// Returns the index of each pixel for its target, by the nearest entries.
fn mapped_indices(
    alloc: Global,
    image: &MappedImage<'_>,
    nearest: Nearest<'_>,
    mapping: Mapping,
) -> std::result::Result<Vec<u8>, AllocError>
    requires image { IsMappable image.now }
    requires nearest { HasNearest image.now nearest }
    ensures { IfOk result (λ indices.
        HaveTargets mapping image.now.width image.now.pixels.now image.now.colors.now
        indices.items) }
{
    channel_bytes(image.pixels, image.colors);
    let tolerance = tolerance_of(image, &nearest, mapping);
    let image = MappedImage {
        tolerance,
        ..*image
    };
    match mapping.dither {
        Dither::Off => {
            let nearest = nearest.indices(alloc, &image)?;
            chosen_indices(alloc, &image, nearest)
        }
        Dither::Ordered { amplitude } => {
            let pattern = pattern_of(&image, &nearest, amplitude);
            let nearest = nearest.indices(alloc, &image)?;
            ordered_indices(alloc, &image, &nearest, pattern)
        }
        // Each pixel's color is an entry, so there is nothing to pass on.
        Dither::Diffusion { .. } if tolerance == 0 && mapping.tolerance == Tolerance::Auto => {
            nearest.indices(alloc, &image)
        }
        Dither::Diffusion { strength } => {
            let strength = strength.clamp(1, 8);
            diffused_indices(alloc, &MappedImage { strength, ..image })
        }
    }
}

/// States that channels of pixels are bytes, three per color. It does nothing.
fn channel_bytes(pixels: &[u8], colors: &[[u8; 3]])
    ensures bytes { (k : ℕ) → slice_index pixels.now k < 256 }
    ensures three { All (λ color. length color ≡ 3) colors.now }
{}

/// States laws of error diffusion. It does nothing.
///
/// The shares of an error add up to it. A pixel passes on at most 510 sixteenths for each eighth
/// of the strength, in either direction. A transparent pixel passes on no error.
pub fn error_diffusion()
    ensures shares { (error : ℕ) → next_share error + before_share error + below_share error
        + rest_share error ≡ error }
    ensures bounded { (strength value entry : ℕ) → value ≤ 4080 → entry < 256
        → (512 * strength ≤ passed_on strength value entry + 510 * strength)
        × (passed_on strength value entry ≤ 512 * strength + 510 * strength) }
    ensures transparent { (m : Mapped) (indices : List ℕ) (errors : List (List ℕ)) (n : ℕ)
        → slice_index m.pixels (4 * serpentine m.width n + 3) < 128
        → visit_error m indices errors n ≡ no_error m.strength }
{}

/// States laws of error diffusion in a palette of grays. It does nothing.
///
/// Grays are mapped then, so each pixel passes on the same in each channel, never the difference
/// of a hue. No entry is nearer to a target than its own one, apart from the tolerance: between two
/// entries, the target differs by at most half of their difference. For each eighth of the
/// strength, a pixel passes on at most twice that and one sixteenth, in either direction.
pub fn gray_diffusion()
    ensures grays { (mapping : Mapping) (width : ℕ) (pixels : List ℕ) (colors : List (List ℕ))
        → maps_grays mapping.dither mapping.tolerance colors ≡ true
        → AreGrays (mapped_of mapping width (source_pixels mapping colors pixels) colors) }
    ensures gray { (m : Mapped) (indices : List ℕ) (n : ℕ) → AreGrays m
        → All (λ error. is_gray error ≡ true) (errors_of m indices n) }
    ensures near { (m : Mapped) (indices : List ℕ) (n entry : ℕ) → AreGrays m
        → HasTarget m (target_of_visit m (errors_of m indices n) n) indices n
        → IsOpaque m.pixels (serpentine m.width n) → entry < length m.colors
        → let gap = level_gap m indices n (slice_index indices (serpentine m.width n)) in
        let other = level_gap m indices n entry in
        3 * (gap * gap) ≤ 3 * (other * other) + m.tolerance }
    ensures passed { (strength value entry : ℕ) → value ≤ 4080 → entry < 256
        → let gap = abs_diff (rounded_sixteenths value) entry in
        (512 * strength ≤ passed_on strength value entry + (2 * gap + 1) * strength)
        × (passed_on strength value entry ≤ 512 * strength + (2 * gap + 1) * strength) }
{}

/// Returns an error unless the bytes are whole rows of some pixels.
fn validate_rows(bytes: usize, width: usize) -> Result<()>
    ensures { result ≡ verdict (rows_fault bytes width) }
{
    if width == 0 {
        return Err(SixelError::InvalidDimensions { width, height: 0 });
    }
    let expected = 4 * (bytes / 4 / width * width);
    if bytes == expected {
        return Ok(());
    }
    Err(SixelError::BufferSizeMismatch {
        expected,
        actual: bytes,
    })
}
