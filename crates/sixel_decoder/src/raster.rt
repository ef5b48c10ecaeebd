//! Raster attributes: pixel aspect ratio, sizes that they name, and extent.

ghost use Rattle.std.specs.Prelude.{◌≡◌, ◌*◌, ◌≤◌, List, ℕ, length, max, nat_le, nat_lt};
ghost use Rattle.std.specs.Prelude.{if◌then◌else◌, MatchResult};
ghost use Rattle.sixel_base.specs.{Fields.{fields, field}, Limits.side_limit};
ghost use Rattle.sixel_base.specs.inside.Parameters.{Keeps};
ghost use Rattle.sixel_decoder.specs.inside.Sizes.{IsTooLarge};
ghost use Rattle.sixel_base.specs.Stroke.{ratio_from as shape_from};

use sixel_base::limits::MAX_SIDE;
use sixel_base::parameters::Parameters;
use sixel_base::settings::PixelAspectRatio;
use sixel_base::state::PixelLimit;
use sixel_base::{Result, SixelError};

/// Returns the pixel aspect ratio after raster attributes.
///
/// It is `now` if they have one field.
pub fn shape(
    parameters: &Parameters,
    now: PixelAspectRatio,
    other: PixelAspectRatio,
) -> PixelAspectRatio
    ensures { (text : List ℕ) → Keeps parameters.now text
        → result ≡ (if nat_le 2 (length (fields text))
        then shape_from other (max 1 (field text 0)) (max 1 (field text 1)) else now) }
{
    if parameters.len() < 2 {
        return now;
    }
    ratio_from(other, parameters.get(0).max(1), parameters.get(1).max(1))
}

/// Returns the ratio of a pixel's height to its width.
///
/// It is `other` unless the ratio is one of the four.
fn ratio_from(other: PixelAspectRatio, vertical: u32, horizontal: u32) -> PixelAspectRatio
    ensures { result ≡ shape_from other vertical horizontal }
{
    let (vertical, horizontal) = (u64::from(vertical), u64::from(horizontal));
    if vertical == horizontal {
        PixelAspectRatio::Square
    } else if vertical == 2 * horizontal {
        PixelAspectRatio::Ratio2To1
    } else if vertical == 3 * horizontal {
        PixelAspectRatio::Ratio3To1
    } else if vertical == 5 * horizontal {
        PixelAspectRatio::Ratio5To1
    } else {
        other
    }
}

/// Returns the last width or height that raster attributes name, where 0 names none.
pub fn last_side(before: usize, side: usize) -> usize
    ensures { result ≡ (if nat_lt 0 side then side else before) }
{
    if side > 0 { side } else { before }
}

/// Rejects an extent with a side or an area above its limit.
#[inline(always)]
pub fn check_size(width: usize, height: usize, limit: PixelLimit) -> Result<()>
    ensures { MatchResult result
        (λ _. (width ≤ side_limit) × (height ≤ side_limit)
        × (width * height ≤ limit.pixels))
        (λ error. IsTooLarge width height limit error) }
{
    if width > MAX_SIDE || height > MAX_SIDE {
        return Err(SixelError::malformed());
    }
    if width * height > limit.pixels() {
        return Err(SixelError::too_large());
    }
    Ok(())
}
