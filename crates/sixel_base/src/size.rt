//! The sizes that an image may have.

ghost use Rattle.std.specs.Prelude.{◌≡◌, ◌≤◌, MatchOption, is_none};
ghost use Rattle.sixel_base.specs.Size.{pixel_bytes, size_fault, limit_fault, encode_fault};
ghost use Rattle.sixel_base.specs.Size.{buffer_fault, verdict};
ghost use Rattle.sixel_base.specs.CallFault.{color_count_fault, IsVerdict};

use crate::limits::{MAX_AREA, MAX_SIDE};
use crate::{Result, SixelError};

/// How many rows a sixel has.
const BAND_HEIGHT: usize = 6;

/// How many color registers there are.
const REGISTERS: usize = 256;

/// Returns the number of bytes of an image's pixels, four per pixel.
///
/// The errors are a size of zero, and then a number of bytes above `usize::MAX`.
pub fn pixel_bytes(width: usize, height: usize) -> Result<usize>
    ensures { MatchOption (size_fault width height)
        (result ≡ Ok (pixel_bytes width height)) (λ fault. result ≡ Err fault) }
{
    if width == 0 || height == 0 {
        return Err(SixelError::InvalidDimensions { width, height });
    }
    width
        .checked_mul(height)
        .and_then(|area| area.checked_mul(4))
        .ok_or(SixelError::IntegerOverflow)
}

/// Returns an error unless an image of these sizes can be encoded.
///
/// Neither is zero, the bytes of the pixels fit a `usize`, and no side or area is above the limits,
/// where the height is rounded up to whole bands.
pub fn validate_encode_dimensions(width: usize, height: usize) -> Result<()>
    ensures { result ≡ verdict (encode_fault width height) }
{
    pixel_bytes(width, height)?;
    if !is_within_limits(width, height) {
        return Err(SixelError::InvalidDimensions { width, height });
    }
    Ok(())
}

/// Whether no side and no area of these sizes is above the limits, in whole bands.
fn is_within_limits(width: usize, height: usize) -> bool
    ensures { result ≡ is_none (limit_fault width height) }
{
    if width > MAX_SIDE || height > MAX_SIDE {
        return false;
    }
    let side = height.div_ceil(BAND_HEIGHT) * BAND_HEIGHT;
    side <= MAX_SIDE && width * side <= MAX_AREA
}

/// Returns an error unless the pixels have as many bytes as these sizes require.
pub fn validate_buffer(width: usize, height: usize, bytes: usize) -> Result<()>
    requires { pixel_bytes width height ≤ usize.MAX }
    ensures { result ≡ verdict (buffer_fault width height bytes) }
{
    let expected = 4 * (width * height);
    if bytes == expected {
        return Ok(());
    }
    Err(SixelError::BufferSizeMismatch {
        expected,
        actual: bytes,
    })
}

/// Returns an error unless a palette may have this many colors: 1 to 256.
pub fn validate_color_count(count: usize) -> Result<()>
    ensures { IsVerdict (color_count_fault count) result }
{
    if count == 0 || count > REGISTERS {
        return Err(SixelError::color_count());
    }
    Ok(())
}
