//! The result of decoding a payload.

ghost use Rattle.std.specs.Prelude.{◌≡◌, ◌-◌, ◌*◌, ◌^◌, ◌<◌, ◌≤◌, length, vec_capacity, IfOk};
ghost use Rattle.sixel_decoder.specs.Memory.{most_capacity};

use sixel_base::registers::Registers;
use sixel_base::settings::{BackgroundMode, PixelAspectRatio};
use std::alloc::AllocError;

/// The image of a payload, or its rows that are left, and the registers after it.
#[derive(Drop)]
pub struct DecodedPayload {
    /// The pixels of the rows from `first_row` on, four bytes each.
    pub pixels: Vec<u8>,
    pub width: usize,
    pub height: usize,
    /// How many rows of the image were released.
    pub first_row: usize,
    /// Rows down to the last one with a set pixel, at most the height.
    pub drawn_height: usize,
    /// The last width above 0 that raster attributes name, or 0 if there is none.
    pub raster_width: usize,
    /// The last such height.
    pub raster_height: usize,
    /// How many commands were ignored. The number saturates.
    pub ignored: u64,
    pub aspect_ratio: PixelAspectRatio,
    pub background_mode: BackgroundMode,
    pub registers: Registers,
    pub ghost rows: { length pixels.items ≡ 4 * (width * (height - first_row)) },
    pub ghost memory: { vec_capacity pixels ≤ most_capacity (length pixels.items) },
}

/// Frees the memory of pixels that they do not need, if it is more than they take.
///
/// It fails if the allocator has no smaller block.
pub(crate) fn fit_memory(mut pixels: Vec<u8>) -> Result<Vec<u8>, AllocError>
    requires { 2 * length pixels.items < 2 ^ 64 }
    ensures items { IfOk result (λ fitted. fitted.items ≡ pixels.items) }
    ensures memory { IfOk result
        (λ fitted. vec_capacity fitted ≤ most_capacity (length fitted.items)) }
{
    let most = 2 * pixels.len();
    if pixels.capacity() > most {
        pixels.shrink_to_fit();
        if pixels.capacity() > most {
            return Err(AllocError);
        }
    }
    Ok(pixels)
}
