//! The call that finds palette indices of pixels.

ghost use Rattle.std.specs.Prelude.{◌≡◌, ◌≢◌, ◌/◌, ◌<◌, ◌≤◌, Some, None, true, false, length, take};
ghost use Rattle.sixel_base.specs.CallFault.{CallFault};
ghost use Rattle.sixel_palette.specs.Dithering.{AreDithered, indices_fault};
ghost use Rattle.icysixel.specs.{Code.IsCallCode, Encodings.{is_kind, mapping_of}};
ghost use Rattle.icysixel.specs.RefinedOutput.{IsSameAfter};

use crate::code::{Code, code_of};
use crate::encoding::Dithering;
use icy_sixel::encoder::palette_indices;
use std::alloc::Global;

/// Writes the palette index of each pixel in a given palette.
#[unsafe(no_mangle)]
pub extern "C" fn icysixel_palette_indices(
    alloc: Global,
    pixels: &[u8],
    width: usize,
    colors: &[[u8; 3]],
    dithering: &Dithering,
    tolerance: u32,
    indices: &mut [u8],
) -> u32
    ensures option { is_kind dithering.now ≡ false → result ≡ 5 }
    ensures small { is_kind dithering.now ≡ true
        → length indices.old < length pixels.now / 4 → result ≡ 6 }
    ensures call { (fault : CallFault) → is_kind dithering.now ≡ true
        → length pixels.now / 4 ≤ length indices.old
        → indices_fault (length pixels.now) width (length colors.now) ≡ Some fault
        → IsCallCode result fault }
    ensures memory { is_kind dithering.now ≡ true → length pixels.now / 4 ≤ length indices.old
        → indices_fault (length pixels.now) width (length colors.now) ≡ None
        → result ≢ 0 → result ≡ 8 }
    ensures indices { result ≡ 0 → AreDithered (mapping_of dithering.now tolerance) width pixels.now
        colors.now (take (length pixels.now / 4) indices.new) }
    ensures after { result ≡ 0 → IsSameAfter (length pixels.now / 4) indices.old indices.new }
    ensures same { result ≢ 0 → indices.new ≡ indices.old }
{
    if dithering.kind > 2 {
        return Code::BadOption as u32;
    }
    if indices.len() < pixels.len() / 4 {
        return Code::BufferTooSmall as u32;
    }
    match palette_indices(alloc, pixels, width, colors, dithering.mapping(tolerance)) {
        Ok(found) => {
            indices[..found.len()].copy_from_slice(&found);
            Code::Success as u32
        }
        Err(error) => code_of(&error),
    }
}
