//! The call that refines the palette of an image.

ghost use Rattle.std.specs.Prelude.{◌≡◌, ◌≢◌, ◌/◌, ◌%◌, ◌<◌, ◌≤◌, Some, None, length, take};
ghost use Rattle.sixel_base.specs.{CallFault.{ColorCount, color_count_fault}, Limits.area_limit};
ghost use Rattle.icysixel.specs.RefinedOutput.{IsRefinedOutput, IsSameAfter, refined_room};

use crate::choose_palette::buffers_code;
use crate::code::{Code, code_of};
use icy_sixel::{RefinedPalette, refine_palette};
use std::alloc::Global;

/// The properties of a refined palette, without its colors.
#[repr(C)]
#[derive(Clone, Copy)]
pub struct Refined {
    pub colors: usize,
    pub error: u64,
}

/// Writes a refined palette of pixels and the index of each pixel.
#[unsafe(no_mangle)]
pub extern "C" fn icysixel_refine_palette(
    alloc: Global,
    pixels: &[u8],
    max_colors: u16,
    colors: &mut [[u8; 3]],
    indices: &mut [u8],
    refined: &mut Refined,
) -> u32
    ensures mismatch { length pixels.now % 4 ≢ 0 → result ≡ 11 }
    ensures few_colors { length pixels.now % 4 ≡ 0
        → length colors.old < refined_room max_colors → result ≡ 6 }
    ensures few_indices { length pixels.now % 4 ≡ 0
        → length indices.old < length pixels.now / 4 → result ≡ 6 }
    ensures count { length pixels.now % 4 ≡ 0 → refined_room max_colors ≤ length colors.old
        → length pixels.now / 4 ≤ length indices.old
        → color_count_fault max_colors ≡ Some ColorCount → result ≡ 20 }
    ensures area { length pixels.now % 4 ≡ 0 → refined_room max_colors ≤ length colors.old
        → length pixels.now / 4 ≤ length indices.old
        → color_count_fault max_colors ≡ None → area_limit < length pixels.now / 4
        → result ≡ 14 }
    ensures memory { length pixels.now % 4 ≡ 0 → refined_room max_colors ≤ length colors.old
        → length pixels.now / 4 ≤ length indices.old
        → color_count_fault max_colors ≡ None → length pixels.now / 4 ≤ area_limit
        → result ≢ 0 → result ≡ 8 }
    ensures refined { result ≡ 0 → IsRefinedOutput pixels.now max_colors refined.new colors.new
        indices.new }
    ensures colors_after { result ≡ 0 → IsSameAfter refined.new.colors colors.old colors.new }
    ensures indices_after { result ≡ 0
        → IsSameAfter (length pixels.now / 4) indices.old indices.new }
    ensures same_colors { result ≢ 0 → colors.new ≡ colors.old }
    ensures same_indices { result ≢ 0 → indices.new ≡ indices.old }
    ensures same { result ≢ 0 → refined.new ≡ refined.old }
{
    let code = buffers_code(
        pixels.len(),
        usize::from(max_colors.min(256)),
        colors.len(),
        indices.len(),
    );
    if code != Code::Success as u32 {
        return code;
    }
    match refine_palette(alloc, pixels, max_colors) {
        Ok(palette) => {
            *refined = write_refined(&palette, colors, indices);
            Code::Success as u32
        }
        Err(error) => code_of(&error),
    }
}

/// Writes a refined palette and its indices to the buffers.
fn write_refined(palette: &RefinedPalette, colors: &mut [[u8; 3]], indices: &mut [u8]) -> Refined
    requires colors { length palette.now.colors.items ≤ length colors.old }
    requires indices { length palette.now.indices.items ≤ length indices.old }
    ensures error { result.error ≡ palette.now.error }
    ensures colors { take result.colors colors.new ≡ palette.now.colors.items }
    ensures colors_after { IsSameAfter result.colors colors.old colors.new }
    ensures indices { take (length palette.now.indices.items) indices.new
        ≡ palette.now.indices.items }
    ensures indices_after { IsSameAfter (length palette.now.indices.items)
        indices.old indices.new }
{
    colors[..palette.colors.len()].copy_from_slice(&palette.colors);
    indices[..palette.indices.len()].copy_from_slice(&palette.indices);
    Refined {
        colors: palette.colors.len(),
        error: palette.error,
    }
}
