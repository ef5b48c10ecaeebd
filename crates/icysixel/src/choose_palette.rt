//! The call that chooses the palette of an image.

ghost use Rattle.std.specs.Prelude.{◌≡◌, ◌≢◌, ◌+◌, ◌/◌, ◌%◌, ◌<◌, ◌≤◌, ℕ, List};
ghost use Rattle.std.specs.Prelude.{All, Contains, length, take};
ghost use Rattle.sixel_palette.specs.Palette.{IsShown, HasSize, IsPalette, palette_room};
ghost use Rattle.sixel_palette.specs.Palette.{AreIndices, IsError, AreWitnesses};
ghost use Rattle.sixel_palette.specs.PaletteBound.{AreApart, NoListIsBetter};
ghost use Rattle.icysixel.specs.RefinedOutput.{IsSameAfter};

use crate::code::{Code, code_of};
use icy_sixel::{PaletteChoice, choose_palette};
use std::alloc::Global;

/// The properties of a palette, without its colors.
#[repr(C)]
#[derive(Clone, Copy)]
pub struct Palette {
    pub colors: usize,
    pub witnesses: usize,
    pub error: u32,
}

/// Writes the palette of pixels, its certificate and the index of each pixel.
#[unsafe(no_mangle)]
pub extern "C" fn icysixel_choose_palette(
    alloc: Global,
    pixels: &[u8],
    max_colors: u16,
    colors: &mut [[u8; 3]],
    witnesses: &mut [[u8; 3]],
    indices: &mut [u8],
    palette: &mut Palette,
) -> u32
    ensures mismatch { length pixels.now % 4 ≢ 0 → result ≡ 11 }
    ensures few_colors { length pixels.now % 4 ≡ 0
        → length colors.old < palette_room max_colors → result ≡ 6 }
    ensures few_witnesses { length pixels.now % 4 ≡ 0
        → length witnesses.old < palette_room max_colors + 1 → result ≡ 6 }
    ensures few_indices { length pixels.now % 4 ≡ 0
        → length indices.old < length pixels.now / 4 → result ≡ 6 }
    ensures memory { length pixels.now % 4 ≡ 0
        → palette_room max_colors ≤ length colors.old
        → palette_room max_colors + 1 ≤ length witnesses.old
        → length pixels.now / 4 ≤ length indices.old → result ≢ 0 → result ≡ 8 }

    // The palette, the indices of the pixels, and its error.
    ensures palette { result ≡ 0 → IsPalette pixels.now max_colors
        (take palette.new.colors colors.new) }
    ensures indices { result ≡ 0 → AreIndices pixels.now
        (take palette.new.colors colors.new)
        (take (length pixels.now / 4) indices.new) }
    ensures error { result ≡ 0 → IsError (IsShown pixels.now)
        (take palette.new.colors colors.new) palette.new.error }

    // If all shown colors fit, they are the entries.
    ensures occur { result ≡ 0 → All (IsShown pixels.now)
        (take palette.new.colors colors.new) }
    ensures complete { (n : ℕ) (c : List ℕ) → result ≡ 0 → HasSize (IsShown pixels.now) n
        → n ≤ palette_room max_colors → IsShown pixels.now c
        → Contains (take palette.new.colors colors.new) c }
    ensures empty { ((c : List ℕ) → ¬ IsShown pixels.now c) → result ≡ 0
        → palette.new.colors ≡ 0 }

    // The certificate.
    ensures witnesses { result ≡ 0 → AreWitnesses (IsShown pixels.now)
        (take palette.new.colors colors.new)
        (take palette.new.witnesses witnesses.new) }
    ensures witnesses_occur { result ≡ 0 → All (IsShown pixels.now)
        (take palette.new.witnesses witnesses.new) }
    ensures witnesses_apart { result ≡ 0 → AreApart
        (take palette.new.witnesses witnesses.new) palette.new.error }
    ensures bound { (c : List ℕ) → result ≡ 0 → IsShown pixels.now c
        → NoListIsBetter (IsShown pixels.now) palette.new.colors palette.new.error }

    // What is written to the buffers.
    ensures colors { result ≡ 0
        → length (take palette.new.colors colors.new) ≡ palette.new.colors }
    ensures witness_count { result ≡ 0
        → length (take palette.new.witnesses witnesses.new) ≡ palette.new.witnesses }
    ensures colors_after { result ≡ 0 → IsSameAfter palette.new.colors colors.old colors.new }
    ensures witnesses_after { result ≡ 0
        → IsSameAfter palette.new.witnesses witnesses.old witnesses.new }
    ensures indices_after { result ≡ 0
        → IsSameAfter (length pixels.now / 4) indices.old indices.new }
    ensures no_colors { result ≢ 0 → colors.new ≡ colors.old }
    ensures no_witnesses { result ≢ 0 → witnesses.new ≡ witnesses.old }
    ensures no_indices { result ≢ 0 → indices.new ≡ indices.old }
    ensures told { result ≢ 0 → palette.new ≡ palette.old }
{
    let most = usize::from(max_colors.clamp(2, 256));
    let code = buffers_code(pixels.len(), most, colors.len(), indices.len());
    if code != Code::Success as u32 {
        return code;
    }
    if witnesses.len() <= most {
        return Code::BufferTooSmall as u32;
    }
    match choose_palette(alloc, pixels, max_colors) {
        Ok(choice) => {
            *palette = write_choice(&choice, colors, witnesses, indices);
            Code::Success as u32
        }
        Err(error) => code_of(&error),
    }
}

/// Returns success if the pixels are whole and the buffers are large enough.
///
/// Else it returns the code of the error.
pub fn buffers_code(bytes: usize, capacity: usize, colors: usize, indices: usize) -> u32
    ensures mismatch { bytes % 4 ≢ 0 → result ≡ 11 }
    ensures few_colors { bytes % 4 ≡ 0 → colors < capacity → result ≡ 6 }
    ensures few_indices { bytes % 4 ≡ 0 → indices < bytes / 4 → result ≡ 6 }
    ensures enough { bytes % 4 ≡ 0 → capacity ≤ colors → bytes / 4 ≤ indices
        → result ≡ 0 }
    ensures whole { result ≡ 0 → bytes % 4 ≡ 0 }
    ensures colors { result ≡ 0 → capacity ≤ colors }
    ensures indices { result ≡ 0 → bytes / 4 ≤ indices }
{
    if bytes % 4 != 0 {
        return Code::BufferMismatch as u32;
    }
    if colors < capacity || indices < bytes / 4 {
        return Code::BufferTooSmall as u32;
    }
    Code::Success as u32
}

/// Writes a palette, its certificate and its indices to the starts of the buffers.
fn write_choice(
    choice: &PaletteChoice,
    colors: &mut [[u8; 3]],
    witnesses: &mut [[u8; 3]],
    indices: &mut [u8],
) -> Palette
    requires colors { length choice.now.colors.items ≤ length colors.old }
    requires witnesses { length choice.now.witnesses.items ≤ length witnesses.old }
    requires indices { length choice.now.indices.items ≤ length indices.old }
    ensures error { result.error ≡ choice.now.error }
    ensures color_count { result.colors ≡ length choice.now.colors.items }
    ensures colors { take result.colors colors.new ≡ choice.now.colors.items }
    ensures colors_after { IsSameAfter result.colors colors.old colors.new }
    ensures witness_count { result.witnesses ≡ length choice.now.witnesses.items }
    ensures witnesses { take result.witnesses witnesses.new
        ≡ choice.now.witnesses.items }
    ensures witnesses_after { IsSameAfter result.witnesses witnesses.old witnesses.new }
    ensures indices { take (length choice.now.indices.items) indices.new
        ≡ choice.now.indices.items }
    ensures indices_after { IsSameAfter (length choice.now.indices.items)
        indices.old indices.new }
{
    colors[..choice.colors.len()].copy_from_slice(&choice.colors);
    witnesses[..choice.witnesses.len()].copy_from_slice(&choice.witnesses);
    indices[..choice.indices.len()].copy_from_slice(&choice.indices);
    Palette {
        colors: choice.colors.len(),
        witnesses: choice.witnesses.len(),
        error: choice.error,
    }
}
