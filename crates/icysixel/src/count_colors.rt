//! The call that counts the different colors of an image.

ghost use Rattle.std.specs.Prelude.{◌≡◌, ◌≢◌, ◌↔◌, ℕ, List, min};
ghost use Rattle.sixel_palette.specs.{Palette.{HasSize, IsShown}, Refined.IsRegisterColor};

use crate::code::{Code, code_of};
use icy_sixel::count_colors;
use std::alloc::Global;

/// The different colors of an image's opaque pixels.
#[repr(C)]
#[derive(Clone, Copy)]
pub struct Distinct {
    /// How many there are, where 257 means more than 256.
    pub count: u16,
    /// 1 if a register shows each of them.
    pub are_exact: u8,
}

/// Counts the different colors of opaque pixels.
#[unsafe(no_mangle)]
pub extern "C" fn icysixel_count_colors(
    alloc: Global,
    pixels: &[u8],
    distinct: &mut Distinct,
) -> u32
    ensures memory { result ≢ 0 → result ≡ 8 }
    ensures count { result ≡ 0 → (n : ℕ) → HasSize (IsShown pixels.now) n
        → distinct.new.count ≡ min n 257 }
    ensures exact { result ≡ 0 → (distinct.new.are_exact ≡ 1)
        ↔ ((c : List ℕ) → IsShown pixels.now c → IsRegisterColor c) }
    ensures same { result ≢ 0 → distinct.new ≡ distinct.old }
{
    match count_colors(alloc, pixels) {
        Ok(found) => {
            *distinct = Distinct {
                count: found.count,
                are_exact: u8::from(found.are_exact),
            };
            Code::Success as u32
        }
        Err(error) => code_of(&error),
    }
}
