//! Colors that a register shows: each channel is the byte of a whole percentage.

ghost use Rattle.std.specs.Prelude.{◌≡◌, ◌≤◌, ◌↔◌, ℕ, List, IfErr, IfOk, IsTrue, min};
ghost use Rattle.sixel_base.specs.Color.{byte_of, rgb};
ghost use Rattle.sixel_palette.specs.Palette.{HasSize, IsShown};
ghost use Rattle.sixel_palette.specs.Refined.{IsRegisterColor, percentage, register_color};
ghost use Rattle.sixel_palette.specs.inside.Codes.{AreColorCodes, IsListed};

use crate::palette::color_set::ColorSet;
use crate::palette::colors::{code_of, color_of};
use sixel_base::{Result, SixelError};
use std::alloc::Global;

/// The different colors of an image's opaque pixels.
#[derive(Debug, Clone, Copy, PartialEq, Eq)]
pub struct DistinctColors {
    /// How many there are, where 257 means more than 256.
    pub count: u16,
    /// Whether a register shows each of them, because its channels are whole percentages.
    pub are_exact: bool,
}

/// Counts the different colors of RGBA pixels, four bytes each.
///
/// Only opaque pixels count, those whose alpha is at least 128. If the colors are exact and at most
/// 256, a refined palette of 256 colors has them all, and a decoder shows the very pixels.
pub fn count_colors(alloc: Global, pixels: &[u8]) -> Result<DistinctColors>
    ensures memory { IfErr result (λ e. e ≡ SixelError.OutOfMemory) }
    ensures count { IfOk result (λ it. (n : ℕ)
        → HasSize (IsShown pixels.now) n → it.count ≡ min n 257) }
    ensures exact { IfOk result (λ it. IsTrue it.are_exact
        ↔ ((c : List ℕ) → IsShown pixels.now c → IsRegisterColor c)) }
{
    let colors = ColorSet::of(alloc, pixels)?;
    Ok(DistinctColors {
        count: colors.codes.len().min(257) as u16,
        are_exact: are_exact(&colors.codes),
    })
}

/// Returns whether a register shows the color of each code.
fn are_exact(codes: &[u32]) -> bool
    requires { AreColorCodes codes.now }
    ensures { IsTrue result ↔ ((c : List ℕ) → IsListed codes.now c → IsRegisterColor c) }
{
    for code in codes {
        if code_of(register_color(color_of(*code))) != *code {
            return false;
        }
    }
    true
}

/// The color that a register shows for a color.
pub fn register_color(color: [u8; 3]) -> [u8; 3]
    ensures { result ≡ register_color color }
{
    [
        percent_byte(percentage(color[0])),
        percent_byte(percentage(color[1])),
        percent_byte(percentage(color[2])),
    ]
}

/// The color that a register shows for three percentages.
pub fn percent_color(red: u64, green: u64, blue: u64) -> [u8; 3]
    requires red { red ≤ 100 }
    requires green { green ≤ 100 }
    requires blue { blue ≤ 100 }
    ensures shown { IsRegisterColor result }
    ensures value { result ≡ rgb red green blue }
{
    [percent_byte(red), percent_byte(green), percent_byte(blue)]
}

/// Returns a channel as a percentage, rounded.
pub fn percentage(channel: u8) -> u64
    ensures value { result ≡ percentage channel }
    ensures small { result ≤ 100 }
{
    (u64::from(channel) * 100 + 127) / 255
}

/// The byte of a percentage, rounded.
fn percent_byte(percent: u64) -> u8
    requires { percent ≤ 100 }
    ensures { result ≡ byte_of percent }
{
    ((percent * 255 + 50) / 100) as u8
}
