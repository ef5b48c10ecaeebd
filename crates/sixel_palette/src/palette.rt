//! The palette of an image, and a certificate that no palette is much better.
//!
//! It is chosen by a farthest-first traversal, a 2-approximation of the k-center problem.

ghost use Rattle.std.specs.Prelude.{◌≡◌, ◌≢◌, ◌-◌, ◌%◌, ◌<◌, ◌≤◌, ◌↔◌, ℕ, List, [], length};
ghost use Rattle.std.specs.Prelude.{All, Contains, IsTrue, OnOk, IfOk, IfErr};
ghost use Rattle.sixel_palette.specs.Palette.{IsShown, HasSize, IsPalette, palette_room};
ghost use Rattle.sixel_palette.specs.Palette.{IsNearest, AreIndices, IsError, AreWitnesses};
ghost use Rattle.sixel_palette.specs.PaletteBound.{AreApart, NoListIsBetter};
ghost use Rattle.sixel_palette.specs.Refined.{IsRefined, opaque_pixels};
ghost use Rattle.sixel_palette.specs.declared.palette.refined.RefinedPalette.{RefinedPalette};

mod assignment;
mod bins;
mod buckets;
mod color_counts;
mod color_set;
mod color_sums;
pub mod colors;
pub mod distance;
mod farthest;
mod farthest_on_top;
mod gain_cut;
pub mod indices;
mod lloyd;
pub mod nearest;
pub mod nearest_entry;
pub mod nearest_indices;
pub mod refined;
pub mod register_color;
mod relaxation;
pub mod spread;

use crate::palette::color_set::ColorSet;
use crate::palette::farthest::choose;
use crate::palette::indices::indices_of;
use crate::palette::refined::least_apart;
pub use crate::palette::refined::{RefinedPalette, refine_palette};
pub use crate::palette::register_color::{DistinctColors, count_colors};
use sixel_base::{Result, SixelError};
use std::alloc::Global;

/// A palette, each pixel's palette index, and a certificate of the palette's error.
#[derive(Debug, Drop)]
pub struct PaletteChoice {
    /// The entries: red, green, blue.
    pub colors: Vec<[u8; 3]>,
    /// The palette index of each pixel, 0 for a transparent pixel.
    pub indices: Vec<u8>,
    /// The greatest squared distance of an opaque pixel's color to its nearest entry.
    pub error: u32,
    /// One color more than there are entries, every two at least `error` apart.
    ///
    /// They are colors of opaque pixels. There are none if all such colors are entries.
    pub witnesses: Vec<[u8; 3]>,
}

/// Chooses the palette of an image of RGBA pixels, four bytes each.
///
/// ```rust
/// let choice = choose_palette(alloc, pixels, 16)?;
/// let is_certified = witnesses_hold(&choice.witnesses, choice.error);
/// ```
///
/// Only opaque pixels count, those whose alpha is at least 128; the others get index 0. The
/// palette has at most `max_colors` entries, clamped to 2 to 256. They are all colors of opaque
/// pixels, if these are not more. Otherwise they are chosen farthest first. The first entry is the
/// least color, by red, then green, then blue. Each further entry is the color that is farthest
/// from its nearest entry so far, the least of those. An opaque pixel's index is that of its
/// nearest entry, the first of those. A distance is the sum of the squared differences of the
/// channels.
///
/// Any palette of the same size has at least a fourth of this error, whatever its colors. The
/// witnesses prove it, because two of them share an entry of any such palette.
///
/// # Errors
///
/// `BufferSizeMismatch` if the length is not a multiple of four, before anything is allocated.
/// It expects the length rounded down. Otherwise only `OutOfMemory`.
pub fn choose_palette(alloc: Global, pixels: &[u8], max_colors: u16) -> Result<PaletteChoice>
    ensures mismatch { let len = length pixels.now in
        len % 4 ≢ 0 → result ≡ Err (SixelError.BufferSizeMismatch (len - len % 4) len) }
    ensures memory { length pixels.now % 4 ≡ 0 → IfErr result (λ e. e ≡ SixelError.OutOfMemory) }

    // The palette, the pixels' palette indices, and its error.
    ensures bytes { OnOk result (All (λ byte. byte < 256) pixels.now) }
    ensures palette { IfOk result (λ p. IsPalette pixels.now max_colors p.colors.items) }
    ensures indices { IfOk result (λ p. AreIndices pixels.now p.colors.items p.indices.items) }
    ensures error { IfOk result (λ p. IsError (IsShown pixels.now) p.colors.items p.error) }

    // Where there is room for the colors of all opaque pixels, the entries are these.
    ensures occur { IfOk result (λ p. All (IsShown pixels.now) p.colors.items) }
    ensures complete { IfOk result (λ p. (n : ℕ) → HasSize (IsShown pixels.now) n
        → n ≤ palette_room max_colors
        → (c : List ℕ) → IsShown pixels.now c → Contains p.colors.items c) }
    ensures empty { IfOk result (λ p.
        ((c : List ℕ) → ¬ IsShown pixels.now c) → p.colors.items ≡ []) }

    // The certificate.
    ensures witnesses { IfOk result (λ p.
        AreWitnesses (IsShown pixels.now) p.colors.items p.witnesses.items) }
    ensures witnesses_occur { IfOk result (λ p. All (IsShown pixels.now) p.witnesses.items) }
    ensures witnesses_apart { IfOk result (λ p. AreApart p.witnesses.items p.error) }
    ensures bound { IfOk result (λ p. (c : List ℕ) → IsShown pixels.now c
        → NoListIsBetter (IsShown pixels.now) (length p.colors.items) p.error) }
{
    let beyond = pixels.len() % 4;
    if beyond != 0 {
        return Err(SixelError::BufferSizeMismatch {
            expected: pixels.len() - beyond,
            actual: pixels.len(),
        });
    }
    let colors = ColorSet::of(alloc, pixels)?;
    let selection = choose(alloc, &colors.codes, usize::from(max_colors.clamp(2, 256)))?;
    let indices = indices_of(alloc, pixels, &colors, &selection.indices)?;
    let witnesses = selection.witnesses(alloc, &colors.codes)?;
    Ok(PaletteChoice {
        error: selection.error(&colors.codes),
        colors: selection.colors,
        indices,
        witnesses,
    })
}

/// Returns whether every two witnesses have a squared distance of at least `error`.
///
/// If so, then for any list of fewer colors some witness has to each of these a squared distance of
/// at least a fourth of `error`. It does not allocate.
pub fn witnesses_hold(witnesses: &[[u8; 3]], error: u32) -> bool
    ensures apart { IsTrue result ↔ AreApart witnesses.now error }
    ensures bound { IsTrue result → (n : ℕ) → n < length witnesses.now
        → NoListIsBetter (Contains witnesses.now) n error }
{
    witnesses.len() < 2 || least_apart(witnesses) >= error
}

/// A law, without work: images of the same opaque colors have the same palette.
///
/// A color has one nearest entry, and a set of colors one size.
pub fn one_palette()
    ensures palette { (p q : List ℕ) (max_colors : ℕ) (xs ys : List (List ℕ)) → All (λ b. b < 256) p
        → ((c : List ℕ) → IsShown p c → IsShown q c) → ((c : List ℕ) → IsShown q c → IsShown p c)
        → IsPalette p max_colors xs → IsPalette q max_colors ys → xs ≡ ys }
    ensures index { (entries : List (List ℕ)) (c : List ℕ) (i j : ℕ)
        → IsNearest entries c i → IsNearest entries c j → i ≡ j }
    ensures size { (p : List ℕ) (m n : ℕ) → HasSize (IsShown p) m → HasSize (IsShown p) n → m ≡ n }
{}

/// A law, without work: images of the same opaque pixels have the same refined palette.
///
/// Their order is no part of it, nor are transparent pixels.
pub fn one_refined_palette()
    ensures initial { (p q : List ℕ) (max_colors : ℕ) (x y : RefinedPalette)
        → All (λ b. b < 256) p → ((c : List ℕ) → IsShown p c → IsShown q c)
        → ((c : List ℕ) → IsShown q c → IsShown p c)
        → ((number : List ℕ → ℕ) → opaque_pixels p number ≡ opaque_pixels q number)
        → IsRefined p max_colors x → IsRefined q max_colors y → x.initial.items ≡ y.initial.items }
    ensures colors { (p q : List ℕ) (max_colors : ℕ) (x y : RefinedPalette)
        → All (λ b. b < 256) p → ((c : List ℕ) → IsShown p c → IsShown q c)
        → ((c : List ℕ) → IsShown q c → IsShown p c)
        → ((number : List ℕ → ℕ) → opaque_pixels p number ≡ opaque_pixels q number)
        → IsRefined p max_colors x → IsRefined q max_colors y → x.colors.items ≡ y.colors.items }
{}
