//! A row of pixels, drawn on by a run or by four sixels at once.

ghost use Rattle.std.specs.{Int.{to_le_bytes, w32}, Prelude.{◌≡◌, ℕ, ◌+◌, ◌-◌, ◌≤◌, ◌<◌, List, []}};
ghost use Rattle.std.specs.Prelude.{length, slice_index, slice_index_or, if◌then◌else◌};
ghost use Rattle.sixel_base.specs.Picture.{is_set};
ghost use Rattle.sixel_canvas.specs.inside.Band.{filled, mixed_at};

use std::simd::prelude::*;

/// Gives one color to the pixels from `from` up to before `to`.
#[inline(always)]
pub fn fill(pixels: &mut [[u8; 4]], from: usize, to: usize, color: [u8; 4])
    requires ordered { from ≤ to }
    requires within { to ≤ length pixels.old }
    ensures len { length pixels.new ≡ length pixels.old }
    ensures filled { (d : List ℕ) (i : ℕ) → slice_index_or pixels.new i d
        ≡ filled from to color i (slice_index_or pixels.old i d) }
{
    'filled: for i in from..to {
        pixels[i] = color;
    }
}

/// Gives one color to the pixels from `from` up to before `to`, by a copy of pixels that have it.
///
/// These begin at `source`. A copy stores more pixels at once than a loop does.
#[tactic(auto, using(crate::proofs::RowPixels::parts, std::proofs::lemmas::List::get_or_default))]
#[inline(always)]
pub fn fill_by_copy(pixels: &mut [[u8; 4]], source: usize, from: usize, to: usize)
    requires ordered { from ≤ to }
    requires within { to ≤ length pixels.old }
    requires before { source + (to - from) ≤ from }
    ensures len { length pixels.new ≡ length pixels.old }
    ensures filled { (color : List ℕ) → ((i : ℕ) → source ≤ i → i < source + (to - from)
        → slice_index_or pixels.old i [] ≡ color)
        → (d : List ℕ) (i : ℕ) → slice_index_or pixels.new i d
        ≡ filled from to color i (slice_index_or pixels.old i d) }
{
    let count = to - from;
    let (front, back) = pixels.split_at_mut(from);
    back[..count].copy_from_slice(&front[source..source + count]);
}

/// Gives one color to those of four pixels from `at` on whose sixel has the bit.
#[tactic(auto, using(crate::proofs::Lanes::sets))]
#[inline(always)]
pub fn mix(pixels: &mut [[u8; 4]], at: usize, sixels: [u8; 4], bit: usize, color: [u8; 4])
    requires within { at + 4 ≤ length pixels.old }
    requires six { bit < 6 }
    ensures len { length pixels.new ≡ length pixels.old }
    ensures mixed { (d : List ℕ) (i : ℕ) → slice_index_or pixels.new i d
        ≡ mixed_at at sixels bit color i (slice_index_or pixels.old i d) }
{
    let old = [
        number(pixels[at]),
        number(pixels[at + 1]),
        number(pixels[at + 2]),
        number(pixels[at + 3]),
    ];
    let new = chosen(sixels, bit, number(color), old);
    'mixed: for j in 0..4 {
        pixels[at + j] = new[j].to_le_bytes();
    }
}

/// Returns lane by lane the new number where the sixel has the bit, and else the old one.
///
/// Four lanes become a shift and a blend. LLVM makes two instructions more of eight, and a branch
/// of a choice between arrays.
#[inline(always)]
fn chosen(sixels: [u8; 4], bit: usize, new: u32, old: [u32; 4]) -> [u32; 4]
    requires { bit < 6 }
    ensures { (k : ℕ) → k < 4 → slice_index result k
        ≡ (if is_set (slice_index sixels k) bit then new else slice_index old k) }
{
    let lanes = u8x4::from_array(sixels).cast::<u32>();
    let tests = (lanes >> u32x4::splat(bit as u32)) & u32x4::splat(1);
    tests
        .simd_eq(u32x4::splat(1))
        .select(u32x4::splat(new), u32x4::from_array(old))
        .to_array()
}

/// Returns the pixel as one number.
#[inline(always)]
fn number(pixel: [u8; 4]) -> u32
    ensures { to_le_bytes w32 result ≡ pixel }
{
    u32::from_le_bytes(pixel)
}
