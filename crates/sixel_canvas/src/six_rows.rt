//! Six rows of pixels, one after another without a gap.
ghost use Rattle.std.specs.Prelude.{◌≡◌, ℕ, ◌+◌, ◌-◌, ◌*◌, ◌≤◌, ◌<◌, List, [], length, true, false};
ghost use Rattle.std.specs.Prelude.{nat_lt, slice_index_or, IfOk, if◌then◌else◌};
ghost use Rattle.sixel_base.specs.Picture.{covers, is_set};
ghost use Rattle.sixel_canvas.specs.inside.Band.{AreDrawn, AreSixRows, covers_four, filled, stored};
ghost use Rattle.sixel_canvas.specs.Drawn.{covers_eight};

use crate::pixel_row::{fill, fill_by_copy, mix};
use std::alloc::{AllocError, Global};
use std::simd::prelude::*;

/// The longest run, in columns, that is drawn eight columns at once, without a branch for each row.
const NARROW: usize = 24;

/// Draws a sixel over the columns from `from` up to before `to` of six rows.
#[inline(always)]
pub fn draw_rows(
    pixels: &mut [[u8; 4]],
    cap: usize,
    from: usize,
    to: usize,
    bits: u8,
    color: [u8; 4],
)
    requires ordered { from ≤ to }
    requires within { to ≤ cap }
    requires rows { AreSixRows pixels.old cap }
    ensures { AreDrawn pixels.old pixels.new cap (covers from to 0 bits) color }
{
    if to - from == 1 {
        draw_one(pixels, cap, from, bits, color);
    } else if to - from > NARROW || to + 8 > cap {
        fill_rows(pixels, cap, from, to, bits, color);
    } else if to - from <= 8 {
        draw_eight(pixels, cap, from, to, bits, color);
    } else {
        draw_narrow(pixels, cap, from, to, bits, color);
    }
}

/// Draws a sixel of one column without a branch for each bit, and without reading a pixel.
///
/// For a bit that is not set, it draws the first set pixel again. Reading would wait for the sixel
/// before, which wrote pixels on its right too if it was drawn in lanes.
#[tactic(auto, using(crate::proofs::BandRows::row_steps))]
#[inline(always)]
fn draw_one(pixels: &mut [[u8; 4]], cap: usize, at: usize, bits: u8, color: [u8; 4])
    requires within { at < cap }
    requires rows { AreSixRows pixels.old cap }
    ensures { AreDrawn pixels.old pixels.new cap (covers at (at + 1) 0 bits) color }
{
    let first = first_row(bits);
    if first < 6 {
        let start = first * cap + at;
        pixels[start] = color;
        'drawn: for bit in 1..6 {
            let place = place_or(bits, bit, cap, at, start);
            pixels[place] = color;
        }
    }
}

/// Returns the first row with a set pixel, or a number above 5 if no row has one.
#[inline(always)]
fn first_row(bits: u8) -> usize
    ensures set { result < 6 → is_set bits result ≡ true }
    ensures above { (k : ℕ) → k < result → is_set bits k ≡ false }
{
    bits.trailing_zeros() as usize
}

/// Returns where the pixel of a bit is if the bit is set, or else this other place.
#[inline(always)]
fn place_or(bits: u8, bit: usize, cap: usize, at: usize, other: usize) -> usize
    requires bit { bit < 6 }
    requires within { at < cap }
    requires few { cap ≤ 1000008 }
    requires other { other < 6 * cap }
    ensures within { result < 6 * cap }
    ensures set { is_set bits bit ≡ true → result ≡ bit * cap + at }
    ensures other { is_set bits bit ≡ false → result ≡ other }
{
    if (bits >> bit) % 2 == 1 {
        bit * cap + at
    } else {
        other
    }
}

/// Draws a run eight columns at once.
///
/// The last eight may go past the run, where nothing changes.
#[inline(never)]
fn draw_narrow(pixels: &mut [[u8; 4]], cap: usize, from: usize, to: usize, bits: u8, color: [u8; 4])
    requires ordered { from ≤ to }
    requires within { to + 8 ≤ cap }
    requires rows { AreSixRows pixels.old cap }
    ensures { AreDrawn pixels.old pixels.new cap (covers from to 0 bits) color }
{
    'drawn: for i in 0..(to - from).div_ceil(8) {
        let start = from + 8 * i;
        draw_eight(pixels, cap, start, to.min(start + 8), bits, color);
    }
}

/// Draws a sixel over at most eight columns of six rows, without a branch for each.
#[inline(always)]
fn draw_eight(pixels: &mut [[u8; 4]], cap: usize, from: usize, to: usize, bits: u8, color: [u8; 4])
    requires ordered { from ≤ to }
    requires narrow { to ≤ from + 8 }
    requires within { from + 8 ≤ cap }
    requires rows { AreSixRows pixels.old cap }
    ensures { AreDrawn pixels.old pixels.new cap (covers from to 0 bits) color }
{
    mix_rows(pixels, cap, from, repeated(bits, to - from), color);
}

/// Returns eight sixels: `count` times this one, then blank ones.
#[inline(always)]
fn repeated(bits: u8, count: usize) -> [u8; 8]
    requires { count ≤ 8 }
    ensures { (j : ℕ) → slice_index_or result j 0 ≡ (if nat_lt j count then bits else 0) }
{
    u8x8::from_array([0, 1, 2, 3, 4, 5, 6, 7])
        .simd_lt(u8x8::splat(count as u8))
        .select(u8x8::splat(bits), u8x8::splat(0))
        .to_array()
}

/// Draws a sixel row by row: the first by a loop, the others by copies of it.
#[inline(never)]
pub fn fill_rows(
    pixels: &mut [[u8; 4]],
    cap: usize,
    from: usize,
    to: usize,
    bits: u8,
    color: [u8; 4],
)
    requires ordered { from ≤ to }
    requires within { to ≤ cap }
    requires rows { AreSixRows pixels.old cap }
    ensures { AreDrawn pixels.old pixels.new cap (covers from to 0 bits) color }
{
    let source = first_row(bits).min(5) * cap + from;
    'drawn: for bit in 0..6 {
        if (bits >> bit) % 2 == 1 {
            let start = bit * cap;
            fill_row(pixels, source, start + from, start + to, color);
        }
    }
}

/// Gives one color to the pixels from `from` up to before `to`.
///
/// Pixels from `source` on have it already if they come before: then they are copied.
#[inline(always)]
fn fill_row(pixels: &mut [[u8; 4]], source: usize, from: usize, to: usize, color: [u8; 4])
    requires ordered { from ≤ to }
    requires within { to ≤ length pixels.old }
    requires before { source < from → source + (to - from) ≤ from }
    requires colored { source < from → (i : ℕ) → source ≤ i → i < source + (to - from)
        → slice_index_or pixels.old i [] ≡ color }
    ensures len { length pixels.new ≡ length pixels.old }
    ensures filled { (d : List ℕ) (i : ℕ) → slice_index_or pixels.new i d
        ≡ filled from to color i (slice_index_or pixels.old i d) }
{
    if source < from {
        fill_by_copy(pixels, source, from, to);
    } else {
        fill(pixels, from, to, color);
    }
}

/// Draws eight sixels of one column each, from `from` on, in six rows.
///
/// The last four are often blank, because most colors change after a few columns.
#[inline(always)]
pub fn mix_rows(pixels: &mut [[u8; 4]], cap: usize, from: usize, sixels: [u8; 8], color: [u8; 4])
    requires within { from + 8 ≤ cap }
    requires rows { AreSixRows pixels.old cap }
    ensures { AreDrawn pixels.old pixels.new cap (covers_eight from sixels 0) color }
{
    let lanes = u8x8::from_array(sixels);
    let last = lanes.extract::<4, 4>().to_array();
    mix_four(pixels, cap, from, lanes.extract::<0, 4>().to_array(), color);
    if u32::from_le_bytes(last) > 0 {
        mix_four(pixels, cap, from + 4, last, color);
    }
}

/// Draws four sixels of one column each, from `from` on, in six rows.
#[tactic(auto, using(crate::proofs::BandSixels::mixed_more))]
#[inline(always)]
fn mix_four(pixels: &mut [[u8; 4]], cap: usize, from: usize, sixels: [u8; 4], color: [u8; 4])
    requires within { from + 4 ≤ cap }
    requires rows { AreSixRows pixels.old cap }
    ensures { AreDrawn pixels.old pixels.new cap (covers_four from sixels) color }
{
    'mixed: for bit in 0..6 {
        mix(pixels, bit * cap + from, sixels, bit, color);
    }
}

/// Returns six rows with more columns, background past those that they had.
#[tactic(auto, using(crate::proofs::BandRows::copied_more))]
pub fn widened(
    alloc: Global,
    pixels: &[[u8; 4]],
    cap: usize,
    wide: usize,
    background: [u8; 4],
) -> Result<Vec<[u8; 4]>, AllocError>
    requires more { cap ≤ wide }
    requires few { wide ≤ 1000008 }
    requires fits { length pixels.now ≡ 6 * cap }
    ensures len { IfOk result (λ new. length new.items ≡ 6 * wide) }
    ensures same { IfOk result (λ new. (column k : ℕ) → column < wide → k < 6
        → stored new.items wide background column k
        ≡ (if nat_lt column cap then stored pixels.now cap background column k
        else background)) }
{
    let mut new = Vec::with_capacity(alloc, 6 * wide)?;
    'copied: for row in 0..6 {
        let start = row * cap;
        new.extend_from_slice(&pixels[start..start + cap])?;
        new.resize(row * wide + wide, background)?;
    }
    Ok(new)
}
