//! Filling a span of bytes with one color.
ghost use Rattle.std.specs.Prelude.{◌≡◌, ℕ, ◌+◌, ◌-◌, ◌*◌, ◌%◌, ◌^◌, ◌<◌, ◌≤◌, ◌++◌};
ghost use Rattle.std.specs.Prelude.{length, slice_index, take, drop, EachIndex};
ghost use Rattle.std.specs.Prelude.{vec_len, vec_capacity, IsOk, OnErr, OnOk};
ghost use Rattle.sixel_base.specs.Picture.{joined};

use std::alloc::AllocError;
use std::simd::prelude::*;

/// What a call returns that fails only if an allocation does.
pub type AllocResult<T> = Result<T, AllocError>;

/// Fills a span of RGBA pixels with one color: byte `i` becomes `color[i % 4]`.
///
/// The span may have any length, also one that is no multiple of four.
#[tactic(auto, using(crate::proofs::Spans::stores))]
#[inline(never)]
pub fn fill_rgba_span(span: &mut [u8], color: [u8; 4])
    ensures { EachIndex span.new (λ i. slice_index span.new i ≡ slice_index color (i % 4)) }
{
    let pixel = u8x4::from_array(color);
    let mut at = fill_by_fours(span, color);
    'by_pixel: while span.len() - at >= 4 {
        pixel.copy_to_slice(&mut span[at..]);
        at += 4;
    }
    fill_by_bytes(span, at, color);
}

/// Appends `count` pixels of one color.
#[tactic(auto, unfolding(sixel_base::specs::Picture::joined))]
pub fn add_pixels(bytes: &mut Vec<u8>, count: usize, color: [u8; 4]) -> AllocResult<()>
    requires { vec_len bytes.old + 4 * count < 2 ^ 63 }
    ensures ok { OnOk result (bytes.new.items ≡ bytes.old.items ++ joined (λ _. color) count) }
    ensures len { OnOk result (vec_len bytes.new ≡ vec_len bytes.old + 4 * count) }
    ensures within_capacity { vec_len bytes.old + 4 * count ≤ vec_capacity bytes.old → IsOk result }
    ensures refused { OnErr result (bytes.new.items ≡ bytes.old.items) }
    ensures capacity { vec_capacity bytes.old ≤ vec_capacity bytes.new }
{
    if count == 1 {
        return bytes.extend_from_slice(&color);
    }
    let start = bytes.len();
    bytes.resize(start + 4 * count, 0)?;
    fill_from(bytes, start, count, color);
    Ok(())
}

/// Fills the bytes from `start` on with `count` pixels of one color.
fn fill_from(bytes: &mut [u8], start: usize, count: usize, color: [u8; 4])
    requires { start + 4 * count ≡ length bytes.old }
    ensures { bytes.new ≡ take start bytes.old ++ joined (λ _. color) count }
{
    fill_rgba_span(&mut bytes[start..], color);
}

/// Fills the pixels from `from` up to before `to` with one color.
pub fn paint_pixels(bytes: &mut [u8], from: usize, to: usize, color: [u8; 4])
    requires ordered { from ≤ to }
    requires within { 4 * to ≤ length bytes.old }
    ensures { bytes.new ≡ take (4 * from) bytes.old ++ joined (λ _. color) (to - from)
        ++ drop (4 * to) bytes.old }
{
    fill_rgba_span(&mut bytes[4 * from..4 * to], color);
}

/// Fills a span four pixels at a time, and returns where it stopped.
#[tactic(auto, using(crate::proofs::Spans::stores))]
#[inline(always)]
fn fill_by_fours(span: &mut [u8], color: [u8; 4]) -> usize
    ensures inside { result ≤ length span.new }
    ensures whole { result % 4 ≡ 0 }
    ensures colored { (k : ℕ) → k < result
        → slice_index span.new k ≡ slice_index color (k % 4) }
{
    let four = four_pixels(color);
    let mut at = 0;
    'by_fours: while span.len() - at >= 16 {
        four.copy_to_slice(&mut span[at..]);
        at += 16;
    }
    at
}

/// Fills the rest of a span byte by byte.
#[inline(always)]
fn fill_by_bytes(span: &mut [u8], at: usize, color: [u8; 4])
    requires { (k : ℕ) → k < at → slice_index span.old k ≡ slice_index color (k % 4) }
    ensures { EachIndex span.new (λ i. slice_index span.new i ≡ slice_index color (i % 4)) }
{
    'by_byte: for i in at..span.len() {
        span[i] = color[i % 4];
    }
}

fn four_pixels(color: [u8; 4]) -> u8x16
    ensures lanes { length result ≡ 16 }
    ensures colored { (j : ℕ) → j < 16 → slice_index result j ≡ slice_index color (j % 4) }
{
    let [r, g, b, a] = color;
    u8x16::from_array([r, g, b, a, r, g, b, a, r, g, b, a, r, g, b, a])
}
