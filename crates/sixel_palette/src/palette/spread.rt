//! Entries of a refined palette moved away from the mean color of an image, for error diffusion.

ghost use Rattle.std.specs.{List.sum, Prelude.{◌≡◌, ◌≤◌, ℕ, List, IfOk, length, map, slice_index}};
ghost use Rattle.sixel_base.specs.Limits.{area_limit};
ghost use Rattle.sixel_palette.specs.{ColorSums.share, Refined.sum_to, Spread.is_flat};
ghost use Rattle.sixel_palette.specs.Spread.{spread_amount, spread_channel, spread_color};
ghost use Rattle.sixel_palette.specs.inside.{Assignment.IsWeighed, Codes.AreColorCodes};
ghost use Rattle.sixel_palette.specs.inside.{Nearest.AreNearest, Refinement.AreRefinedEntries};
ghost use Rattle.sixel_palette.specs.inside.Refinement.{AreSpreadEntries, near_count};
ghost use Rattle.sixel_palette.specs.inside.Sums.{counted_pixels, total};

use crate::dither::Dither;
use crate::palette::assignment::{Assignment, assign};
use crate::palette::color_counts::total_of;
use crate::palette::color_sums::ColorSums;
use crate::palette::colors::color_of;
use crate::palette::refined::RefinedEntries;
use crate::palette::register_color::register_color;
use std::alloc::{AllocError, Global};

/// The greatest squared distance of a color that is near to its entry.
const NEAR: u32 = 12;

/// Returns by how many 32nds entries are spread for this dithering.
pub fn spread_amount(dither: Dither, max_colors: usize) -> u8
    ensures { result ≡ spread_amount dither max_colors }
{
    match (dither, max_colors) {
        (Dither::Diffusion { .. }, 0..=2) => 16,
        (Dither::Diffusion { .. }, 3..=16) => 2,
        (Dither::Diffusion { .. }, 17..=64) => 1,
        _ => 0,
    }
}

/// Returns whether at least a quarter of the pixels are near to their entries.
pub fn is_flat(counts: &[u32], squares: &[u32]) -> bool
    requires same { length squares.now ≡ length counts.now }
    requires small { sum counts.now ≤ area_limit }
    ensures { (entries : List (List ℕ)) (codes indices : List ℕ)
        → length counts.now ≡ length codes → AreNearest entries codes squares.now indices
        → result ≡ is_flat (counted_pixels codes counts.now).sum entries }
{
    total_of(counts) <= 4 * near_pixels(counts, squares)
}

/// Returns the number of pixels whose entries are near.
#[tactic(auto, using(crate::proofs::refinement::Sums::sums))]
#[inline(never)]
fn near_pixels(counts: &[u32], squares: &[u32]) -> u64
    requires same { length squares.now ≡ length counts.now }
    requires small { sum counts.now ≤ area_limit }
    ensures few { result ≤ area_limit }
    ensures near { result ≡ sum_to
        (λ k. near_count (slice_index counts.now k) (slice_index squares.now k))
        (length counts.now) }
{
    let mut near = 0;
    for position in 0..counts.len() {
        near += near_count(counts[position], squares[position]);
    }
    near
}

/// Returns the count of a color whose entry is near, 0 of any other.
fn near_count(count: u32, squared: u32) -> u64
    ensures value { result ≡ near_count count squared }
    ensures few { result ≤ count }
{
    if squared <= NEAR { u64::from(count) } else { 0 }
}

impl RefinedEntries {
    /// Moves the entries away from the mean color by 32nds of the difference.
    ///
    /// Those of flat art stay. Error diffusion mixes entries, so entries that lie farther out show
    /// more contrast.
    pub fn spread(
        self,
        alloc: Global,
        codes: &[u32],
        counts: &[u32],
        amount: u8,
    ) -> Result<RefinedEntries, AllocError>
        requires small { AreColorCodes codes.now }
        requires weighed { IsWeighed codes.now counts.now }
        requires few { length self.colors.items ≤ 256 }
        ensures { IfOk result (λ entries. (room : ℕ)
            → AreRefinedEntries codes.now counts.now room self
            → AreSpreadEntries codes.now counts.now room amount entries) }
    {
        if amount == 0 || self.is_flat {
            return Ok(self);
        }
        let mean = color_of(sums_of(codes, counts).mean_code());
        let mut spread = Vec::with_capacity(alloc, self.colors.len())?;
        spread.extend_from_slice(&self.colors)?;
        spread_colors(&mut spread, mean, amount);
        let assignment = assign(alloc, codes, counts, &spread)?;
        let Assignment {
            colors,
            traversal,
            error,
        } = assignment;
        Ok(RefinedEntries {
            colors,
            indices: traversal.indices,
            error,
            ..self
        })
    }
}

/// The sums of the pixels of all colors.
#[tactic(auto, using(crate::proofs::refinement::Sums::sums))]
fn sums_of(codes: &[u32], counts: &[u32]) -> ColorSums
    requires small { AreColorCodes codes.now }
    requires weighed { IsWeighed codes.now counts.now }
    ensures { (k : ℕ) → total result k ≡ (counted_pixels codes.now counts.now).sum (share k) }
{
    let mut sums = ColorSums::none();
    for position in 0..codes.len() {
        sums = sums.plus(ColorSums::of(color_of(codes[position]), counts[position]));
    }
    sums
}

/// Moves colors away from a mean, each to a color that a register shows.
fn spread_colors(colors: &mut [[u8; 3]], mean: [u8; 3], amount: u8)
    ensures { colors.new ≡ map (spread_color amount mean) colors.old }
{
    for position in 0..colors.len() {
        let color = colors[position];
        colors[position] = spread_color(color, mean, amount);
    }
}

/// The color that a register shows for a color moved away from a mean.
fn spread_color(color: [u8; 3], mean: [u8; 3], amount: u8) -> [u8; 3]
    ensures { result ≡ spread_color amount mean color }
{
    register_color([
        spread_channel(color[0], mean[0], amount),
        spread_channel(color[1], mean[1], amount),
        spread_channel(color[2], mean[2], amount),
    ])
}

/// A channel moved away from a mean by 32nds of the difference.
fn spread_channel(channel: u8, mean: u8, amount: u8) -> u8
    ensures { result ≡ spread_channel amount mean channel }
{
    let moved = u32::from(channel.abs_diff(mean)) * u32::from(amount) / 32;
    if channel < mean {
        u32::from(channel).saturating_sub(moved) as u8
    } else {
        (u32::from(channel) + moved).min(255) as u8
    }
}
