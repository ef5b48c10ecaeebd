//! Colors with their pixels in bins: one of each color, or a histogram of many colors.

ghost use Rattle.std.specs.Prelude.{◌≡◌, ◌+◌, ◌*◌, ◌/◌, ◌<◌, ◌≤◌, ℕ, List, length, All, IfOk, OnOk};
ghost use Rattle.std.specs.Prelude.{Bool, true, slice_index, if◌then◌else◌};
ghost use Rattle.std.specs.List.Sorted.{IsStrictlyIncreasing};
ghost use Rattle.sixel_base.specs.Limits.{area_limit};
ghost use Rattle.sixel_palette.specs.inside.{Assignment.IsWeighed, Bins.{IsTable, corners_of}};
ghost use Rattle.sixel_palette.specs.inside.{Boxes.binned_pixels, Codes.AreColorCodes};
ghost use Rattle.sixel_palette.specs.inside.Sums.{AreBinsOf, IsWholeBin, binned_sums};
ghost use Rattle.sixel_palette.specs.inside.Sums.{counted_pixels, first_counted, total};
ghost use Rattle.sixel_palette.specs.{GainCut.corner, Lloyd.is_corner};

use crate::palette::color_sums::ColorSums;
use crate::palette::colors::color_of;
use std::alloc::{AllocError, Global};

/// How many bins have the same red.
const SLAB: usize = 4096;

/// The greatest number of colors of which each is a bin of its own.
const FEW_COLORS: usize = 4096;

/// The pixels of a color, or of the colors whose channels have the same six highest bits.
#[derive(Clone, Copy)]
pub struct Bin {
    pub corner: [u8; 3],
    pub sums: ColorSums,
}

/// The bins of the colors, those without a pixel left out.
pub fn bins_of(alloc: Global, codes: &[u32], counts: &[u32]) -> Result<Vec<Bin>, AllocError>
    requires small { AreColorCodes codes.now }
    requires ascending { IsStrictlyIncreasing codes.now }
    requires weighed { IsWeighed codes.now counts.now }
    ensures few { IfOk result (λ bins. binned_pixels bins.items ≤ area_limit) }
    ensures bins { IfOk result (λ bins.
        AreBinsOf (counted_pixels codes.now counts.now) (λ _. true) bins.items) }
    ensures whole { IfOk result (λ bins.
        All (IsWholeBin (counted_pixels codes.now counts.now)) bins.items) }
{
    if codes.len() > FEW_COLORS {
        histogram(alloc, codes, counts)
    } else {
        color_bins(alloc, codes, counts)
    }
}

/// A bin for each color.
#[tactic(auto, using(crate::proofs::refinement::Bins::bin_counts))]
fn color_bins(alloc: Global, codes: &[u32], counts: &[u32]) -> Result<Vec<Bin>, AllocError>
    requires small { AreColorCodes codes.now }
    requires ascending { IsStrictlyIncreasing codes.now }
    requires weighed { IsWeighed codes.now counts.now }
    ensures few { IfOk result (λ bins. binned_pixels bins.items ≤ area_limit) }
    ensures bins { IfOk result (λ bins. AreBinsOf
        (first_counted 1 codes.now counts.now (length codes.now)) (λ _. true) bins.items) }
    ensures whole { IfOk result (λ bins. All
        (IsWholeBin (first_counted 1 codes.now counts.now (length codes.now))) bins.items) }
{
    let mut bins = Vec::with_capacity(alloc, codes.len())?;
    for index in 0..codes.len() {
        let corner = color_of(codes[index]);
        let sums = ColorSums::of(corner, counts[index]);
        bins.push(Bin { corner, sums })?;
    }
    Ok(bins)
}

/// The bins of colors by the six highest bits of each channel.
///
/// The codes rise, so the bins of one red come one after the other.
#[tactic(auto, using(crate::proofs::refinement::Bins::bin_counts))]
#[inline(never)]
fn histogram(alloc: Global, codes: &[u32], counts: &[u32]) -> Result<Vec<Bin>, AllocError>
    requires small { AreColorCodes codes.now }
    requires ascending { IsStrictlyIncreasing codes.now }
    requires weighed { IsWeighed codes.now counts.now }
    ensures few { IfOk result (λ bins. binned_pixels bins.items ≤ area_limit) }
    ensures bins { IfOk result (λ bins. AreBinsOf
        (first_counted 4 codes.now counts.now (length codes.now)) (λ _. true) bins.items) }
    ensures whole { IfOk result (λ bins. All
        (IsWholeBin (first_counted 4 codes.now counts.now (length codes.now))) bins.items) }
{
    let mut positions = vec![in alloc; 0; SLAB]?;
    let mut bins = Vec::new(alloc);
    for index in 0..codes.len() {
        let color = color_of(codes[index]);
        let sums = ColorSums::of(color, counts[index]);
        add_color(&mut bins, &mut positions, color, sums)?;
    }
    Ok(bins)
}

/// Adds the pixels of a color to its bin.
#[inline(always)]
fn add_color(
    bins: &mut Vec<Bin>,
    positions: &mut [usize],
    color: [u8; 3],
    sums: ColorSums,
) -> Result<(), AllocError>
    requires positions { length positions.old ≡ 4096 }
    requires few { binned_pixels bins.old.items + sums.count ≤ area_limit }
    requires table { IsTable (corners_of bins.old.items) positions.old
        (slice_index (corner 4 color) 0) }
    ensures pixels { OnOk result
        (binned_pixels bins.new.items ≡ binned_pixels bins.old.items + sums.count) }
    ensures sums { OnOk result ((contains : List ℕ → Bool) (k : ℕ)
        → binned_sums contains bins.new.items k ≡ binned_sums contains bins.old.items k
        + (if contains (corner 4 color) then total sums k else 0)) }
    ensures table { OnOk result ((red : ℕ) → slice_index (corner 4 color) 0 ≤ red
        → IsTable (corners_of bins.old.items) positions.old red
        → IsTable (corners_of bins.new.items) positions.new red) }
    ensures positions { OnOk result (length positions.new ≡ length positions.old) }
{
    let corner = [color[0] / 4, color[1] / 4, color[2] / 4];
    let slot = usize::from(corner[1]) * 64 + usize::from(corner[2]);
    let position = positions[slot];
    if position < bins.len() && is_corner(bins[position].corner, corner) {
        bins[position].sums = bins[position].sums.plus(sums);
        return Ok(());
    }
    positions[slot] = bins.len();
    bins.push(Bin { corner, sums })?;
    Ok(())
}

/// Returns whether two corners are the same.
#[inline(always)]
fn is_corner(a: [u8; 3], b: [u8; 3]) -> bool
    ensures { result ≡ is_corner a b }
{
    a[0] == b[0] && a[1] == b[1] && a[2] == b[2]
}
