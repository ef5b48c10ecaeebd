//! Lloyd's algorithm: each entry moves to the mean of the pixels that have it.
//!
//! S. P. Lloyd, "Least squares quantization in PCM", IEEE Transactions on Information Theory 28
//! (1982), 129-137. Here all pixels of a bin have the entry that is nearest to their mean.

ghost use Rattle.std.specs.Prelude.{◌≡◌, ◌<◌, ◌≤◌, ℕ, [], true, length, All, IfOk, slice_index};
ghost use Rattle.std.specs.Prelude.{slice_index_or};
ghost use Rattle.sixel_base.specs.Limits.{area_limit};
ghost use Rattle.sixel_palette.specs.declared.palette.bins.Bin.{Bin};
ghost use Rattle.sixel_palette.specs.declared.palette.color_sums.ColorSums.{ColorSums};
ghost use Rattle.sixel_palette.specs.{ColorSums.{Pixels, mean_or}, Lloyd.improved_entries};
ghost use Rattle.sixel_palette.specs.{Lloyd.{mean_bytes, moved_entries}, Refined.IsRegisterColor};
ghost use Rattle.sixel_palette.specs.inside.Assignment.{IsAssignment, IsWeighed};
ghost use Rattle.sixel_palette.specs.inside.Boxes.{binned_pixels, summed_pixels};
ghost use Rattle.sixel_palette.specs.inside.{Codes.{AreColorCodes, color_of}, Counts.counted_error};
ghost use Rattle.sixel_palette.specs.inside.Sums.{AreBinsOf, AreIndicesBy, IsWholeBin};
ghost use Rattle.sixel_palette.specs.inside.Sums.{counted_pixels, entry_sums, total};

use crate::palette::assignment::{Assignment, assign};
use crate::palette::bins::Bin;
use crate::palette::color_sums::ColorSums;
use crate::palette::farthest::Traversal;
use std::alloc::{AllocError, Global};

/// Moves the entries to the means of their bins, twice, if that lowers the summed squared error.
///
/// At most one assignment is stored at a time.
pub fn improve(
    alloc: Global,
    codes: &[u32],
    counts: &[u32],
    bins: &[Bin],
    colors: &[[u8; 3]],
) -> Result<Assignment, AllocError>
    requires small { AreColorCodes codes.now }
    requires weighed { IsWeighed codes.now counts.now }
    requires pixels { binned_pixels bins.now ≤ area_limit }
    requires bins { AreBinsOf (counted_pixels codes.now counts.now) (λ _. true) bins.now }
    requires whole { All (IsWholeBin (counted_pixels codes.now counts.now)) bins.now }
    requires some { 0 < length colors.now }
    requires few { length colors.now ≤ 256 }
    requires shown { All IsRegisterColor colors.now }
    ensures assignment { IfOk result (IsAssignment codes.now) }
    ensures shown { IfOk result (λ a. All IsRegisterColor a.colors.items) }
    ensures size { IfOk result (λ a. length a.colors.items ≡ length colors.now) }
    ensures falls { IfOk result (λ a. counted_error a.colors.items codes.now counts.now
        ≤ counted_error colors.now codes.now counts.now) }
    ensures improved { IfOk result (λ a. a.colors.items
        ≡ improved_entries (counted_pixels codes.now counts.now) colors.now) }
{
    let moved = moved_twice(alloc, bins, colors)?;
    let before = assign(alloc, codes, counts, colors)?.error;
    let after = assign(alloc, codes, counts, &moved)?;
    if before <= after.error {
        return Ok(assign(alloc, codes, counts, colors)?);
    }
    Ok(after)
}

/// The entries after two rounds.
fn moved_twice(alloc: Global, bins: &[Bin], colors: &[[u8; 3]]) -> Result<Vec<[u8; 3]>, AllocError>
    requires pixels { binned_pixels bins.now ≤ area_limit }
    requires some { 0 < length colors.now }
    requires few { length colors.now ≤ 256 }
    requires shown { All IsRegisterColor colors.now }
    ensures shown { IfOk result (λ moved. All IsRegisterColor moved.items) }
    ensures size { IfOk result (λ moved. length moved.items ≡ length colors.now) }
    ensures moved { IfOk result (λ moved. (pixels : Pixels)
        → AreBinsOf pixels (λ _. true) bins.now → All (IsWholeBin pixels) bins.now
        → moved.items ≡ moved_entries pixels (moved_entries pixels colors.now)) }
{
    let codes = mean_codes(alloc, bins)?;
    let once = moved_once(alloc, bins, &codes, colors)?;
    let twice = moved_once(alloc, bins, &codes, &once)?;
    Ok(twice)
}

/// The entries after a round, from the codes of the bins' mean colors.
fn moved_once(
    alloc: Global,
    bins: &[Bin],
    codes: &[u32],
    colors: &[[u8; 3]],
) -> Result<Vec<[u8; 3]>, AllocError>
    requires pixels { binned_pixels bins.now ≤ area_limit }
    requires small { AreColorCodes codes.now }
    requires size { length codes.now ≡ length bins.now }
    requires means { (k : ℕ) (d : Bin) → k < length bins.now → color_of (slice_index codes.now k)
        ≡ mean_bytes (total (slice_index_or bins.now k d).sums) }
    requires some { 0 < length colors.now }
    requires few { length colors.now ≤ 256 }
    requires shown { All IsRegisterColor colors.now }
    ensures shown { IfOk result (λ moved. All IsRegisterColor moved.items) }
    ensures size { IfOk result (λ moved. length moved.items ≡ length colors.now) }
    ensures moved { IfOk result (λ moved. (pixels : Pixels)
        → AreBinsOf pixels (λ _. true) bins.now → All (IsWholeBin pixels) bins.now
        → moved.items ≡ moved_entries pixels colors.now) }
{
    let traversal = Traversal::among(alloc, codes, colors)?;
    let moved = means_of(alloc, bins, &traversal.indices, colors)?;
    Ok(moved)
}

/// The codes of the bins' mean colors.
fn mean_codes(alloc: Global, bins: &[Bin]) -> Result<Vec<u32>, AllocError>
    ensures small { IfOk result (λ codes. AreColorCodes codes.items) }
    ensures size { IfOk result (λ codes. length codes.items ≡ length bins.now) }
    ensures means { IfOk result (λ codes. (k : ℕ) (d : Bin) → k < length bins.now
        → color_of (slice_index codes.items k)
        ≡ mean_bytes (total (slice_index_or bins.now k d).sums)) }
{
    let mut codes = Vec::with_capacity(alloc, bins.len())?;
    for bin in bins {
        codes.push(bin.sums.mean_code())?;
    }
    Ok(codes)
}

/// The colors of registers next to the means of each entry's bins.
fn means_of(
    alloc: Global,
    bins: &[Bin],
    indices: &[u8],
    colors: &[[u8; 3]],
) -> Result<Vec<[u8; 3]>, AllocError>
    requires bins { binned_pixels bins.now ≤ area_limit }
    requires indices { length indices.now ≡ length bins.now }
    requires few { length colors.now ≤ 256 }
    requires shown { All IsRegisterColor colors.now }
    ensures shown { IfOk result (λ means. All IsRegisterColor means.items) }
    ensures size { IfOk result (λ means. length means.items ≡ length colors.now) }
    ensures means { IfOk result (λ means. (entry : Bin → ℕ)
        → AreIndicesBy entry bins.now indices.now → (k : ℕ) → k < length colors.now
        → slice_index_or means.items k []
        ≡ mean_or (entry_sums entry bins.now k) (slice_index_or colors.now k [])) }
{
    let mut sums = [ColorSums::none(); 256];
    add_bins(&mut sums, bins, indices);
    let mut means = Vec::with_capacity(alloc, colors.len())?;
    for position in 0..colors.len() {
        means.push(sums[position].mean_or(colors[position]))?;
    }
    Ok(means)
}

/// Adds each bin's pixels to the sums of its entry.
#[tactic(auto, using(crate::proofs::refinement::Lloyd::additions))]
#[inline(never)]
fn add_bins(sums: &mut [ColorSums], bins: &[Bin], indices: &[u8])
    requires sums { length sums.old ≡ 256 }
    requires none { summed_pixels sums.old ≡ 0 }
    requires bins { binned_pixels bins.now ≤ area_limit }
    requires indices { length indices.now ≡ length bins.now }
    ensures size { length sums.new ≡ 256 }
    ensures sums { (entry : Bin → ℕ) → AreIndicesBy entry bins.now indices.now
        → (index k : ℕ) (d : ColorSums) → index < 256
        → total (slice_index_or sums.new index d) k ≡ entry_sums entry bins.now index k }
{
    for position in 0..bins.len() {
        let index = usize::from(indices[position]);
        sums[index] = sums[index].plus(bins[position].sums);
    }
}
