//! The refined palette of an image: register colors with a small summed error.

ghost use Rattle.std.specs.Prelude.{◌≡◌, ◌≢◌, ◌-◌, ◌%◌, ◌<◌, ◌≤◌, ◌/◌, true, map, length, All};
ghost use Rattle.std.specs.Prelude.{Some, None, OnOk, IfOk, MatchResult};
ghost use Rattle.std.specs.List.Sorted.{IsStrictlyIncreasing};
ghost use Rattle.sixel_base.specs.CallFault.{FailsBy, ColorCount, color_count_fault};
ghost use Rattle.sixel_base.specs.{Fault.{IsFault, TooLarge}, Limits.area_limit};
ghost use Rattle.sixel_palette.specs.{PaletteBound.IsLeastApart, Refined.IsRegisterColor};
ghost use Rattle.sixel_palette.specs.Refined.{register_color, IsRefined};
ghost use Rattle.sixel_palette.specs.inside.{Assignment.{IsStart, IsWeighed}, Boxes.binned_pixels};
ghost use Rattle.sixel_palette.specs.inside.Codes.{color_of, AreColorCodes};
ghost use Rattle.sixel_palette.specs.inside.Refinement.{AreRefinedEntries, IsRefinement};
ghost use Rattle.sixel_palette.specs.inside.Sums.{AreBinsOf, IsWholeBin, counted_pixels};

use crate::palette::assignment::{Assignment, assign, summed};
use crate::palette::bins::{Bin, bins_of};
use crate::palette::color_counts::total_of;
use crate::palette::color_set::ColorSet;
use crate::palette::colors::color_of;
use crate::palette::distance::distance;
use crate::palette::farthest_on_top::{Topped, add_farthest};
use crate::palette::gain_cut::{box_colors, boxes_of, is_final};
use crate::palette::indices::indices_of;
use crate::palette::lloyd::improve;
use crate::palette::nearest_entry::squared_to_nearest;
use crate::palette::register_color::register_color;
use crate::palette::spread::is_flat;
use sixel_base::limits::MAX_AREA;
use sixel_base::size::validate_color_count;
use sixel_base::{Result, SixelError};
use std::alloc::{AllocError, Global};

/// A refined palette, each pixel's palette index, and its summed squared error.
#[derive(Debug, Drop)]
pub struct RefinedPalette {
    /// The entries: red, green, blue, as a register shows them.
    pub colors: Vec<[u8; 3]>,
    /// The palette index of each pixel, 0 for a transparent pixel.
    pub indices: Vec<u8>,
    /// The sum over all opaque pixels of the squared distance to the nearest entry.
    pub error: u64,
    /// The entries before the rounds, whose summed error is not less.
    pub initial: Vec<[u8; 3]>,
    /// The colors that the last entries are for, and then the farthest color.
    ///
    /// Every two have at least the squared distance `apart`. There are none without such entries.
    pub witnesses: Vec<[u8; 3]>,
    /// The least squared distance of two witnesses, 0 without witnesses.
    pub apart: u32,
}

/// Entries of a refined palette, or spread ones, and the palette index of each color's nearest one.
#[derive(Drop)]
pub struct RefinedEntries {
    pub colors: Vec<[u8; 3]>,
    pub indices: Vec<u8>,
    pub error: u64,
    /// How many pixels are opaque.
    pub opaque: u64,
    /// Whether the pixels are flat art in the entries of the refined palette.
    pub is_flat: bool,
    pub initial: Vec<[u8; 3]>,
    pub witnesses: Vec<[u8; 3]>,
    pub apart: u32,
}

/// A refined palette of an image whose pixels have no indices yet.
///
/// They are looked up by the image's colors.
#[derive(Drop)]
pub struct Refinement {
    pub entries: RefinedEntries,
    pub colors: ColorSet,
}

/// The entries before the rounds, and each color's nearest one after them.
#[derive(Drop)]
pub struct Start {
    pub initial: Vec<[u8; 3]>,
    pub assignment: Assignment,
}

/// Returns a refined palette of an image of RGBA pixels, four bytes each.
///
/// Only opaque pixels count, those whose alpha is at least 128; the others get index 0. There are
/// at most `max_colors` entries, 1 to 256, each a color that a register shows. If the opaque pixels
/// have at most `max_colors` colors, each of these has its entry, rounded to percentages. Otherwise
/// the colors are cut into boxes, one after the other where the summed squared error falls most.
/// Two rounds of Lloyd's algorithm move the entries if that lowers the error. With more than 4,096
/// colors, cuts and rounds take those together whose channels have the same six highest bits. At
/// least `max_colors / 16` entries are left then. They come farthest first, until no color has a
/// squared distance above 6 to its nearest entry.
///
/// The witnesses certify these: no list of fewer colors than there are witnesses, whatever they
/// are, has an entry nearer to each witness than by a fourth of `apart`.
///
/// # Errors
///
/// `BufferSizeMismatch` if the length is not a multiple of four; it expects the length rounded
/// down. `InvalidData` if `max_colors` is 0 or above 256, and if there are more than 67,108,864
/// pixels. These come before anything is allocated. Otherwise only `OutOfMemory`.
pub fn refine_palette(alloc: Global, pixels: &[u8], max_colors: u16) -> Result<RefinedPalette>
    ensures mismatch { let len = length pixels.now in
        len % 4 ≢ 0 → result ≡ Err (SixelError.BufferSizeMismatch (len - len % 4) len) }
    ensures colors { length pixels.now % 4 ≡ 0 → color_count_fault max_colors ≡ Some ColorCount
        → FailsBy (Some ColorCount) result }
    ensures area { length pixels.now % 4 ≡ 0 → color_count_fault max_colors ≡ None
        → area_limit < length pixels.now / 4
        → MatchResult result (λ _. ⊥) (λ e. IsFault e TooLarge) }
    ensures memory { length pixels.now % 4 ≡ 0 → color_count_fault max_colors ≡ None
        → length pixels.now / 4 ≤ area_limit → FailsBy None result }
    ensures bytes { OnOk result (All (λ byte. byte < 256) pixels.now) }
    ensures refined { IfOk result (IsRefined pixels.now max_colors) }
{
    let beyond = pixels.len() % 4;
    if beyond != 0 {
        return Err(SixelError::BufferSizeMismatch {
            expected: pixels.len() - beyond,
            actual: pixels.len(),
        });
    }
    validate_color_count(usize::from(max_colors))?;
    if pixels.len() / 4 > MAX_AREA {
        return Err(SixelError::too_large());
    }
    let refinement = Refinement::of(alloc, pixels, usize::from(max_colors), 0)?;
    let Refinement { entries, colors } = refinement;
    let indices = indices_of(alloc, pixels, &colors, &entries.indices)?;
    Ok(RefinedPalette {
        colors: entries.colors,
        indices,
        error: entries.error,
        initial: entries.initial,
        witnesses: entries.witnesses,
        apart: entries.apart,
    })
}

impl Refinement {
    /// Refines a palette of at most `room` entries for whole pixels, and spreads it by 32nds.
    pub fn of(
        alloc: Global,
        pixels: &[u8],
        room: usize,
        amount: u8,
    ) -> std::result::Result<Refinement, AllocError>
        requires area { length pixels.now / 4 ≤ area_limit }
        requires some { 0 < room }
        requires room { room ≤ 256 }
        ensures { IfOk result (IsRefinement pixels.now room amount) }
    {
        let colors = ColorSet::of(alloc, pixels)?;
        let counts = colors.counts(alloc, pixels)?;
        let refined = refined_entries(alloc, &colors.codes, &counts, room)?;
        let entries = refined.spread(alloc, &colors.codes, &counts, amount)?;
        Ok(Refinement { entries, colors })
    }
}

/// The entries for the codes of an image's colors and their counts.
fn refined_entries(
    alloc: Global,
    codes: &[u32],
    counts: &[u32],
    room: usize,
) -> std::result::Result<RefinedEntries, AllocError>
    requires some { 0 < room }
    requires room { room ≤ 256 }
    requires ascending { IsStrictlyIncreasing codes.now }
    requires small { AreColorCodes codes.now }
    requires weighed { IsWeighed codes.now counts.now }
    ensures { IfOk result (AreRefinedEntries codes.now counts.now room) }
{
    let start = start_of(alloc, codes, counts, room)?;
    let topped = add_farthest(alloc, codes, start.assignment, room)?;
    let Topped {
        colors,
        witnesses,
        traversal,
    } = topped;
    Ok(RefinedEntries {
        error: summed(counts, &traversal.squares),
        opaque: total_of(counts),
        is_flat: is_flat(counts, &traversal.squares),
        apart: least_apart(&witnesses),
        colors,
        indices: traversal.indices,
        initial: start.initial,
        witnesses,
    })
}

/// The entries to begin with: one for each color if there is room, or those of a gain cut.
fn start_of(
    alloc: Global,
    codes: &[u32],
    counts: &[u32],
    room: usize,
) -> std::result::Result<Start, AllocError>
    requires some { 0 < room }
    requires room { room ≤ 256 }
    requires ascending { IsStrictlyIncreasing codes.now }
    requires small { AreColorCodes codes.now }
    requires weighed { IsWeighed codes.now counts.now }
    ensures { IfOk result (IsStart codes.now counts.now room) }
{
    if codes.len() > room {
        let mut bins = bins_of(alloc, codes, counts)?;
        let start = start_of_bins(alloc, codes, counts, &mut bins, room)?;
        return Ok(start);
    }
    let initial = register_colors(alloc, codes)?;
    let assignment = assign(alloc, codes, counts, &initial)?;
    Ok(Start {
        initial,
        assignment,
    })
}

/// The entries of a gain cut of bins, moved by the rounds. The bins are reordered.
///
/// The entries stay if no cut gains, because each bin has an entry then.
fn start_of_bins(
    alloc: Global,
    codes: &[u32],
    counts: &[u32],
    bins: &mut [Bin],
    room: usize,
) -> std::result::Result<Start, AllocError>
    requires some { 0 < room }
    requires room { room ≤ 256 }
    requires many { room < length codes.now }
    requires small { AreColorCodes codes.now }
    requires weighed { IsWeighed codes.now counts.now }
    requires pixels { binned_pixels bins.old ≤ area_limit }
    requires bins { AreBinsOf (counted_pixels codes.now counts.now) (λ _. true) bins.old }
    requires whole { All (IsWholeBin (counted_pixels codes.now counts.now)) bins.old }
    ensures { IfOk result (IsStart codes.now counts.now room) }
{
    let boxes = boxes_of(alloc, bins, room - room / 16)?;
    let initial = box_colors(alloc, bins, &boxes)?;
    let assignment = if is_final(&boxes) {
        assign(alloc, codes, counts, &initial)?
    } else {
        improve(alloc, codes, counts, bins, &initial)?
    };
    Ok(Start {
        initial,
        assignment,
    })
}

/// The color that a register shows for each color.
fn register_colors(alloc: Global, codes: &[u32]) -> std::result::Result<Vec<[u8; 3]>, AllocError>
    requires small { AreColorCodes codes.now }
    ensures shown { IfOk result (λ colors. All IsRegisterColor colors.items) }
    ensures size { IfOk result (λ colors. length colors.items ≡ length codes.now) }
    ensures same { IfOk result (λ colors.
        colors.items ≡ map (λ code. register_color (color_of code)) codes.now) }
{
    let mut colors = Vec::with_capacity(alloc, codes.len())?;
    for position in 0..codes.len() {
        colors.push(register_color(color_of(codes[position])))?;
    }
    Ok(colors)
}

/// The least squared distance of two of the colors, 0 if there are not two.
pub fn least_apart(colors: &[[u8; 3]]) -> u32
    ensures { IsLeastApart colors.now result }
{
    if colors.len() < 2 {
        return 0;
    }
    let mut least = distance(colors[0], colors[1]);
    for position in 2..colors.len() {
        least = squared_to_nearest(&colors[..position], colors[position]).min(least);
    }
    least
}
