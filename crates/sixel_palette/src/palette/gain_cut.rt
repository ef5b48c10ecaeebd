//! Boxes of colors, cut in two where the summed squared error falls most.
//!
//! X. Wu, "Color quantization by dynamic programming and principal analysis", ACM Transactions on
//! Graphics 11 (1992), 348-372, cuts boxes in this way.

ghost use Rattle.std.specs.{List.sum_by, List.Sorted.IsPermutation, Prelude.{◌≡◌, ◌+◌, ◌-◌, ◌/◌}};
ghost use Rattle.std.specs.Prelude.{◌%◌, ◌<◌, ◌≤◌, ℕ, List, true, length, All, IfOk, OnOk};
ghost use Rattle.std.specs.Prelude.{slice_index_or, take, drop};
ghost use Rattle.sixel_base.specs.{Color.rgb, Limits.area_limit};
ghost use Rattle.sixel_palette.specs.{ColorSums.{Pixels, mean_or}, GainCut.{Box, best_along}};
ghost use Rattle.sixel_palette.specs.GainCut.{best_cut, best_to, box_at, box_colors, box_sums};
ghost use Rattle.sixel_palette.specs.GainCut.{boxes_after, cut_at, first_greatest, is_final, side};
ghost use Rattle.sixel_palette.specs.{Refined.IsRegisterColor, declared.palette.bins.Bin.Bin};
ghost use Rattle.sixel_palette.specs.declared.palette.color_sums.ColorSums.{ColorSums};
ghost use Rattle.sixel_palette.specs.declared.palette.gain_cut.ColorBox.{ColorBox};
ghost use Rattle.sixel_palette.specs.inside.Boxes.{AreRanges, AreWithin, binned_pixels, high_part};
ghost use Rattle.sixel_palette.specs.inside.Boxes.{low_part, range_of, summed_pixels, AreBoxes};
ghost use Rattle.sixel_palette.specs.{inside.Boxes.AreGains, inside.Sums.{AreBinsOf, prefix_sums}};
ghost use Rattle.sixel_palette.specs.inside.Sums.{suffix_sums, total};

use crate::palette::bins::Bin;
use crate::palette::color_sums::ColorSums;
use crate::palette::register_color::percent_color;
use std::alloc::{AllocError, Global};

/// How many values a channel of a bin's corner has.
const SIDES: usize = 256;

/// A box of colors: a range of bins, and its best cut.
#[derive(Clone, Copy)]
pub struct ColorBox {
    start: usize,
    end: usize,
    cut: Cut,
}

/// A cut of a box: along a channel, up to a value, and how much it gains.
#[derive(Clone, Copy)]
struct Cut {
    channel: Channel,
    value: u8,
    gain: u64,
}

/// The least and the greatest value of a channel of some bins.
#[derive(Clone, Copy)]
struct Sides {
    low: usize,
    high: usize,
}

/// A channel of a color.
#[derive(Clone, Copy)]
enum Channel {
    Red,
    Green,
    Blue,
}

/// The bins in boxes, cut until there are `room` or no cut gains. The bins are reordered.
pub fn boxes_of(alloc: Global, bins: &mut [Bin], room: usize) -> Result<Vec<ColorBox>, AllocError>
    requires room { 0 < room }
    requires few { binned_pixels bins.old ≤ area_limit }
    ensures room { IfOk result (λ boxes. length boxes.items ≤ room) }
    ensures some { IfOk result (λ boxes. 0 < length boxes.items) }
    ensures ranges { IfOk result (λ boxes. AreRanges (length bins.new) boxes.items) }
    ensures moved { OnOk result (IsPermutation bins.old bins.new) }
    ensures boxes { IfOk result (λ boxes. (pixels : Pixels)
        → AreBinsOf pixels (λ _. true) bins.old
        → AreBoxes pixels bins.new boxes.items (boxes_after pixels (room - 1))) }
{
    let mut lower = [ColorSums::none(); SIDES];
    let mut upper = [ColorSums::none(); SIDES];
    let mut boxes = Vec::with_capacity(alloc, room)?;
    boxes.push(box_of(bins, 0, bins.len(), &mut lower, &mut upper))?;
    for _count in 1..room {
        let best = best_of(&boxes);
        if boxes[best].cut.gain == 0 {
            break;
        }
        cut_in_two(bins, &mut boxes, best, &mut lower, &mut upper)?;
    }
    Ok(boxes)
}

/// The register colors next to the means of boxes.
#[tactic(auto, using(crate::proofs::refinement::Sums::binned_part))]
pub fn box_colors(
    alloc: Global,
    bins: &[Bin],
    boxes: &[ColorBox],
) -> Result<Vec<[u8; 3]>, AllocError>
    requires few { binned_pixels bins.now ≤ area_limit }
    requires ranges { AreRanges (length bins.now) boxes.now }
    ensures shown { IfOk result (λ colors. All IsRegisterColor colors.items) }
    ensures size { IfOk result (λ colors. length colors.items ≡ length boxes.now) }
    ensures means { IfOk result (λ colors. (pixels : Pixels) (model : List Box)
        → AreBoxes pixels bins.now boxes.now model → colors.items ≡ box_colors pixels model) }
{
    let mut colors = Vec::with_capacity(alloc, boxes.len())?;
    for position in 0..boxes.len() {
        let part = &bins[boxes[position].start..boxes[position].end];
        colors.push(mean_of(part))?;
    }
    Ok(colors)
}

/// The register color next to the mean of some bins.
fn mean_of(bins: &[Bin]) -> [u8; 3]
    requires { binned_pixels bins.now ≤ area_limit }
    ensures shown { IsRegisterColor result }
    ensures mean { (pixels : Pixels) (box : Box) → AreBinsOf pixels box bins.now
        → result ≡ mean_or (box_sums pixels box) (rgb 0 0 0) }
{
    let mut sums = ColorSums::none();
    for bin in bins {
        sums = sums.plus(bin.sums);
    }
    sums.mean_or(percent_color(0, 0, 0))
}

/// Returns whether no cut of a box gains.
pub fn is_final(boxes: &[ColorBox]) -> bool
    requires { 0 < length boxes.now }
    ensures { (pixels : Pixels) (bins : List Bin) (model : List Box)
        → AreBoxes pixels bins boxes.now model → result ≡ is_final pixels model }
{
    boxes[best_of(boxes)].cut.gain == 0
}

/// Cuts a box in two, and appends the second part.
fn cut_in_two(
    bins: &mut [Bin],
    boxes: &mut Vec<ColorBox>,
    position: usize,
    lower: &mut [ColorSums],
    upper: &mut [ColorSums],
) -> Result<(), AllocError>
    requires position { position < length boxes.old.items }
    requires ranges { AreRanges (length bins.old) boxes.old.items }
    requires few { binned_pixels bins.old ≤ area_limit }
    requires lower { length lower.old ≡ 256 }
    requires upper { length upper.old ≡ 256 }
    ensures moved { OnOk result (IsPermutation bins.old bins.new) }
    ensures one_more { OnOk result (length boxes.new.items ≡ length boxes.old.items + 1) }
    ensures ranges { OnOk result (AreRanges (length bins.old) boxes.new.items) }
    ensures boxes { OnOk result ((pixels : Pixels) (model : List Box)
        → AreBoxes pixels bins.old boxes.old.items model
        → AreBoxes pixels bins.new boxes.new.items
        (cut_at model position (best_cut pixels (box_at model position)))) }
{
    let whole = boxes[position];
    let middle = divide(bins, whole.start, whole.end, whole.cut);
    boxes[position] = box_of(bins, whole.start, middle, lower, upper);
    let rest = box_of(bins, middle, whole.end, lower, upper);
    boxes.push(rest)?;
    Ok(())
}

/// The position of the box whose cut gains most, the first of those.
fn best_of(boxes: &[ColorBox]) -> usize
    requires { 0 < length boxes.now }
    ensures within { result < length boxes.now }
    ensures first { (d : ColorBox) → result ≡ first_greatest
        (λ k. (slice_index_or boxes.now k d).cut.gain) (length boxes.now - 1) }
{
    let mut best = 0;
    for position in 1..boxes.len() {
        if boxes[best].cut.gain < boxes[position].cut.gain {
            best = position;
        }
    }
    best
}

/// Moves the bins up to the cut to the front of a range, and returns where the others begin.
fn divide(bins: &mut [Bin], start: usize, end: usize, cut: Cut) -> usize
    requires order { start ≤ end }
    requires within { end ≤ length bins.old }
    ensures from { start ≤ result }
    ensures to { result ≤ end }
    ensures moved { IsPermutation bins.old bins.new }
    ensures front { take start bins.new ≡ take start bins.old }
    ensures back { drop end bins.new ≡ drop end bins.old }
    ensures lower { (number : Bin → ℕ) → sum_by number (range_of bins.new start result)
        ≡ sum_by (low_part cut.channel cut.value number) (range_of bins.old start end) }
    ensures upper { (number : Bin → ℕ) → sum_by number (range_of bins.new result end)
        ≡ sum_by (high_part cut.channel cut.value number) (range_of bins.old start end) }
{
    let mut middle = start;
    for position in start..end {
        if side_of(&bins[position], cut.channel) <= usize::from(cut.value) {
            bins.swap(middle, position);
            middle += 1;
        }
    }
    middle
}

/// A range of bins as a box, with its best cut.
#[tactic(auto, using(crate::proofs::refinement::Sums::binned_part))]
fn box_of(
    bins: &[Bin],
    start: usize,
    end: usize,
    lower: &mut [ColorSums],
    upper: &mut [ColorSums],
) -> ColorBox
    requires order { start ≤ end }
    requires within { end ≤ length bins.now }
    requires few { binned_pixels bins.now ≤ area_limit }
    requires lower { length lower.old ≡ 256 }
    requires upper { length upper.old ≡ 256 }
    ensures start { result.start ≡ start }
    ensures end { result.end ≡ end }
    ensures cut { (pixels : Pixels) (box : Box)
        → AreBinsOf pixels box (range_of bins.now start end) → result.cut ≡ best_cut pixels box }
{
    let part = &bins[start..end];
    let none = Cut {
        channel: Channel::Red,
        value: 0,
        gain: 0,
    };
    let blue = cut_along(part, Channel::Blue, lower, upper, none);
    let green = cut_along(part, Channel::Green, lower, upper, blue);
    let red = cut_along(part, Channel::Red, lower, upper, green);
    ColorBox {
        start,
        end,
        cut: red,
    }
}

/// The better one of a cut and the cuts of some bins along a channel.
///
/// The sums at each value of the bins are stored in `lower`, and those above it in `upper`.
#[inline(never)]
fn cut_along(
    bins: &[Bin],
    channel: Channel,
    lower: &mut [ColorSums],
    upper: &mut [ColorSums],
    cut: Cut,
) -> Cut
    requires few { binned_pixels bins.now ≤ area_limit }
    requires lower { length lower.old ≡ 256 }
    requires upper { length upper.old ≡ 256 }
    ensures { (pixels : Pixels) (box : Box) → AreBinsOf pixels box bins.now
        → result ≡ best_along pixels box channel cut }
{
    let sides = sides_of(bins, channel);
    let lower = &mut lower[sides.low..sides.high + 1];
    let upper = &mut upper[sides.low..sides.high + 1];
    gather(bins, channel, sides, lower);
    sum_above(lower, upper);
    best_cut(lower, upper, channel, sides, cut)
}

/// The least and the greatest value of a channel, or of all if there are many bins.
fn sides_of(bins: &[Bin], channel: Channel) -> Sides
    ensures order { result.low ≤ result.high }
    ensures high { result.high < 256 }
    ensures within { AreWithin channel result bins.now }
{
    if bins.len() > SIDES {
        return Sides {
            low: 0,
            high: SIDES - 1,
        };
    }
    let mut low = SIDES - 1;
    let mut high = 0;
    for bin in bins {
        let value = side_of(bin, channel);
        low = value.min(low);
        high = value.max(high);
    }
    Sides {
        low: low.min(high),
        high,
    }
}

/// The value of a channel of a bin's corner.
#[inline(always)]
fn side_of(bin: &Bin, channel: Channel) -> usize
    ensures value { result ≡ side channel bin.now.corner }
    ensures small { result < 256 }
{
    usize::from(match channel {
        Channel::Red => bin.corner[0],
        Channel::Green => bin.corner[1],
        Channel::Blue => bin.corner[2],
    }) % SIDES
}

/// Sums the bins of each value of a channel, from the least value on.
#[tactic(auto, using(crate::proofs::refinement::Cuts::side_sums))]
#[inline(always)]
fn gather(bins: &[Bin], channel: Channel, sides: Sides, sums: &mut [ColorSums])
    requires few { binned_pixels bins.now ≤ area_limit }
    requires within { AreWithin channel sides bins.now }
    requires sums { length sums.old ≡ sides.high + 1 - sides.low }
    ensures pixels { summed_pixels sums.new ≡ binned_pixels bins.now }
    ensures size { length sums.new ≡ length sums.old }
    ensures sums { (n k : ℕ) → prefix_sums sums.new (n + 1) k
        ≡ sum_by (low_part channel (sides.low + n) (λ bin. total bin.sums k)) bins.now }
{
    sums.fill(ColorSums::none());
    for bin in bins {
        let value = side_of(bin, channel) - sides.low;
        sums[value] = sums[value].plus(bin.sums);
    }
}

/// Sums what is above each value.
#[inline(always)]
fn sum_above(sums: &[ColorSums], upper: &mut [ColorSums])
    requires few { summed_pixels sums.now ≤ area_limit }
    requires upper { length upper.old ≡ length sums.now }
    ensures size { length upper.new ≡ length upper.old }
    ensures sums { (j k : ℕ) (d : ColorSums) → j < length sums.now
        → total (slice_index_or upper.new j d) k ≡ suffix_sums sums.now (j + 1) k }
{
    let mut above = ColorSums::none();
    for value in (0..sums.len()).rev() {
        upper[value] = above;
        above = above.plus(sums[value]);
    }
}

/// The better one of a cut and the cuts along a channel, by the sums at and above each value.
#[inline(always)]
fn best_cut(
    lower: &[ColorSums],
    upper: &[ColorSums],
    channel: Channel,
    sides: Sides,
    cut: Cut,
) -> Cut
    requires few { summed_pixels lower.now ≤ area_limit }
    requires order { sides.low ≤ sides.high }
    requires high { sides.high < 256 }
    requires lower { length lower.now ≡ sides.high + 1 - sides.low }
    requires upper { length upper.now ≡ length lower.now }
    requires sums { (j k : ℕ) (d : ColorSums) → j < length lower.now
        → total (slice_index_or upper.now j d) k ≡ suffix_sums lower.now (j + 1) k }
    ensures { (gains : ℕ → ℕ) → AreGains lower.now sides gains
        → result ≡ best_to gains channel sides.high cut }
{
    let mut best = cut;
    let mut left = ColorSums::none();
    for position in 0..sides.high - sides.low {
        left = left.plus(lower[position]);
        let gain = left.gain(upper[position]);
        if best.gain < gain {
            best = Cut {
                channel,
                value: (sides.low + position) as u8,
                gain,
            };
        }
    }
    best
}
