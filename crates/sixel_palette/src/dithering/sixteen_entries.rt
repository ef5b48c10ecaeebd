//! A palette of sixteen entries in lanes. The least of their keys gives the index for a target.
//!
//! The square of a difference is the sum of two squares less twice the product. So the key of an
//! entry is a number of its own less its product with the target.

ghost use Rattle.std.specs.Prelude.{◌≡◌, ◌+◌, ◌*◌, ◌/◌, ◌%◌, ◌^◌, ◌<◌, ◌≤◌, ℕ, List, Option, Some};
ghost use Rattle.std.specs.Prelude.{length, slice_index, true};
ghost use Rattle.sixel_palette.specs.Dithering.{IsIndex, Mapped, nearer_entry};
ghost use Rattle.sixel_palette.specs.{Palette.entry_distance, inside.Diffusion.channels};
ghost use Rattle.sixel_palette.specs.inside.SixteenEntries.{AreSixteen, lane_key, lane_of};

use crate::palette::distance::distance;
use crate::palette::nearest_entry::NO_ENTRY;
use crate::palette::nearest_indices::channel_bytes;
use std::simd::prelude::*;

/// What each key has, so that none is below 0: more than 64 times the square of any color.
const KEY_BASE: u32 = 0x100_0000;

/// How many entries there are.
const ENTRIES: usize = 16;

/// How many keys are stored: a row of 16 for each lane, and one for no entry.
const KEYS: usize = 272;

/// The entries of a palette of sixteen.
#[derive(Clone, Copy)]
pub struct SixteenEntries {
    /// The colors: red, 256 times green, and 65536 times blue.
    pub codes: [u32; ENTRIES],
    /// A row for each lane of the entry before: what each key has beside the product.
    pub before: [u32; KEYS],
    /// The same for the entry above.
    pub above: [u32; KEYS],
}

impl SixteenEntries {
    /// Returns the entries of a palette of sixteen colors.
    pub fn of(colors: &[[u8; 3]], tolerance: u32) -> Option<SixteenEntries>
        ensures sixteen { (entries : SixteenEntries) → result ≡ Some entries
            → length colors.now ≡ 16 }
        ensures lanes { (entries : SixteenEntries) → result ≡ Some entries
            → AreSixteen colors.now tolerance entries }
    {
        if colors.len() != ENTRIES {
            return None;
        }
        let mut codes = [0; ENTRIES];
        let mut fixed = [0; ENTRIES];
        for index in 0..ENTRIES {
            let color = colors[index];
            channel_bytes(color);
            codes[index] = u32::from_le_bytes([color[0], color[1], color[2], 0]);
            fixed[index] = KEY_BASE + 64 * distance(color, [0, 0, 0]) + index as u32;
        }
        let near = tolerance.min(1);
        let far = 64 * tolerance.min(NO_ENTRY);
        let mut before = [0; KEYS];
        let mut above = [0; KEYS];
        for at in 0..KEYS {
            let in_lane = at % ENTRIES == at / ENTRIES;
            before[at] = fixed[at % ENTRIES] + if in_lane { 16 * near } else { far };
            above[at] = fixed[at % ENTRIES] + if in_lane { 32 * near } else { far };
        }
        Some(SixteenEntries {
            codes,
            before,
            above,
        })
    }

    /// Returns the index for a target whose neighbors have these entries.
    ///
    /// In a flat area the target is the entry before, and no key is waited for.
    #[inline(always)]
    pub fn index_of(
        &self,
        target: u8x4,
        before: Option<u8>,
        above: Option<u8>,
        tolerance: u32,
    ) -> u8
        requires before { (entry : ℕ) → before ≡ Some entry → entry < 16 }
        requires above { (entry : ℕ) → above ≡ Some entry → entry < 16 }
        ensures within { result < 16 }
        ensures index { (m : Mapped) → length m.colors ≡ 16 → m.tolerance ≡ tolerance
            → AreSixteen m.colors m.tolerance self.now
            → IsIndex m (channels target)
            (nearer_entry m.colors (channels target) before above) result }
    {
        if let Some(index) = before
            && tolerance > 0
            && self.is_entry(index, target)
        {
            return index;
        }
        let keys = self.keys(target, lane_of(before), lane_of(above));
        let mut least = keys[0];
        for lane in 1..ENTRIES {
            least = keys[lane].min(least);
        }
        (least % 16) as u8
    }

    /// Whether an entry has this color.
    #[inline(always)]
    fn is_entry(&self, index: u8, color: u8x4) -> bool
        requires { index < 16 }
        ensures { (colors : List (List ℕ)) (tolerance : ℕ) → result ≡ true
            → AreSixteen colors tolerance self.now
            → entry_distance colors (channels color) index ≡ 0 }
    {
        let code = u32::from_le_bytes(color.to_array());
        self.codes[usize::from(index)] == code % 0x100_0000
    }

    /// Returns the key of each entry.
    ///
    /// LLVM multiplies lanes of 16 bits, since it knows that those of a channel have 8.
    #[inline(always)]
    fn keys(&self, target: u8x4, before: usize, above: usize) -> [u32; ENTRIES]
        requires before { before ≤ 16 }
        requires above { above ≤ 16 }
        ensures { (colors : List (List ℕ)) (tolerance k : ℕ) → AreSixteen colors tolerance self.now
            → k < 16 → slice_index result k
            ≡ lane_key colors (channels target) tolerance before above k }
    {
        let scaled = (target.cast::<u16>() * u16x4::splat(128))
            .cast::<u32>()
            .to_array();
        let products = self.channel(0) * u32x16::splat(scaled[0])
            + self.channel(8) * u32x16::splat(scaled[1])
            + self.channel(16) * u32x16::splat(scaled[2]);
        let least = row(&self.before, before).simd_min(row(&self.above, above));
        (least - products).to_array()
    }

    /// Returns the channel of each entry that has this place in the codes.
    #[inline(always)]
    fn channel(&self, shift: u32) -> u32x16
        requires { shift < 32 }
        ensures sixteen { length result ≡ 16 }
        ensures each { (k : ℕ) → k < 16
            → slice_index result k ≡ slice_index self.now.codes k / 2 ^ shift % 256 }
    {
        (u32x16::from_array(self.codes) >> u32x16::splat(shift)) % u32x16::splat(256)
    }
}

/// Returns the row of a lane.
#[inline(always)]
fn row(rows: &[u32], lane: usize) -> u32x16
    requires { 16 * lane + 16 ≤ length rows.now }
    ensures sixteen { length result ≡ 16 }
    ensures each { (k : ℕ) → k < 16 → slice_index result k ≡ slice_index rows.now (16 * lane + k) }
{
    u32x16::from_slice(&rows[ENTRIES * lane..])
}

/// Returns the lane of an entry, or one that is none.
#[inline(always)]
fn lane_of(entry: Option<u8>) -> usize
    ensures { result ≡ lane_of entry }
{
    match entry {
        Some(index) => usize::from(index),
        None => 16,
    }
}
