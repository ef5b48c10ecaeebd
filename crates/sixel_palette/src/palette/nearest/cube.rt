//! A cube of colors, and the keys that the entries of a palette have for it.
//!
//! A key is a squared distance and then a palette index, so the least one is that of the first
//! nearest entry.

ghost use Rattle.std.specs.Prelude.{◌≡◌, ◌+◌, ◌*◌, ◌/◌, ◌%◌, ◌<◌, ◌≤◌, ℕ, List, length};
ghost use Rattle.std.specs.Prelude.{slice_index};
ghost use Rattle.sixel_palette.specs.Palette.{distance, no_entry};
ghost use Rattle.sixel_palette.specs.inside.Codes.{color_of, code_count};
ghost use Rattle.sixel_palette.specs.inside.Keys.{entry_at, key_of, least_key, IsInCube};
ghost use Rattle.sixel_palette.specs.inside.Keys.{cube_position, group_position};

use crate::palette::buckets::Interval;
use crate::palette::nearest_entry::{Entry, NO_ENTRY};

/// How many keys of entries are found at once.
pub const AT_ONCE: usize = 64;

/// A cube of colors: an interval of each channel.
#[derive(Clone, Copy)]
pub struct Cube {
    pub red: Interval,
    pub green: Interval,
    pub blue: Interval,
}

impl Cube {
    /// The squared distance of a color to the nearest color of the cube.
    #[tactic(auto, unfolding(crate::specs::Palette::distance, crate::specs::Palette::square_gap))]
    #[inline(always)]
    pub fn gap(&self, color: [u8; 3]) -> u32
        ensures least { (c : List ℕ) → IsInCube self.now c → result ≤ distance color c }
        ensures small { result ≤ 195075 }
    {
        self.red.gap(color[0]) + self.green.gap(color[1]) + self.blue.gap(color[2])
    }

    /// The squared distance of a color to the farthest corner of the cube.
    #[tactic(auto, unfolding(crate::specs::Palette::distance, crate::specs::Palette::square_gap))]
    #[inline(always)]
    pub fn greatest_gap(&self, color: [u8; 3]) -> u32
        ensures greatest { (c : List ℕ) → IsInCube self.now c → distance color c ≤ result }
        ensures small { result ≤ 195075 }
    {
        self.red.greatest_gap(color[0])
            + self.green.greatest_gap(color[1])
            + self.blue.greatest_gap(color[2])
    }

    /// Keys of the next entries from `from` on: no color of the cube has lesser ones.
    ///
    /// They are found apart from their comparison, so that the compiler finds four at once.
    #[inline(never)]
    pub fn least_keys(&self, entries: &[Entry], from: usize) -> [u32; AT_ONCE]
        requires { from < length entries.now }
        ensures { (k : ℕ) → k < 64 → from + k < length entries.now → (c : List ℕ)
            → IsInCube self.now c
            → slice_index result k ≤ key_of (entry_at entries.now (from + k)) c }
    {
        let next = &entries[from..entries.len().min(from + AT_ONCE)];
        let mut keys = [0; AT_ONCE];
        for lane in 0..next.len() {
            let entry = next[lane];
            keys[lane] = key(self.gap(entry.color), entry.index);
        }
        keys
    }

    /// A key that the least key for each color of the cube is not above.
    pub fn greatest_key(&self, entries: &[Entry]) -> u32
        ensures { (c : List ℕ) → IsInCube self.now c → least_key entries.now c ≤ result }
    {
        let mut greatest = 256 * NO_ENTRY;
        for entry in entries {
            greatest = key(self.greatest_gap(entry.color), entry.index).min(greatest);
        }
        greatest
    }
}

/// The cube that the color of a code is in.
#[tactic(auto, unfolding(crate::specs::inside::Codes::color_of))]
pub fn cube_around(code: u32) -> Cube
    requires { code < code_count }
    ensures { (other : ℕ) → other < code_count → cube_position other ≡ cube_position code
        → IsInCube result (color_of other) }
{
    Cube {
        red: interval_from(code / 65536 / 8 * 8, 7),
        green: interval_from(code / 256 % 256 / 8 * 8, 7),
        blue: interval_from(code % 256 / 8 * 8, 7),
    }
}

/// The group that the color of a code is in.
#[tactic(auto, unfolding(crate::specs::inside::Codes::color_of))]
pub fn group_around(code: u32) -> Cube
    requires { code < code_count }
    ensures { (other : ℕ) → other < code_count → group_position other ≡ group_position code
        → IsInCube result (color_of other) }
{
    Cube {
        red: interval_from(code / 65536 / 32 * 32, 31),
        green: interval_from(code / 256 % 256 / 32 * 32, 31),
        blue: interval_from(code % 256 / 32 * 32, 31),
    }
}

/// The interval from a value up to `more` above it.
fn interval_from(low: u32, more: u32) -> Interval
    requires { low + more ≤ 255 }
    ensures low { result.low ≡ low }
    ensures high { result.high ≡ low + more }
{
    Interval {
        low: low as u8,
        high: (low + more) as u8,
    }
}

/// The key of an entry at a squared distance.
#[inline(always)]
pub fn key(squared: u32, index: u8) -> u32
    requires { squared ≤ 195075 }
    ensures value { result ≡ 256 * squared + index }
    ensures small { result < 256 * no_entry }
{
    256 * squared + u32::from(index)
}
