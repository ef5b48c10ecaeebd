//! The nearest entry of a color: its palette index and its squared distance.

ghost use Rattle.std.specs.Prelude.{◌≡◌, ℕ, List, [], ◌∷◌, ◌++◌, length};
ghost use Rattle.sixel_palette.specs.{Palette.{distance, nearest}, inside.Nearest.IsNearestEntry};

use crate::palette::distance::distance;

/// The squared distance of a color while there is no entry: above that of any two.
pub const NO_ENTRY: u32 = 195_076;

/// An entry of the palette: its color and its palette index.
#[derive(Clone, Copy)]
pub struct Entry {
    pub color: [u8; 3],
    pub index: u8,
}

/// A color's squared distance to its nearest entry, and that entry's palette index.
#[derive(Clone, Copy)]
pub struct NearestEntry {
    pub squared: u32,
    pub index: u8,
}

impl NearestEntry {
    /// Returns the nearest entry after one more entry at this squared distance.
    ///
    /// Of two entries at the same distance it is the first.
    #[inline(always)]
    pub fn with(self, squared: u32, index: u8) -> NearestEntry
        ensures { (entries : List (List ℕ)) (p c : List ℕ) → length entries ≡ index
            → distance p c ≡ squared → IsNearestEntry entries c self
            → IsNearestEntry (entries ++ p ∷ []) c result }
    {
        if squared < self.squared {
            NearestEntry { squared, index }
        } else {
            self
        }
    }
}

/// The squared distance of a color to the nearest of some entries.
pub fn squared_to_nearest(entries: &[[u8; 3]], color: [u8; 3]) -> u32
    ensures { result ≡ nearest entries.now color }
{
    let mut least = NO_ENTRY;
    for index in 0..entries.len() {
        least = distance(entries[index], color).min(least);
    }
    least
}
