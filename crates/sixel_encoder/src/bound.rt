//! A lower bound of the bytes of the plain output, found without writing it.

ghost use Rattle.std.specs.Prelude.{◌≡◌, ◌≢◌, ℕ, ◌+◌, ◌^◌, ◌<◌, ◌≤◌, length, slice_index};
ghost use Rattle.sixel_encoder.specs.{Text.{Drawing, band_text}, inside.Bound.{IsBound, IsChange}};
ghost use Rattle.sixel_encoder.specs.{inside.Compact.AreLanes, inside.Indexed.drawing_of};

use crate::band_entries::{BandEntries, TRANSPARENT};

/// The runs of sixels in the rows of a band, up to a column.
#[derive(Drop)]
struct RowRuns {
    /// Where the last run of each palette entry begins, 0 if its row has had one run.
    starts: [usize; 256],
    /// How many bytes the band takes at least.
    bytes: usize,
}

/// Returns how many bytes a band of the plain output takes at least.
///
/// A run of sixels takes a byte for each of its first three sixels. A row takes three bytes more,
/// because it has a color introducer and a graphics carriage return.
#[inline(never)]
pub fn least_bytes(entries: &BandEntries<'_>) -> usize
    requires { AreLanes entries.now }
    ensures { result ≤ length (band_text (drawing_of entries.now.image.now) entries.now.band) }
{
    let starts = [0; 256];
    let mut runs = RowRuns { starts, bytes: 1 };
    for column in 1..entries.image.width {
        if !entries.is_repeated(column) {
            for bit in 0..6 {
                let left = entries.lane(column - 1, bit);
                let right = entries.lane(column, bit);
                if left != right {
                    runs.end(left, column);
                    runs.end(right, column);
                }
            }
        }
    }
    runs.bytes
}

impl RowRuns {
    /// Ends the run of a lane's row before a column, where the lane is a palette entry.
    #[inline(always)]
    fn end(&mut self, lane: u16, column: usize)
        requires lane { lane ≤ 256 }
        requires column { 0 < column }
        requires starts { length self.old.starts ≡ 256 }
        requires order { (entry : ℕ) → slice_index self.old.starts entry ≤ column }
        requires few { self.old.bytes < 2 ^ 32 }
        ensures starts { length self.new.starts ≡ 256 }
        ensures few { self.new.bytes ≤ self.old.bytes + 7 }
        ensures bound { (drawing : Drawing) (band : ℕ)
            → (lane ≢ 256 → IsChange drawing band lane column)
            → IsBound drawing band column self.old → IsBound drawing band column self.new }
    {
        if lane == TRANSPARENT {
            return;
        }
        let entry = usize::from(lane);
        let start = self.starts[entry];
        self.starts[entry] = column;
        self.bytes += (column - start).min(3);
        if start == 0 {
            self.bytes += 4;
        }
    }
}
