//! The number of an image's pixels that have each of its distinct colors.

ghost use Rattle.std.specs.{List.sum, Prelude.{◌≡◌, ◌+◌, ◌*◌, ◌/◌, ◌<◌, ◌≤◌, length, IfOk}};
ghost use Rattle.sixel_base.specs.Limits.{area_limit};
ghost use Rattle.sixel_palette.specs.inside.{Codes.IsPixelWord, Counts.{AreCounts, HasPosition}};
ghost use Rattle.sixel_palette.specs.inside.Ranks.{IsColorSetOf};

use crate::palette::color_set::ColorSet;
use crate::palette::colors::{are_four_of, four_words, pixel_word};
use std::alloc::{AllocError, Global};

/// The sum of the counts.
#[inline(never)]
pub fn total_of(counts: &[u32]) -> u64
    requires { sum counts.now ≤ area_limit }
    ensures { result ≡ sum counts.now }
{
    let mut total = 0;
    for count in counts {
        total += u64::from(*count);
    }
    total
}

impl ColorSet {
    /// The number of an image's opaque pixels of each color.
    ///
    /// Four pixels that are equal to the one before them are counted without a search.
    #[inline(never)]
    pub fn counts(&self, alloc: Global, pixels: &[u8]) -> Result<Vec<u32>, AllocError>
        requires area { length pixels.now / 4 ≤ area_limit }
        requires colors { IsColorSetOf pixels.now self.now }
        ensures { IfOk result (λ counts.
            AreCounts pixels.now self.now.codes.items counts.items (length pixels.now / 4)) }
    {
        let mut counts = vec![in alloc; 0; self.codes.len()]?;
        let count = pixels.len() / 4;
        let mut last = 0;
        let mut position = 0;
        for four in 0..count / 4 {
            if !are_four_of(pixels, 4 * four, last) {
                let words = four_words(pixels, 4 * four);
                for lane in 0..4 {
                    position = self.count_word(&mut counts, pixels, 4 * four + lane, words[lane]);
                }
                last = words[3];
            } else if last % 256 >= 128 {
                counts[position] += 4;
            }
        }
        for pixel in count / 4 * 4..count {
            self.count_word(&mut counts, pixels, pixel, pixel_word(pixels, pixel));
        }
        Ok(counts)
    }

    /// Counts a pixel of this word, if it is opaque, and returns the position of its color.
    #[inline(always)]
    fn count_word(&self, counts: &mut [u32], pixels: &[u8], pixel: usize, word: u32) -> usize
        requires area { length pixels.now / 4 ≤ area_limit }
        requires within { pixel < length pixels.now / 4 }
        requires word { IsPixelWord pixels.now pixel word }
        requires colors { IsColorSetOf pixels.now self.now }
        requires counts { AreCounts pixels.now self.now.codes.items counts.old pixel }
        ensures counts { AreCounts pixels.now self.now.codes.items counts.new (pixel + 1) }
        ensures position { HasPosition self.now.codes.items word result }
    {
        if word % 256 < 128 {
            return 0;
        }
        let position = self.position_of(word / 256);
        counts[position] += 1;
        position
    }
}
