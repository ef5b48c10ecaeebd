//! The bases of the words of flags, for the ranks of the codes.

ghost use Rattle.std.specs.Prelude.{◌≡◌, ◌/◌, length};
ghost use Rattle.sixel_palette.specs.inside.{Codes.code_count, Flags.{HasBases, IsPaged, rank_of}};

use crate::palette::color_set::flags::{Flags, PAGE_WORDS, PAGES};

impl Flags {
    /// Stores the base of each word, and returns how many flags are set.
    #[inline(never)]
    pub fn store_bases(&self, bases: &mut [u32]) -> u32
        requires paged { IsPaged self.now }
        requires size { length bases.old ≡ length self.now.words.items }
        ensures count { result ≡ rank_of self.now code_count }
        ensures bases { HasBases self.now bases.new (code_count / 64) }
    {
        let mut count = 0;
        for page in 0..PAGES {
            let start = self.starts[page];
            if start != 0 {
                for word in 0..PAGE_WORDS {
                    bases[start + word] = count;
                    count += self.words[start + word].count_ones();
                }
            }
        }
        count
    }
}
