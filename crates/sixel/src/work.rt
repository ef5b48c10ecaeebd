//! The work that all arguments ask for.

ghost use Rattle.std.specs.Prelude.{IfSome, IfNone};
ghost use Rattle.sixel.specs.{Words.{IsAskedBy, IsDoable, words_of}, declared.work.Work.Work};

use crate::picture::{PictureWord, read_picture_word};
use crate::words::{Word, read_word};

/// Work on the input.
#[derive(Clone, Copy)]
pub enum Work {
    /// SIXEL data are decoded, or raw pixels encoded.
    Data(Word),
    /// An image is written or read in netpbm's formats.
    Picture(PictureWord),
}

/// The work that the arguments after the program's own name ask for.
///
/// `None` means that they are wrong.
pub fn read_work(words: &[String]) -> Option<Work>
    ensures asked { IfSome result (IsAskedBy (words_of words.now)) }
    ensures usage { IfNone result ((work : Work) → ¬ IsAskedBy (words_of words.now) work) }
    ensures doable { IfSome result IsDoable }
{
    if let Some(word) = read_picture_word(words) {
        return Some(Work::Picture(word));
    }
    let word = match words {
        [word] => read_word(word, None, None, None),
        [word, a] => read_word(word, Some(a), None, None),
        [word, a, b] => read_word(word, Some(a), Some(b), None),
        [word, a, b, c] => read_word(word, Some(a), Some(b), Some(c)),
        _ => None,
    };
    Some(Work::Data(word?))
}
