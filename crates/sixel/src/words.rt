//! The arguments that ask for SIXEL data to be decoded or pixels to be encoded.

ghost use Rattle.std.specs.Prelude.{IfSome, IfNone, option_map};
ghost use Rattle.sixel.specs.Words.{Asks, IsServable};

use crate::number::{number, number_within};

/// Work on the input.
#[derive(Clone, Copy)]
pub enum Word {
    /// Decode one payload, the data of a DCS sequence, and write its image.
    Payload,
    /// Decode the first DCS sequence, or all bytes as a payload, and write the image.
    Decode,
    /// Decode DCS sequences that follow one another, and write their images.
    ///
    /// One decoder decodes all. Each is fed from its first byte on, in chunks of this length.
    Frames(usize),
    /// Encode raw pixels: the width, the height and the greatest number of colors.
    Encode(usize, usize, u16),
}

/// Reads the first argument, and up to three that follow it.
///
/// `None` means that they are wrong.
pub fn read_word(word: &str, a: Option<&str>, b: Option<&str>, c: Option<&str>) -> Option<Word>
    ensures asked { IfSome result (λ asked. Asks asked word.now
        (option_map (λ t. t.now) a.entry) (option_map (λ t. t.now) b.entry)
        (option_map (λ t. t.now) c.entry)) }
    ensures usage { IfNone result ((asked : Word) → ¬ Asks asked word.now
        (option_map (λ t. t.now) a.entry) (option_map (λ t. t.now) b.entry)
        (option_map (λ t. t.now) c.entry)) }
    ensures servable { IfSome result IsServable }
{
    match (a, b, c, word) {
        (None, None, None, "payload") => Some(Word::Payload),
        (None, None, None, "decode") => Some(Word::Decode),
        (Some(len), None, None, "frames") => match number(len.as_bytes()) {
            None | Some(0) => None,
            Some(len) => Some(Word::Frames(len)),
        },
        (Some(width), Some(height), Some(colors), "encode") => {
            let colors = number_within(colors, 0, 65535)? as u16;
            match (number(width.as_bytes()), number(height.as_bytes())) {
                (Some(width), Some(height)) => Some(Word::Encode(width, height, colors)),
                _ => None,
            }
        }
        _ => None,
    }
}
