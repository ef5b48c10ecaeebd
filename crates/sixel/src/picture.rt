//! Work on images in netpbm's formats: its arguments, its input and its output.

ghost use Rattle.std.specs.Prelude.{◌≡◌, ◌∷◌, IfNone, IfSome, MatchOption, OnOk, codes};
ghost use Rattle.std.specs.Io.KnownBytes.{IsAtEnd};
ghost use Rattle.sixel.specs.Words.{BeginsWithDraw, IsPictureAskedBy, words_of};
ghost use Rattle.sixel.specs.WorkOutput.{IsPictureOutput, ServesPicture, ServesPictureInput};

use crate::draw::draw;
use crate::draw::options::{DrawOptions, read_drawing};
use crate::fault::PictureFault;
use crate::image_output::write_pam;
use crate::read::read_to_end;
use crate::write::write_all;
use icy_sixel::SixelImage;
use std::alloc::Global;
use std::io::{Read, Write};

/// Work that writes or reads an image in netpbm's formats.
#[derive(Clone, Copy)]
pub enum PictureWord {
    /// Decode as [`Word::Decode`](crate::words::Word::Decode) does, and write a PAM file.
    Pam,
    /// Encode the image of a PAM, PPM or PGM file, in a refined palette or a given one.
    Draw(DrawOptions),
}

/// Reads `pam`, or `draw`, its options and the names of files.
///
/// `None` means that the arguments ask for other work, or are wrong.
pub fn read_picture_word(words: &[String]) -> Option<PictureWord>
    ensures asked { IfSome result (IsPictureAskedBy (words_of words.now)) }
    ensures other { IfNone result ((word : PictureWord)
        → ¬ IsPictureAskedBy (words_of words.now) word) }
{
    match words {
        [word] if word.as_str() == "pam" => Some(PictureWord::Pam),
        _ => {
            let drawing = read_drawing(after_draw(words)?).ok()?;
            Some(PictureWord::Draw(drawing.options))
        }
    }
}

/// The arguments after `draw`, if it is the first one.
pub fn after_draw(words: &[String]) -> Option<&[String]>
    ensures { MatchOption result (¬ BeginsWithDraw (words_of words.now))
        (λ rest. words_of words.now ≡ codes "draw" ∷ words_of rest.now) }
{
    match words {
        [first, rest @ ..] if first.as_str() == "draw" => Some(rest),
        _ => None,
    }
}

/// Reads the input to its end, does the work and writes the output.
///
/// The palette is the content of the palette file, if an option names one.
///
/// The clauses on bytes hold if the reader reports the bytes that it has left, and the writer those
/// that it contains.
pub fn serve_picture<R: Read, O: Write>(
    alloc: Global,
    word: PictureWord,
    palette: &[u8],
    input: &mut R,
    output: &mut O,
) -> Result<(), PictureFault>
    ensures served { ServesPictureInput result (IsPictureOutput word palette.now)
        (R.remaining input.old) (O.contents output.old) (O.contents output.new) }
    ensures at_end { OnOk result (IsAtEnd (R.remaining input.new)) }
{
    let bytes = read_to_end(alloc, input, 0)?;
    write_picture(alloc, word, palette, &bytes, output)
}

/// Does the work on these bytes and writes the output.
///
/// The palette is the content of the palette file, if an option names one.
pub fn write_picture<O: Write>(
    alloc: Global,
    word: PictureWord,
    palette: &[u8],
    bytes: &[u8],
    output: &mut O,
) -> Result<(), PictureFault>
    ensures { ServesPicture result (IsPictureOutput word palette.now bytes.now)
        (O.contents output.old) (O.contents output.new) }
{
    match word {
        PictureWord::Pam => {
            let image = SixelImage::decode(alloc, bytes)?;
            write_pam(alloc, &image, output).map_err(PictureFault::Shared)
        }
        PictureWord::Draw(options) => {
            let text = draw(alloc, options, palette, bytes)?;
            write_all(output, text.as_bytes()).map_err(PictureFault::Shared)
        }
    }
}
