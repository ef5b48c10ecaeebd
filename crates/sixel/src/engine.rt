//! The work of the program on its input, from the first byte to the output.

ghost use Rattle.std.specs.{Io.KnownBytes.IsAtEnd, Prelude.OnOk};
ghost use Rattle.sixel.specs.{Words.IsServable, WorkOutput.{IsOutput, Serves, ServesInput}};

use crate::fault::Fault;
use crate::image_output::write_image;
use crate::read::read_to_end;
use crate::sequences::write_sequences;
use crate::words::Word;
use crate::write::write_all;
use icy_sixel::{DcsSettings, EncodeOptions, SixelImage, sixel_encode};
use std::alloc::Global;
use std::io::{Read, Write};

/// Reads the input to its end, does the work and writes the output.
///
/// The chunks of [`Word::Frames`] have at least one byte, as those of `read_word` have. The clauses
/// on bytes hold if the reader reports the bytes that it has left, and the writer those that it
/// contains.
pub fn serve<R: Read, O: Write>(
    alloc: Global,
    word: Word,
    input: &mut R,
    output: &mut O,
) -> Result<(), Fault>
    requires { IsServable word }
    ensures served { ServesInput result (IsOutput word) (R.remaining input.old)
        (O.contents output.old) (O.contents output.new) }
    ensures at_end { OnOk result (IsAtEnd (R.remaining input.new)) }
{
    let bytes = read_to_end(alloc, input, input_len(word))?;
    run(alloc, word, &bytes, output)
}

/// The expected number of bytes of the input, or 0 if the input can have any number.
///
/// Raw pixels have four bytes each.
fn input_len(word: Word) -> usize {
    match word {
        Word::Encode(width, height, _) => width.saturating_mul(height).saturating_mul(4),
        Word::Payload | Word::Decode | Word::Frames(_) => 0,
    }
}

/// Does the work on these bytes.
fn run<O: Write>(alloc: Global, word: Word, bytes: &[u8], output: &mut O) -> Result<(), Fault>
    requires { IsServable word }
    ensures { Serves result (IsOutput word bytes.now) (O.contents output.old)
        (O.contents output.new) }
{
    match word {
        Word::Payload => {
            let settings = DcsSettings::new(None, None, None);
            let image = SixelImage::decode_from_dcs(alloc, bytes, settings)?;
            write_image(alloc, &image, output)
        }
        Word::Decode => {
            let image = SixelImage::decode(alloc, bytes)?;
            write_image(alloc, &image, output)
        }
        Word::Frames(length) => write_sequences(alloc, length, bytes, output),
        Word::Encode(width, height, max_colors) => {
            let options = EncodeOptions { max_colors };
            let text = sixel_encode(alloc, bytes, width, height, &options)?;
            write_all(output, text.as_bytes())
        }
    }
}
