//! The images of the files that `draw` names.

ghost use Rattle.std.specs.Prelude.{◌≡◌, ℕ, IfOk, IfSome, List, Option};
ghost use Rattle.sixel.specs.{Files.{AreDrawn, AreFileOutputs}, Words.{stated_of, words_of}};
ghost use Rattle.sixel.specs.WorkOutput.{IsPictureOutput, Writes};
ghost use Rattle.sixel.specs.declared.picture.PictureWord.TheVariants.{Draw};

use crate::draw::options::Drawing;
use crate::picture::{PictureWord, write_picture};
use std::alloc::Global;
use std::fmt::Display;
use std::io;
use std::io::Write;

/// The files of a host, and where their errors are reported.
pub trait Host {
    /// The content of the file of a name, where it is known.
    ghost content: { Self → List ℕ → Option (List ℕ) };

    /// Reads a file. It returns `None` after it has reported that it cannot.
    fn read(&self, name: &str) -> io::Result<Option<Vec<u8>>>
        ensures { IfOk result (λ read. IfSome read (λ bytes.
            IfSome (content self.now name.now) (λ all. bytes.items ≡ all))) };

    /// Reports the error of a file.
    fn report<E: Display>(&self, name: &str, error: &E) -> io::Result<()>;
}

/// Draws the images of the files that are named, with the palette of the palette file.
///
/// Returns the exit status: 1 if a file fails, else 0. The others are drawn all the same.
pub fn draw_named<H: Host, O: Write>(
    alloc: Global,
    host: &H,
    drawing: &Drawing<'_>,
    output: &mut O,
) -> io::Result<u8>
    ensures { IfOk result (λ status. Writes (λ text.
        AreDrawn (H.content host.now) (stated_of drawing.now) text status)
        (O.contents output.old) (O.contents output.new)) }
{
    let palette = match drawing.path {
        Some(path) => match host.read(path)? {
            Some(palette) => palette,
            None => return Ok(1),
        },
        None => Vec::new(alloc),
    };
    draw_files(alloc, host, drawing, &palette, output)
}

/// Draws the images of the files that are named, with this content of the palette file.
fn draw_files<H: Host, O: Write>(
    alloc: Global,
    host: &H,
    drawing: &Drawing<'_>,
    palette: &[u8],
    output: &mut O,
) -> io::Result<u8>
    ensures { IfOk result (λ status. Writes (λ text. AreFileOutputs (H.content host.now)
        (IsPictureOutput (Draw drawing.now.options) palette.now)
        (words_of drawing.now.files.now) text status)
        (O.contents output.old) (O.contents output.new)) }
{
    let word = PictureWord::Draw(drawing.options);
    let mut status = 0;
    'files: for name in drawing.files {
        let Some(file) = host.read(name)? else {
            status = 1;
            continue;
        };
        if let Err(fault) = write_picture(alloc, word, palette, &file, output) {
            host.report(name, &fault)?;
            status = 1;
        }
    }
    Ok(status)
}
