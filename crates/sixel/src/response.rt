//! How the program ends for its arguments and its input, with which exit status.

ghost use Rattle.std.specs.Prelude.{◌≡◌, MatchResult};
ghost use Rattle.sixel.specs.declared.fault.PictureFault.{PictureFault};
ghost use Rattle.sixel.specs.declared.response.Response.TheVariants.{Done, Usage, Failed};
ghost use Rattle.sixel.specs.{Words.{IsAskedBy, words_of}, WorkOutput.{IsWorkOutput, Responds}};

use crate::engine::serve;
use crate::fault::PictureFault;
use crate::picture::serve_picture;
use crate::work::{Work, read_work};
use std::alloc::Global;
use std::io::{Read, Write};

/// How the program ends.
#[derive(Drop)]
pub enum Response {
    /// The work or the notice that the arguments ask for is done.
    Done,
    /// The arguments are wrong.
    Usage,
    /// The program stops with an error.
    Failed(PictureFault),
}

impl Response {
    /// The exit status: 0, 2 or 1.
    pub fn status(&self) -> u8
        ensures done { self.now ≡ Done → result ≡ 0 }
        ensures usage { self.now ≡ Usage → result ≡ 2 }
        ensures failed { (fault : PictureFault) → self.now ≡ Failed fault → result ≡ 1 }
    {
        match self {
            Self::Done => 0,
            Self::Usage => 2,
            Self::Failed(_) => 1,
        }
    }
}

/// Does the work of the arguments after the program's own name.
///
/// The palette is the content of the palette file, if an option names one. If the
/// arguments ask for no work, nothing is read or written. The clauses on bytes hold if the reader
/// reports the bytes that it has left, and the writer those that it contains.
pub fn respond<R: Read, O: Write>(
    alloc: Global,
    words: &[String],
    palette: &[u8],
    input: &mut R,
    output: &mut O,
) -> Response
    ensures responds { Responds result (IsAskedBy (words_of words.now))
        (λ work. IsWorkOutput work palette.now) (R.remaining input.old)
        (O.contents output.old) (O.contents output.new) }
    ensures untouched { result ≡ Usage
        → (output.new ≡ output.old) × (input.new ≡ input.old) }
{
    match read_work(words) {
        Some(Work::Data(word)) => {
            response_of(serve(alloc, word, input, output).map_err(PictureFault::Shared))
        }
        Some(Work::Picture(word)) => {
            response_of(serve_picture(alloc, word, palette, input, output))
        }
        None => Response::Usage,
    }
}

/// How the program ends after work with this result.
pub fn response_of(outcome: Result<(), PictureFault>) -> Response
    ensures { MatchResult outcome (λ _. result ≡ Done) (λ fault. result ≡ Failed fault) }
{
    match outcome {
        Ok(()) => Response::Done,
        Err(fault) => Response::Failed(fault),
    }
}
