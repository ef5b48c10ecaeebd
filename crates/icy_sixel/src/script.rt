//! Lists of steps on one decoder: images, resets, crop, limits and clips.
//!
//! The outcome of a step depends on its bytes. The specification does not mention chunks.

ghost use Rattle.std.specs.Prelude.{◌≡◌, ◌≤◌, [], length, vec_len, vec_capacity};
ghost use Rattle.std.specs.Prelude.{OnErr, IfOk, IfErr, MatchResult};
ghost use Rattle.sixel_base.specs.declared.error.SixelError.TheVariants.{OutOfMemory};
ghost use Rattle.icy_sixel.specs.Script.{AreOutcomes, IsOutcome, IsSessionOutcome};
ghost use Rattle.icy_sixel.specs.Script.{frame_meaning, string_meaning};

mod session;

use crate::decoder::{DcsSettings, SixelDecoder};
use crate::receiver::SixelReceiver;
use crate::sixel_image::SixelImage;
use session::Session;
use sixel_base::{Result, SixelError};
pub use sixel_decoder::Status;
use std::alloc::Global;

/// How a session ends after its bytes are fed.
#[derive(Clone, Copy, Debug, PartialEq, Eq)]
pub enum End {
    /// It is finished, and can return an image.
    Finish,
    /// It is aborted.
    Abort,
}

/// One thing to do with a decoder.
///
/// The bytes of a payload or a DCS sequence are fed in chunks of the lengths in `cuts`. A length
/// can be 0. A length past the end takes what is left, and what remains is the last chunk. After a
/// status that ends the image no chunk is fed. The cuts have no effect on the outcome.
#[derive(Clone, Copy)]
pub enum Step<'a> {
    /// Resets the registers to those of a new decoder.
    Reset,
    /// Sets whether images are cropped, as by [`SixelDecoder::set_raster_crop`].
    RasterCrop(bool),
    /// Sets how many pixels an image may have, as by [`SixelDecoder::set_pixel_limit`].
    PixelLimit(usize),
    /// Sets the clip, as by [`SixelDecoder::set_clip`].
    Clip {
        width: usize,
        height: usize,
    },
    /// Feeds a payload in chunks.
    Frame {
        settings: DcsSettings,
        bytes: &'a [u8],
        cuts: &'a [usize],
        ending: End,
    },
    /// Feeds a DCS sequence in chunks.
    Dcs {
        bytes: &'a [u8],
        cuts: &'a [usize],
        ending: End,
    },
    /// Decodes bytes in one call, as by [`SixelDecoder::decode`].
    Decode(&'a [u8]),
    /// Decodes a payload in one call, as by [`SixelDecoder::decode_from_dcs`].
    DecodeFromDcs(&'a [u8], DcsSettings),
}

/// The outcome of a step.
#[derive(Debug, Drop)]
pub enum Outcome {
    /// The registers are those of a new decoder.
    Reset,
    /// The crop, the limit or the clip is set, and no register changed.
    Changed,
    /// The step failed, and changed no register.
    Failed(SixelError),
    /// A session consumed `consumed` bytes, had this status, and returned this image.
    Finished {
        consumed: usize,
        status: Status,
        image: SixelImage,
    },
    /// A session consumed `consumed` bytes, had this status, and was aborted.
    ///
    /// No register changed.
    Aborted {
        consumed: usize,
        status: Status,
    },
    /// Bytes that were decoded in one call have this image.
    Decoded(SixelImage),
}

/// Runs the steps in order, and returns one outcome per step.
///
/// ```rust
/// let steps = [
///     Step::Dcs {
///         bytes: string,
///         cuts: &[4, 4],
///         ending: End::Finish,
///     },
///     Step::Dcs {
///         bytes: string,
///         cuts: &[],
///         ending: End::Abort,
///     },
///     Step::Reset,
/// ];
/// run(alloc, decoder, &steps)
/// ```
///
/// A step that fails is an outcome too, and the next one starts from the decoder as it is. The only
/// error is [`SixelError::OutOfMemory`]. It comes before the first step, because the list of
/// outcomes is allocated first.
pub fn run(alloc: Global, decoder: &mut SixelDecoder, steps: &[Step<'_>]) -> Result<Vec<Outcome>>
    ensures outcomes { IfOk result (λ outcomes.
        AreOutcomes decoder.old steps.now outcomes.items decoder.new) }
    ensures refused { IfErr result (λ error. error ≡ OutOfMemory) }
    ensures kept { OnErr result (decoder.new ≡ decoder.old) }
{
    let mut outcomes = Vec::with_capacity(alloc, steps.len())?;
    take_steps(alloc, decoder, steps, &mut outcomes);
    Ok(outcomes)
}

/// Runs the steps in order, and stores the outcomes in allocated capacity.
///
/// So it never fails. If an allocation of a step fails, that is the outcome of the step.
fn take_steps(
    alloc: Global,
    decoder: &mut SixelDecoder,
    steps: &[Step<'_>],
    outcomes: &mut Vec<Outcome>,
)
    requires empty { outcomes.old.items ≡ [] }
    requires none { vec_len outcomes.old ≡ 0 }
    requires room { length steps.now ≤ vec_capacity outcomes.old }
    ensures { AreOutcomes decoder.old steps.now outcomes.new.items decoder.new }
{
    for step in steps {
        let outcome = take_step(alloc, decoder, step);
        outcomes.push(outcome).unwrap();
    }
}

/// Runs one step.
fn take_step(alloc: Global, decoder: &mut SixelDecoder, step: &Step<'_>) -> Outcome
    ensures { IsOutcome decoder.old step.now result decoder.new }
{
    match step {
        Step::Reset => {
            decoder.reset_palette();
            Outcome::Reset
        }
        Step::RasterCrop(on) => {
            decoder.set_raster_crop(*on);
            Outcome::Changed
        }
        Step::PixelLimit(pixels) => {
            decoder.set_pixel_limit(*pixels);
            Outcome::Changed
        }
        Step::Clip { width, height } => {
            decoder.set_clip(*width, *height);
            Outcome::Changed
        }
        Step::Frame {
            settings,
            bytes,
            cuts,
            ending,
        } => {
            let session = Session::new(bytes, cuts, *ending);
            play_payload(alloc, decoder, *settings, &session)
        }
        Step::Dcs {
            bytes,
            cuts,
            ending,
        } => {
            let session = Session::new(bytes, cuts, *ending);
            play_dcs(alloc, decoder, &session)
        }
        Step::Decode(bytes) => decoded(decoder.decode(alloc, bytes)),
        Step::DecodeFromDcs(bytes, settings) => {
            decoded(decoder.decode_from_dcs(alloc, bytes, *settings))
        }
    }
}

/// Plays the session of a payload.
fn play_payload(
    alloc: Global,
    decoder: &mut SixelDecoder,
    settings: DcsSettings,
    session: &Session<'_>,
) -> Outcome
    ensures { IsSessionOutcome decoder.old
        (frame_meaning decoder.old.pixel_limit settings session.now.bytes.now)
        session.now.ending result decoder.new }
{
    let mut receiver = SixelReceiver::with_decoder(SixelDecoder {
        state: decoder.state,
    });
    receiver.begin_frame(alloc, settings);
    session.play(receiver, decoder)
}

/// Plays the session of a DCS sequence.
fn play_dcs(alloc: Global, decoder: &mut SixelDecoder, session: &Session<'_>) -> Outcome
    ensures { IsSessionOutcome decoder.old
        (string_meaning decoder.old.pixel_limit session.now.bytes.now)
        session.now.ending result decoder.new }
{
    let mut receiver = SixelReceiver::with_decoder(SixelDecoder {
        state: decoder.state,
    });
    receiver.begin_dcs(alloc);
    session.play(receiver, decoder)
}

/// The outcome of decoding in one call: the image, or the error.
fn decoded(image: Result<SixelImage>) -> Outcome
    ensures { MatchResult image (λ image. result ≡ Outcome.Decoded image)
        (λ error. result ≡ Outcome.Failed error) }
{
    match image {
        Ok(image) => Outcome::Decoded(image),
        Err(error) => Outcome::Failed(error),
    }
}
