//! The session of a step: its bytes are fed in chunks, and then it ends.

ghost use Rattle.std.specs.Prelude.{◌≡◌, ◌++◌, [], true, false, nat_lt, None, length, ◌+◌, ◌<◌};
ghost use Rattle.std.specs.Prelude.{OnOk, IfOk, IfErr, MatchResult, List, ℕ};
ghost use Rattle.sixel_base.specs.Fault.{Faults};
ghost use Rattle.icy_sixel.specs.Receiver.{begun, count, fault, growths, is_open, status};
ghost use Rattle.icy_sixel.specs.{Script.IsSessionOutcome, inside.Session.{IsWhole, meaning}};

use crate::decoder::SixelDecoder;
use crate::receiver::{Received, SixelReceiver};
use crate::script::{End, Outcome, Status};
use crate::sixel_image::SixelImage;
use sixel_base::Result;

/// The bytes of a step, the lengths of their chunks, and how the session ends.
#[derive(Clone, Copy)]
pub struct Session<'a> {
    bytes: &'a [u8],
    cuts: &'a [usize],
    ending: End,
}

impl<'a> Session<'a> {
    /// A session that is fed these bytes, in chunks of these lengths.
    pub fn new(bytes: &'a [u8], cuts: &'a [usize], ending: End) -> Self
        ensures bytes { result.bytes.now ≡ bytes.now }
        ensures ending { result.ending ≡ ending }
    {
        Self {
            bytes,
            cuts,
            ending,
        }
    }

    /// Plays the session on the open image of a receiver, and stores its decoder.
    pub fn play(&self, mut receiver: SixelReceiver, decoder: &mut SixelDecoder) -> Outcome
        requires begun { receiver.image ≡ begun receiver.image.form receiver.decoder }
        requires open { is_open receiver.image.form ≡ true }
        ensures { IsSessionOutcome receiver.decoder
            (meaning receiver.decoder.pixel_limit receiver.image.form self.now.bytes.now)
            self.now.ending result decoder.new }
    {
        let outcome = self.outcome(&mut receiver);
        *decoder = receiver.into_decoder();
        outcome
    }

    /// Feeds the image, and ends it unless a feed was rejected.
    fn outcome(&self, receiver: &mut SixelReceiver) -> Outcome
        requires begun { receiver.old.image ≡ begun receiver.old.image.form
            receiver.old.decoder }
        requires open { is_open receiver.old.image.form ≡ true }
        ensures { IsSessionOutcome receiver.old.decoder
            (meaning receiver.old.decoder.pixel_limit receiver.old.image.form self.now.bytes.now)
            self.now.ending result receiver.new.decoder }
    {
        match self.feed(receiver) {
            Ok(fed) => end(receiver, fed, self.ending),
            Err(error) => Outcome::Failed(error),
        }
    }

    /// Feeds the chunks up to the end of the image, and returns the bytes consumed.
    fn feed(&self, receiver: &mut SixelReceiver) -> Result<Received>
        requires open { is_open receiver.old.image.form ≡ true }
        requires fresh { receiver.old.image.bytes ≡ [] }
        requires accepted { receiver.old.image.is_refused ≡ false }
        requires stored { receiver.old.image.released ≡ 0 }
        ensures decoder { receiver.new.decoder ≡ receiver.old.decoder }
        ensures form { receiver.new.image.form ≡ receiver.old.image.form }
        ensures start { receiver.new.image.start ≡ receiver.old.image.start }
        ensures accepted { OnOk result (receiver.new.image.is_refused ≡ false) }
        ensures stored { OnOk result (receiver.new.image.released ≡ 0) }
        ensures whole { OnOk result
            (IsWhole receiver.old.image.form receiver.new.image.bytes self.now.bytes.now) }
        ensures faultless { OnOk result (fault receiver.old.image.start.pixel_limit
            receiver.old.image.form self.now.bytes.now ≡ None) }
        ensures consumed { IfOk result (λ fed.
            fed.consumed ≡ count receiver.old.image.form self.now.bytes.now) }
        ensures status { IfOk result (λ fed.
            fed.status ≡ status receiver.old.image.form self.now.bytes.now) }
        ensures error { IfErr result (λ error.
            Faults error (nat_lt 0 (growths receiver.old.image.form self.now.bytes.now))
            (fault receiver.old.image.start.pixel_limit
            receiver.old.image.form self.now.bytes.now)) }
    {
        let mut consumed = 0;
        let mut rest = self.bytes;
        for cut in self.cuts {
            let (chunk, left) = split_chunk(rest, *cut);
            match feed_chunk(receiver, chunk, consumed) {
                Ok(fed) if !fed.status.has_ended() => {
                    consumed = fed.consumed;
                    rest = left;
                }
                result => return result,
            }
        }
        feed_chunk(receiver, rest, consumed)
    }
}

/// Splits off the next chunk: as long as the cut says, or all that is left.
fn split_chunk(rest: &[u8], cut: usize) -> (&[u8], &[u8])
    ensures { result.0.now ++ result.1.now ≡ rest.now }
{
    rest.split_at(rest.len().min(cut))
}

/// Feeds the next chunk, and adds what it consumed to what those before it did.
fn feed_chunk(receiver: &mut SixelReceiver, chunk: &[u8], before: usize) -> Result<Received>
    requires open { is_open receiver.old.image.form ≡ true }
    requires accepted { receiver.old.image.is_refused ≡ false }
    requires counted { before ≡ count receiver.old.image.form receiver.old.image.bytes }
    requires capacity { length receiver.old.image.bytes + length chunk.now
        < 18446744073709551616 }
    ensures decoder { receiver.new.decoder ≡ receiver.old.decoder }
    ensures form { receiver.new.image.form ≡ receiver.old.image.form }
    ensures start { receiver.new.image.start ≡ receiver.old.image.start }
    ensures bytes { receiver.new.image.bytes ≡ receiver.old.image.bytes ++ chunk.now }
    ensures accepted { OnOk result (receiver.new.image.is_refused ≡ false) }
    ensures stored { OnOk result
        (receiver.new.image.released ≡ receiver.old.image.released) }
    ensures faultless { OnOk result (fault receiver.old.image.start.pixel_limit
        receiver.old.image.form receiver.new.image.bytes ≡ None) }
    ensures consumed { IfOk result (λ fed.
        fed.consumed ≡ count receiver.old.image.form receiver.new.image.bytes) }
    ensures status { IfOk result (λ fed.
        fed.status ≡ status receiver.old.image.form receiver.new.image.bytes) }
    ensures error { IfErr result (λ error. Faults error
        (nat_lt (growths receiver.old.image.form receiver.old.image.bytes)
        (growths receiver.old.image.form receiver.new.image.bytes))
        (fault receiver.old.image.start.pixel_limit
        receiver.old.image.form receiver.new.image.bytes)) }
{
    let mut fed = receiver.feed(chunk)?;
    fed.consumed += before;
    Ok(fed)
}

/// Finishes or aborts the image that was fed.
fn end(receiver: &mut SixelReceiver, fed: Received, ending: End) -> Outcome
    requires accepted { receiver.old.image.is_refused ≡ false }
    requires stored { receiver.old.image.released ≡ 0 }
    requires start { receiver.old.image.start ≡ receiver.old.decoder }
    ensures { (bytes : List ℕ)
        → IsWhole receiver.old.image.form receiver.old.image.bytes bytes
        → fault receiver.old.decoder.pixel_limit receiver.old.image.form bytes ≡ None
        → fed.consumed ≡ count receiver.old.image.form bytes
        → fed.status ≡ status receiver.old.image.form bytes
        → IsSessionOutcome receiver.old.decoder
        (meaning receiver.old.decoder.pixel_limit receiver.old.image.form bytes) ending result
        receiver.new.decoder }
{
    match ending {
        End::Finish => finished(fed, receiver.finish_image()),
        End::Abort => {
            let Received { consumed, status } = fed;
            receiver.abort();
            Outcome::Aborted { consumed, status }
        }
    }
}

/// The outcome of a session that was finished: its image, or the error.
fn finished(fed: Received, image: Result<SixelImage>) -> Outcome
    ensures { MatchResult image
        (λ image. result ≡ Outcome.Finished fed.consumed fed.status image)
        (λ error. result ≡ Outcome.Failed error) }
{
    match image {
        Ok(image) => Outcome::Finished {
            consumed: fed.consumed,
            status: fed.status,
            image,
        },
        Err(error) => Outcome::Failed(error),
    }
}
