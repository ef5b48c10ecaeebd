//! The reader of a DCS sequence in chunks.
//!
//! The contracts of its calls are the records of `DcsCalls`.

ghost use Rattle.std.specs.Prelude.{◌≡◌, ◌≤◌, ◌<◌, ◌∷◌, [], true, false, max, None, IsTrue, IfErr};
ghost use Rattle.std.specs.Prelude.{IfSome};
ghost use Rattle.sixel_base.specs.Dcs.{dcs_status, has_come, has_ended};
ghost use Rattle.sixel_decoder.specs.{DcsCalls.{begun, byte_read, IsFed}, FedImages.uncounted};
ghost use Rattle.sixel_decoder.specs.{FinalRows.dcs_final_rows, FinishedImages.IsTaken};
ghost use Rattle.sixel_decoder.specs.{ImageEnds.Extends, Reception.{of_sequence, HasNoPayload}};
ghost use Rattle.sixel_decoder.specs.Reception.{IsPayloadOf, OfString};

use crate::dcs_state::DcsState;
use crate::decoded_payload::DecodedPayload;
use crate::image_end::sequence_end;
use crate::payload_reader::PayloadReader;
use crate::received::FailedRead;
use sixel_base::ghost_list::GhostList;
use sixel_base::state::DecoderState;
use sixel_base::status::{SixelDcsFeedResult, SixelDcsFeedStatus};
use sixel_base::{Result, SixelError};
use sixel_canvas::band_canvas::BandCanvas;
use sixel_canvas::drawing::Canvas;
use std::alloc::Global;
use std::marker::Model;
use std::result;

/// A DCS sequence that is read in chunks.
///
/// It has the decoder that its payload begins from, and how the sequence has ended, if it has.
#[derive(Drop)]
pub struct DcsReader<C: Canvas + Drop> {
    state: DcsState<C>,
    ended: Option<SixelDcsFeedStatus>,
    alloc: Global,
    decoder: DecoderState,
    log: GhostList<u8>,
}

impl<C: Canvas + Drop> Model for DcsReader<C> {
    ghost use Rattle.sixel_decoder.specs.Session.{DcsSession};

    ghost Value = { DcsSession };

    ghost use Rattle.sixel_decoder.specs.inside.DcsReader.{session_of, IsFollowing};

    ghost view = { session_of };

    ghost invariant = { IsFollowing };
}

impl<C: Canvas + Drop> DcsReader<C> {
    /// Creates a reader that was fed nothing.
    pub fn new(alloc: Global, decoder: DecoderState) -> DcsReader<C>
        ensures { result ≡ begun decoder }
    {
        DcsReader {
            state: DcsState::Start,
            ended: None,
            alloc,
            decoder,
            log: GhostList::new(),
        }
    }

    /// Reads a chunk as far as the DCS sequence goes. After an error every feed fails.
    pub fn feed(&mut self, chunk: &[u8]) -> result::Result<SixelDcsFeedResult, FailedRead>
        ensures fed { IsFed self.old self.new chunk.now (uncounted result) }
        ensures counted { IfErr result (λ failed.
            Extends OfString self.old.bytes self.new.bytes chunk.now failed.fed) }
    {
        let is_begun = self.state.is_begun();
        self.log.extend(chunk);
        match self
            .state
            .feed(self.alloc, &self.decoder, &mut self.ended, chunk)
        {
            Ok(fed) => Ok(fed),
            Err(error) => {
                self.state.fail();
                Err(sequence_end(is_begun, &mut self.ended, chunk, error))
            }
        }
    }

    /// Reads a byte of the payload that cannot fail, and returns whether it is one.
    ///
    /// Any other byte changes nothing. Before the payload, after its terminator and after an error
    /// no byte is read.
    #[inline(always)]
    pub fn try_byte(&mut self, byte: u8) -> bool
        ensures fed { IsTrue result → IsFed self.old self.new (byte ∷ []) byte_read }
        ensures left { result ≡ false → self.new ≡ self.old }
    {
        let DcsState::Payload(reader) = &mut self.state else {
            return false;
        };
        if !reader.try_byte(byte) {
            return false;
        }
        self.log.push(byte);
        true
    }

    /// Lends the reader of the payload, once it has begun and unless a feed has failed.
    pub fn payload(&self) -> Option<&PayloadReader<C>>
        ensures lent { IfSome result (λ reader.
            IsPayloadOf reader.now (of_sequence self.now)) }
        ensures none { result ≡ None → HasNoPayload (of_sequence self.now) }
    {
        match &self.state {
            DcsState::Payload(reader) => Some(reader),
            _ => None,
        }
    }

    /// Whether the end of the DCS sequence was fed, and no feed has failed.
    pub fn has_ended(&self) -> bool
        ensures accepted { self.now.is_refused ≡ false
            → result ≡ has_ended (dcs_status self.now.bytes) }
        ensures refused { self.now.is_refused ≡ true → result ≡ false }
    {
        match &self.state {
            DcsState::Payload(_) => has_come(self.ended),
            _ => false,
        }
    }

    /// Returns the rows of the image that are left, and the registers after it.
    ///
    /// The DCS sequence has ended, or is lenient.
    pub fn finish(self) -> Result<DecodedPayload>
        ensures { IsTaken (of_sequence self) result }
    {
        let DcsReader {
            state,
            ended,
            decoder,
            ..
        } = self;
        match state {
            DcsState::Failed => Err(SixelError::dcs_stream_failed()),
            DcsState::Payload(reader) => {
                if has_come(ended) || decoder.pixel_limit.lenient() {
                    reader.finish()
                } else {
                    Err(SixelError::incomplete())
                }
            }
            DcsState::Start | DcsState::Escape | DcsState::Header(_) => {
                Err(SixelError::incomplete())
            }
        }
    }
}

impl DcsReader<BandCanvas> {
    /// Releases the rows above row `rows`, which are final.
    pub fn release_rows(&mut self, rows: usize)
        requires above { rows ≤ dcs_final_rows self.old.decoder.pixel_limit self.old.bytes }
        requires accepted { 0 < rows → self.old.is_refused ≡ false }
        ensures { self.new ≡ record self.old { released = max self.old.released rows } }
    {
        let DcsState::Payload(reader) = &mut self.state else {
            return;
        };
        reader.release_rows(rows);
    }
}

/// Whether the end of a sequence has come, after which no byte is its own.
fn has_come(ended: Option<SixelDcsFeedStatus>) -> bool
    ensures { result ≡ has_come ended }
{
    match ended {
        Some(status) => status.has_ended(),
        None => false,
    }
}
