//! How far a DCS sequence was read: introducer, header or payload.

ghost use Rattle.std.specs.Prelude.{◌≡◌, ◌≤◌, ◌++◌, ◌+◌, ◌∷◌, [], true, false, List, ℕ, length};
ghost use Rattle.std.specs.Prelude.{Option, IfOk, OnErr, OnOk, MatchResult};
ghost use Rattle.sixel_base.specs.Fault.{IsFault, DcsStreamFailed};
ghost use Rattle.sixel_base.specs.declared.state.DecoderState.{DecoderState};
ghost use Rattle.sixel_base.specs.declared.status.SixelDcsFeedStatus.{SixelDcsFeedStatus};
ghost use Rattle.sixel_decoder.specs.declared.dcs_state.DcsState.TheVariants.{Failed, Payload};
ghost use Rattle.sixel_decoder.specs.inside.DcsState.{Follows, HasFollowed, Heads, IsInPayload};
ghost use Rattle.sixel_decoder.specs.inside.DcsState.{StepsInto, is_begun, is_failed, is_head};
ghost use Rattle.sixel_decoder.specs.inside.DcsState.{released_of};

use crate::dcs_end::end_now;
use crate::header::Header;
use crate::payload_reader::PayloadReader;
use sixel_base::state::DecoderState;
use sixel_base::status::{SixelDcsFeedResult, SixelDcsFeedStatus, SixelFeedStatus};
use sixel_base::{Result, SixelError};
use sixel_canvas::drawing::Canvas;
use std::alloc::Global;

/// How far a DCS sequence was read.
#[derive(Drop)]
pub enum DcsState<C: Canvas + Drop> {
    Start,
    Escape,
    Header(Header),
    Payload(PayloadReader<C>),
    Failed,
}

impl<C: Canvas + Drop> DcsState<C> {
    /// Whether the payload has not begun.
    #[inline(always)]
    fn is_head(&self) -> bool
        ensures { result ≡ is_head self.now }
    {
        match self {
            DcsState::Start | DcsState::Escape | DcsState::Header(_) => true,
            DcsState::Payload(_) | DcsState::Failed => false,
        }
    }

    /// Whether a byte was read.
    pub fn is_begun(&self) -> bool
        ensures { result ≡ is_begun self.now }
    {
        !matches!(self, DcsState::Start)
    }

    /// Drops what was read.
    ///
    /// Out of line: inlined, LLVM clears the moved value on every feed.
    #[cold]
    #[inline(never)]
    pub fn fail(&mut self)
        ensures { self.new ≡ Failed }
    {
        *self = DcsState::Failed;
    }

    /// Reads a chunk as far as the DCS sequence goes.
    #[inline(always)]
    pub fn feed(
        &mut self,
        alloc: Global,
        decoder: &DecoderState,
        ended: &mut Option<SixelDcsFeedStatus>,
        chunk: &[u8],
    ) -> Result<SixelDcsFeedResult>
        ensures ended { OnErr result (ended.new ≡ ended.old) }
        ensures failed { is_failed self.old ≡ true
            → MatchResult result (λ _. ⊥) (λ error. IsFault error DcsStreamFailed) }
        ensures follows { (before : List ℕ) → is_failed self.old ≡ false
            → HasFollowed self.old decoder.now ended.old before
            → Follows result self.new decoder.now ended.new before chunk.now }
        ensures released { OnOk result (released_of self.new ≡ released_of self.old) }
    {
        if self.is_head() {
            return self.read_beginning(alloc, decoder, ended, chunk);
        }
        match self {
            DcsState::Payload(reader) => read_payload(reader, ended, chunk),
            _ => Err(SixelError::dcs_stream_failed()),
        }
    }

    /// Reads a chunk that begins before the payload.
    #[tactic(auto, using(crate::proofs::dcs_sequences::Chunks::beginnings))]
    fn read_beginning(
        &mut self,
        alloc: Global,
        decoder: &DecoderState,
        ended: &mut Option<SixelDcsFeedStatus>,
        chunk: &[u8],
    ) -> Result<SixelDcsFeedResult>
        ensures ended { OnErr result (ended.new ≡ ended.old) }
        ensures follows { (before : List ℕ) → is_head self.old ≡ true
            → HasFollowed self.old decoder.now ended.old before
            → Follows result self.new decoder.now ended.new before chunk.now }
        ensures released { OnOk result (released_of self.new ≡ released_of self.old) }
    {
        let start = self.read_head(alloc, decoder, chunk)?;
        match self {
            DcsState::Payload(reader) => {
                let fed = read_payload(reader, ended, &chunk[start..])?;
                Ok(SixelDcsFeedResult {
                    consumed: start + fed.consumed,
                    status: fed.status,
                })
            }
            _ => Ok(SixelDcsFeedResult {
                consumed: chunk.len(),
                status: SixelDcsFeedStatus::NeedMoreData,
            }),
        }
    }

    /// Reads a chunk up to the payload, and returns how many bytes that are.
    #[tactic(auto, using(crate::proofs::dcs_sequences::Terminators::pieces))]
    fn read_head(&mut self, alloc: Global, decoder: &DecoderState, chunk: &[u8]) -> Result<usize>
        ensures within { IfOk result (λ count. count ≤ length chunk.now) }
        ensures heads { (ended : Option SixelDcsFeedStatus) (before : List ℕ)
            → is_failed self.old ≡ false → HasFollowed self.old decoder.now ended before
            → Heads result self.new decoder.now ended before chunk.now }
        ensures released { OnOk result (released_of self.new ≡ released_of self.old) }
    {
        'head: for (index, byte) in chunk.iter().enumerate() {
            if !self.is_head() {
                return Ok(index);
            }
            self.step(alloc, decoder, *byte)?;
        }
        Ok(chunk.len())
    }

    /// Reads a byte before the payload.
    fn step(&mut self, alloc: Global, decoder: &DecoderState, byte: u8) -> Result<()>
        ensures steps { (ended : Option SixelDcsFeedStatus) (before : List ℕ)
            → is_head self.old ≡ true → HasFollowed self.old decoder.now ended before
            → StepsInto result self.new decoder.now ended (before ++ byte ∷ []) }
        ensures released { OnOk result (released_of self.new ≡ released_of self.old) }
    {
        match self {
            DcsState::Start => match byte {
                0x1b => {
                    *self = DcsState::Escape;
                    Ok(())
                }
                0x90 => {
                    *self = DcsState::Header(Header::new());
                    Ok(())
                }
                _ => Err(SixelError::NoSixelData),
            },
            DcsState::Escape => match byte {
                b'P' => {
                    *self = DcsState::Header(Header::new());
                    Ok(())
                }
                _ => Err(SixelError::NoSixelData),
            },
            DcsState::Header(header) => match header.push(byte) {
                Ok(None) => Ok(()),
                Ok(Some(settings)) => {
                    *self = DcsState::Payload(PayloadReader::new(alloc, *decoder, settings));
                    Ok(())
                }
                Err(error) => Err(error),
            },
            DcsState::Payload(_) | DcsState::Failed => Ok(()),
        }
    }
}

/// Reads a chunk that begins in the payload.
#[inline(always)]
fn read_payload<C: Canvas + Drop>(
    reader: &mut PayloadReader<C>,
    ended: &mut Option<SixelDcsFeedStatus>,
    chunk: &[u8],
) -> Result<SixelDcsFeedResult>
    ensures within { IfOk result (λ fed. fed.consumed ≤ length chunk.now + 2) }
    ensures ended { OnErr result (ended.new ≡ ended.old) }
    ensures follows { (decoder : DecoderState) (before : List ℕ)
        → IsInPayload reader.old decoder ended.old before
        → Follows {C = C} result (Payload reader.new) decoder ended.new before chunk.now }
    ensures released { OnOk result (reader.new.released ≡ reader.old.released) }
{
    let fed = match reader.feed(chunk) {
        Ok(fed) => fed,
        Err(failed) => return Err(failed.error),
    };
    match fed.status {
        SixelFeedStatus::NeedMoreData => Ok(SixelDcsFeedResult {
            consumed: fed.consumed,
            status: SixelDcsFeedStatus::NeedMoreData,
        }),
        SixelFeedStatus::Terminated(terminator) => {
            let end = end_now(*ended, terminator, fed.consumed, chunk);
            *ended = Some(end.status);
            Ok(end)
        }
    }
}
