//! The session that decodes one DCS sequence in chunks.
//!
//! The contracts of its calls are the records of `DcsCalls` in `sixel_decoder`.

ghost use Rattle.std.specs.Prelude.{◌≡◌, ◌*◌, ◌≤◌, true, false, OnErr, IfOk, length, vec_capacity};
ghost use Rattle.sixel_base.specs.{Dcs.dcs_in_payload, Decoder.IsSetAs};
ghost use Rattle.sixel_decoder.specs.{DcsCalls.IsFed, FinishedImages.IsFinished};
ghost use Rattle.sixel_decoder.specs.{Memory.most_capacity, Progress.{IsDrawnHeight, IsPaintCount}};
ghost use Rattle.sixel_decoder.specs.{Progress.{IsSizeSoFar, IsWriteCount}, Reception.of_sequence};
ghost use Rattle.icy_sixel.specs.ImageView.{image_value};

use crate::decoder::{SixelDcsFeedResult, SixelDecoder};
use crate::sixel_image::SixelImage;
use sixel_base::{Result, SixelError};
use sixel_canvas::row_canvas::RowCanvas;
use sixel_decoder::DcsReader;

/// A DCS sequence that is decoded in chunks.
///
/// The session borrows its decoder until it is finished, aborted or dropped. Only a successful
/// [`finish`](Self::finish) changes the decoder's registers.
pub struct SixelDcsStreamDecoder<'a, P = DcsReader<RowCanvas>> {
    pub(super) owner: &'a mut SixelDecoder,
    pub(super) reader: P,
}

impl<'a, P: Drop> Drop for SixelDcsStreamDecoder<'a, P> {
    ghost use Rattle.icy_sixel.specs.Sessions.{sequence_owner};

    fn drop(self)
        ensures { self.exit.0.now ≡ (sequence_owner self.entry).now }
    {
        let SixelDcsStreamDecoder {
            owner: _,
            reader: _,
        } = self;
    }
}

impl<'a> SixelDcsStreamDecoder<'a> {
    ghost use Rattle.icy_sixel.specs.Sessions.{sequence, sequence_owner};

    /// Reads a chunk up to the end of the DCS sequence, and consumes no byte after it.
    ///
    /// A chunk can end anywhere. After the end of the sequence each later feed consumes nothing and
    /// returns the same status.
    ///
    /// The error is [`SixelError::NoSixelData`](crate::SixelError::NoSixelData) if the bytes do not
    /// begin with DCS, as one byte or as ESC and `P`. Else it is the first error of the header or
    /// the payload. After an error each later feed returns
    /// `SixelError::InvalidData("DCS stream decoder has failed")`.
    pub fn feed(&mut self, piece: &[u8]) -> Result<SixelDcsFeedResult>
        ensures owner { (sequence_owner self.new).ghost_name
            ≡ (sequence_owner self.old).ghost_name }
        ensures registers { (sequence_owner self.new).now ≡ (sequence_owner self.old).now }
        ensures fed { IsFed (sequence self.old) (sequence self.new) piece.now result }
    {
        Ok(self.reader.feed(piece)?)
    }

    /// Returns how many pixels were copied or filled to grow the rows of the canvas.
    ///
    /// It is 0 before the payload and after an error. The call does not allocate.
    ///
    /// The bounds are those of a payload session, by
    /// [`canvas_writes`](crate::SixelStreamDecoder::canvas_writes).
    pub fn canvas_writes(&self) -> u64
        ensures { IsWriteCount (of_sequence (sequence self.now)) result }
    {
        let Some(payload) = self.reader.payload() else {
            return 0;
        };
        payload.writes()
    }

    /// Returns an upper bound of the pixels that sixels of the payload have painted.
    ///
    /// It is 0 before the payload and after an error. The call does not allocate.
    ///
    /// The bounds are those of a payload session, by
    /// [`canvas_paints`](crate::SixelStreamDecoder::canvas_paints).
    pub fn canvas_paints(&self) -> u64
        ensures { IsPaintCount (of_sequence (sequence self.now)) result }
    {
        let Some(payload) = self.reader.payload() else {
            return 0;
        };
        payload.paints()
    }

    /// Whether the payload has begun and no feed has failed.
    ///
    /// A sequence that is rejected before its payload, as one with another command than `q`, has
    /// no SIXEL data.
    pub fn in_payload(&self) -> bool
        ensures accepted { (sequence self.now).is_refused ≡ false
            → result ≡ dcs_in_payload (sequence self.now).bytes }
        ensures refused { (sequence self.now).is_refused ≡ true → result ≡ false }
    {
        self.size_so_far().is_some()
    }

    /// Returns the width and the height of the image so far, as a payload session does.
    ///
    /// See [`size_so_far`](crate::SixelStreamDecoder::size_so_far). It is `None` before the payload
    /// and after an error. The call does not allocate.
    pub fn size_so_far(&self) -> Option<(usize, usize)>
        ensures { IsSizeSoFar (of_sequence (sequence self.now)) result }
    {
        self.reader.payload()?.size_so_far()
    }

    /// Returns the last row with a set pixel, plus one, or 0 if there is none.
    ///
    /// See [`drawn_height`](crate::SixelStreamDecoder::drawn_height). It is 0 before the payload
    /// and after an error. The call does not allocate.
    pub fn drawn_height(&self) -> usize
        ensures { IsDrawnHeight (of_sequence (sequence self.now)) result }
    {
        let Some(payload) = self.reader.payload() else {
            return 0;
        };
        payload.drawn_height()
    }

    /// Returns the image of a sequence that has ended, and stores its registers.
    ///
    /// The registers are stored in the decoder, because the next image starts with them.
    /// Before the end the error is `SixelError::InvalidData("incomplete SIXEL DCS sequence")`. An
    /// interrupted sequence has the image of its payload so far: [`decode`](SixelDecoder::decode)
    /// of the bytes fed returns the same image, whatever bytes follow. After an error the decoder
    /// is unchanged.
    pub fn finish(self) -> Result<SixelImage>
        ensures finished { IsFinished image_value (λ _. self.exit.0.now.registers)
            (of_sequence (sequence self.entry)) result }
        ensures pixels { IfOk result (λ image.
            length image.pixels.items ≡ 4 * (image.width * image.height)) }
        ensures memory { IfOk result (λ image. vec_capacity image.pixels
            ≤ most_capacity (length image.pixels.items)) }
        ensures set { IsSetAs (sequence_owner self.entry).now self.exit.0.now }
        ensures kept { OnErr result (self.exit.0.now ≡ (sequence_owner self.entry).now) }
    {
        let SixelDcsStreamDecoder { owner, reader } = self;
        if let Some(payload) = reader.payload() {
            payload.stores_all_rows();
        }
        let picture = reader.finish()?;
        owner.state.registers = picture.registers;
        Ok(SixelImage::from_picture(picture))
    }

    /// Ends the session without changing the decoder, as dropping it does.
    pub fn abort(self)
        ensures { self.exit.0.now ≡ (sequence_owner self.entry).now }
    {
        drop(self);
    }
}
