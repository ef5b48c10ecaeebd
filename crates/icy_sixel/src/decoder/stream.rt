//! The session that decodes one payload in chunks.
//!
//! The contracts of its calls are the records of `PayloadCalls` in `sixel_decoder`.

ghost use Rattle.std.specs.Prelude.{◌≡◌, ◌<◌, ◌+◌, ◌*◌, ◌≤◌, OnErr, IfOk, length, vec_capacity};
ghost use Rattle.sixel_base.specs.{Decoder.IsSetAs, Payload.payload_area};
ghost use Rattle.sixel_decoder.specs.{FinishedImages.IsFinished, Memory.most_capacity};
ghost use Rattle.sixel_decoder.specs.{PayloadCalls.IsFed, Progress.{IsDrawnHeight, IsPaintCount}};
ghost use Rattle.sixel_decoder.specs.{Progress.{IsSizeSoFar, IsWriteCount}, Reception.of_payload};
ghost use Rattle.icy_sixel.specs.ImageView.{image_value};

use crate::decoder::{DcsSettings, SixelDecoder, SixelFeedResult, SixelFeedStatus};
use crate::sixel_image::SixelImage;
use sixel_base::{Result, SixelError};
use sixel_canvas::row_canvas::RowCanvas;
use sixel_decoder::PayloadReader;

/// A payload that is decoded in chunks.
///
/// The session borrows its decoder until it is finished, aborted or dropped. Only a successful
/// [`finish`](Self::finish) changes the decoder's registers.
pub struct SixelStreamDecoder<'a, F = PayloadReader<RowCanvas>> {
    pub(super) owner: &'a mut SixelDecoder,
    pub(super) reader: F,
}

impl<'a, F: Drop> Drop for SixelStreamDecoder<'a, F> {
    ghost use Rattle.icy_sixel.specs.Sessions.{payload_owner};

    fn drop(self)
        ensures { self.exit.0.now ≡ (payload_owner self.entry).now }
    {
        let SixelStreamDecoder {
            owner: _,
            reader: _,
        } = self;
    }
}

impl<'a> SixelStreamDecoder<'a> {
    ghost use Rattle.icy_sixel.specs.Sessions.{payload, payload_owner};

    /// Reads a chunk up to its first terminator, which it does not consume.
    ///
    /// A chunk can end anywhere, also inside a number. The chunk boundaries have no effect on the
    /// image. After a terminator each later feed consumes nothing and returns the same status.
    ///
    /// A feed fails as soon as the bytes so far are rejected. The errors are those of
    /// [`decode_from_dcs`](SixelDecoder::decode_from_dcs). After an error each later feed returns
    /// `SixelError::InvalidData("stream decoder has failed")`.
    pub fn feed(&mut self, piece: &[u8]) -> Result<SixelFeedResult>
        ensures owner { (payload_owner self.new).ghost_name ≡ (payload_owner self.old).ghost_name }
        ensures registers { (payload_owner self.new).now ≡ (payload_owner self.old).now }
        ensures fed { IsFed (payload self.old) (payload self.new) piece.now result }
    {
        Ok(self.reader.feed(piece)?)
    }

    /// Returns how many pixels were copied or filled to grow the rows of the canvas.
    ///
    /// It is 0 after an error. Painting over pixels does not count. The call does not allocate.
    ///
    /// The number is from once to three times the painted area of the closed sixels. That area is
    /// the sum over all rows of the greatest right edge of a sixel that covers a pixel of the row.
    /// The rows together have capacity for at most twice that area.
    pub fn canvas_writes(&self) -> u64
        ensures { IsWriteCount (of_payload (payload self.now)) result }
    {
        self.reader.writes()
    }

    /// Returns an upper bound of the pixels that sixels have painted.
    ///
    /// It is 0 after an error. The call does not allocate. A wide sixel over pixels that exist can
    /// be stored as the colors of its tiles.
    ///
    /// Each closed sixel with a set pixel counts at least six for each of its columns. One of more
    /// than 258 columns can count less: six for each whole 128 columns, and 1536 for two ends.
    /// The number is at most three times the painted area of the closed sixels, and 4602 for each
    /// of them, which is two ends and 511 tiles in six rows. It saturates.
    pub fn canvas_paints(&self) -> u64
        ensures { IsPaintCount (of_payload (payload self.now)) result }
    {
        self.reader.paints()
    }

    /// Returns the width and the height of the image so far, unless a feed has failed.
    ///
    /// They are those of the closed sixels and raster attributes, at least 1 each. The image of the
    /// whole payload is at least as large, unless it is cropped. The call does not allocate.
    pub fn size_so_far(&self) -> Option<(usize, usize)>
        ensures { IsSizeSoFar (of_payload (payload self.now)) result }
    {
        self.reader.size_so_far()
    }

    /// Returns the last row with a set pixel, plus one, or 0 if there is none.
    ///
    /// Each sixel makes the image as high as its six rows. So the height is a multiple of six in an
    /// image with sixels and without raster attributes. This number is less if the last rows have
    /// no set pixel. Finishing the image does not change it. A cropped image can be lower.
    ///
    /// It is 0 after an error. The call does not allocate.
    pub fn drawn_height(&self) -> usize
        ensures { IsDrawnHeight (of_payload (payload self.now)) result }
    {
        self.reader.drawn_height()
    }

    /// Ends the payload, returns its image, and stores its registers in the decoder.
    ///
    /// No terminator is required. An open command ends here, and can be rejected. After an error
    /// the decoder is unchanged.
    pub fn finish(self) -> Result<SixelImage>
        ensures finished { IsFinished image_value (λ _. self.exit.0.now.registers)
            (of_payload (payload self.entry)) result }
        ensures pixels { IfOk result (λ image.
            length image.pixels.items ≡ 4 * (image.width * image.height)) }
        ensures memory { IfOk result (λ image. vec_capacity image.pixels
            ≤ most_capacity (length image.pixels.items)) }
        ensures set { IsSetAs (payload_owner self.entry).now self.exit.0.now }
        ensures kept { OnErr result (self.exit.0.now ≡ (payload_owner self.entry).now) }
    {
        let SixelStreamDecoder { owner, reader } = self;
        reader.stores_all_rows();
        let picture = reader.finish()?;
        owner.state.registers = picture.registers;
        Ok(SixelImage::from_picture(picture))
    }

    /// Finishes as [`finish`](Self::finish) does, and returns the pixel writes too.
    ///
    /// The number is [`canvas_writes`](Self::canvas_writes), plus the pixels of the image as they
    /// are packed. It is at most four times the number of pixels of the uncropped image.
    pub fn finish_counted(self) -> Result<(SixelImage, u64)>
        ensures finished { IsFinished (λ counted. image_value counted.0)
            (λ _. self.exit.0.now.registers) (of_payload (payload self.entry)) result }
        ensures pixels { IfOk result (λ counted.
            length counted.0.pixels.items ≡ 4 * (counted.0.width * counted.0.height)) }
        ensures memory { IfOk result (λ counted. vec_capacity counted.0.pixels
            ≤ most_capacity (length counted.0.pixels.items)) }
        ensures counted { IfOk result (λ counted. counted.1
            ≡ (payload self.entry).writes + counted.0.width * counted.0.height) }
        ensures at_most { IfOk result
            (λ counted. counted.1 ≤ 4 * payload_area (payload self.entry).origin.pixel_limit
            (payload self.entry).bytes) }
        ensures set { IsSetAs (payload_owner self.entry).now self.exit.0.now }
        ensures kept { OnErr result (self.exit.0.now ≡ (payload_owner self.entry).now) }
    {
        let writes = self.canvas_writes();
        let image = self.finish()?;
        let count = with_packed(writes, &image);
        Ok((image, count))
    }

    /// Ends the session without changing the decoder, as dropping it does.
    pub fn abort(self)
        ensures { self.exit.0.now ≡ (payload_owner self.entry).now }
    {
        drop(self);
    }
}

/// Adds the pixels of an image, as they are packed, to a number of pixel writes.
fn with_packed(writes: u64, image: &SixelImage) -> u64
    requires { writes + image.now.width * image.now.height < 18446744073709551616 }
    ensures { result ≡ writes + image.now.width * image.now.height }
{
    writes + (image.width * image.height) as u64
}
