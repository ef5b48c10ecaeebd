//! The final rows of an open image, and copies of rows to a caller's memory.
//!
//! In SIXEL the drawing position never goes up. Once a graphics new line is read, no byte that
//! follows changes a row above it. So a host can read and draw an image band by band.

ghost use Rattle.std.specs.Prelude.{◌≡◌, ◌≤◌, ◌<◌, ◌+◌, ◌*◌, ◌++◌, nat_le, nat_lt, ℕ, List, length};
ghost use Rattle.std.specs.Prelude.{take, if◌then◌else◌, IfSome, None, OnOk, Some};
ghost use Rattle.sixel_base.specs.{CallFault.IsVerdict, Limits.Limit, OneShot.IsFoundImage};
ghost use Rattle.sixel_base.specs.{Payload.Image, Picture.picture};
ghost use Rattle.sixel_base.specs.declared.state.DecoderState.{DecoderState};
ghost use Rattle.sixel_canvas.specs.Layout.{AreRowsIn};
ghost use Rattle.sixel_decoder.specs.Reception.{HasNoPayload, IsPayloadOf};
ghost use Rattle.icy_sixel.specs.Bands.{IsBandFed, band_of, received_band};
ghost use Rattle.icy_sixel.specs.ReceivedRows.{AreRowsCopied, AreRowsReleased, buffer_len};
ghost use Rattle.icy_sixel.specs.ReceivedRows.{final_rows, layout_fault, pixel_so_far, rows_so_far};
ghost use Rattle.icy_sixel.specs.{ReceivedRows.{usize_max, with_released}, Receiver.{Form, found}};
ghost use Rattle.icy_sixel.specs.inside.Receiving.{reception_of};

use crate::receiver::{FailedFeed, Open, Received, SixelReceiver};
use crate::script::Status;
use sixel_base::{Result, SixelError};
use sixel_canvas::band_canvas::BandCanvas;
use sixel_canvas::channels::RowLayout;
use sixel_decoder::PayloadReader;
use std::result;

/// What a feed of a band did.
#[derive(Clone, Copy, Debug, PartialEq, Eq)]
pub struct ReceivedBand {
    /// How many bytes of the chunk belong to the image.
    pub consumed: usize,
    /// What the caller does next.
    pub status: BandStatus,
}

/// What the caller does after a feed of a band.
#[derive(Clone, Copy, Debug, PartialEq, Eq)]
pub enum BandStatus {
    /// The image goes on, and rows have become final: copy them, and feed the next bytes.
    Rows,
    /// The image has ended, or no row has become final: the status of the image.
    Image(Status),
}

impl SixelReceiver {
    /// Returns how many rows from the top of the open image are final.
    ///
    /// No byte that follows changes a pixel of these rows, and the number never becomes smaller, by
    /// the law [`stable_rows`]. They are the rows of the image so far that lie above the band of
    /// the next sixel, and inside the clip. The call does not allocate.
    ///
    /// - It is 0 before the payload, after an error, and if no image is open.
    /// - The image may still become wider. New pixels on the right of a final row are background.
    /// - With crop the image may end above rows that are final, because the last raster attributes
    ///   name its height.
    pub fn rows_so_far(&self) -> usize
        ensures { result ≡ rows_so_far self.now.image }
    {
        let Some(payload) = self.open.payload() else {
            return 0;
        };
        payload.rows_so_far()
    }

    /// Copies final rows of the open image to the caller's memory.
    ///
    /// The rows are `first` up to before `first + rows`. The first of them begins at the first byte
    /// of `out`, and each other one a stride after the one before it. Columns on the right of the
    /// image so far, and outside the clip, are background. The other bytes of `out` stay. Rows that
    /// were copied stay valid after a later error. The call does not allocate.
    ///
    /// The errors, in this order, leave `out` as it was:
    ///
    /// - `InvalidData("rows are not final")`: `first + rows` is greater than
    ///   [`rows_so_far`](Self::rows_so_far).
    /// - `InvalidData("rows were released")`: `first` is less than
    ///   [`released_rows`](Self::released_rows).
    /// - `InvalidData("stride is shorter than a row")`: the stride has fewer bytes than the columns
    ///   of a row, or than a pixel.
    /// - `IntegerOverflow`: no `usize` counts the bytes of the rows.
    /// - `BufferSizeMismatch`: `out` has fewer bytes than the rows take.
    pub fn copy_rows(
        &self,
        first: usize,
        rows: usize,
        layout: RowLayout,
        out: &mut [u8],
    ) -> Result<()>
        ensures len { length out.new ≡ length out.old }
        ensures copied { AreRowsCopied self.now.image first rows layout out.old out.new result }
    {
        if !self.are_final(first, rows) {
            return Err(SixelError::rows_not_final());
        }
        if first < self.released_rows() {
            return Err(SixelError::rows_released());
        }
        check_rows(layout, rows, out.len())?;
        if let Some(payload) = self.open.payload() {
            payload.copy_rows(first, rows, layout, out);
        }
        Ok(())
    }

    /// Releases the final rows above row `rows`, whose memory is used again.
    ///
    /// The caller has copied them. Then an image that is shown while it comes takes the memory of
    /// the rows between two calls, and not of the image: copy the final rows and release them after
    /// each [`feed_band`](Self::feed_band). [`finish`](Self::finish) returns the rows that are
    /// left. A number below [`released_rows`](Self::released_rows) changes nothing. The call does
    /// not allocate.
    ///
    /// The error is `InvalidData("rows are not final")` if `rows` is greater than
    /// [`rows_so_far`](Self::rows_so_far).
    pub fn release_rows(&mut self, rows: usize) -> Result<()>
        ensures { AreRowsReleased self.old self.new rows result }
    {
        if !self.are_final(0, rows) {
            return Err(SixelError::rows_not_final());
        }
        self.open.release_rows(rows);
        Ok(())
    }

    /// Returns how many rows from the top of the open image were released.
    ///
    /// It is 0 after an error and if no image is open. The call does not allocate.
    pub fn released_rows(&self) -> usize
        ensures { result ≡ self.now.image.released }
    {
        let Some(payload) = self.open.payload() else {
            return 0;
        };
        payload.released_rows()
    }

    /// Reads a chunk up to its first graphics new line, which makes rows final.
    ///
    /// It does what [`feed`](Self::feed) does with the bytes up to and with the first `-`, or with
    /// all bytes if there is none. So a host can draw each band at once, however long the chunk is.
    /// The status is [`BandStatus::Rows`] if [`rows_so_far`](Self::rows_so_far) has become greater
    /// and the image goes on. The caller feeds the rest of the chunk after the bytes consumed.
    pub fn feed_band(&mut self, chunk: &[u8]) -> result::Result<ReceivedBand, FailedFeed>
        ensures { IsBandFed self.old self.new chunk.now result }
    {
        let before = self.rows_so_far();
        match self.feed(&chunk[..band_len(chunk)]) {
            Ok(received) => Ok(self.received_band(before, received)),
            Err(failed) => Err(failed),
        }
    }

    /// Returns what a feed of a band did, by the number of rows that were final before it.
    fn received_band(&self, before: usize, received: Received) -> ReceivedBand
        ensures { result ≡ received_band before (rows_so_far self.now.image) received }
    {
        let has_rows = !received.status.has_ended() && before < self.rows_so_far();
        ReceivedBand {
            consumed: received.consumed,
            status: if has_rows {
                BandStatus::Rows
            } else {
                BandStatus::Image(received.status)
            },
        }
    }

    /// Whether `rows` rows from row `first` on are final.
    fn are_final(&self, first: usize, rows: usize) -> bool
        ensures { result ≡ nat_le (first + rows) (rows_so_far self.now.image) }
    {
        let so_far = self.rows_so_far();
        first <= so_far && rows <= so_far - first
    }
}

impl Open {
    /// Lends the reader of the payload, once it has begun.
    ///
    /// That of a DCS sequence has no feed that failed.
    pub(super) fn payload(&self) -> Option<&PayloadReader<BandCanvas>>
        ensures lent { IfSome result (λ reader. IsPayloadOf reader.now (reception_of self.now)) }
        ensures none { result ≡ None → HasNoPayload (reception_of self.now) }
    {
        match self {
            Open::Nothing => None,
            Open::Payload(reader) => Some(reader),
            Open::ControlString(reader) => reader.payload(),
        }
    }

    /// Releases the rows above row `rows`, which are final.
    fn release_rows(&mut self, rows: usize)
        requires { rows ≤ rows_so_far (reception_of self.old) }
        ensures { reception_of self.new ≡ with_released (reception_of self.old) rows }
    {
        match self {
            Open::Nothing => {}
            Open::Payload(reader) => reader.release_rows(rows),
            Open::ControlString(reader) => reader.release_rows(rows),
        }
    }
}

/// Returns how many bytes of a chunk [`feed_band`](SixelReceiver::feed_band) reads.
///
/// They are the bytes up to and with the first graphics new line, or all if there is none.
pub fn band_len(chunk: &[u8]) -> usize
    ensures within { result ≤ length chunk.now }
    ensures band { take result chunk.now ≡ band_of chunk.now }
{
    'bytes: for index in 0..chunk.len() {
        if chunk[index] == b'-' {
            return index + 1;
        }
    }
    chunk.len()
}

/// Checks that `rows` rows lie apart from each other in `len` bytes of memory.
pub(super) fn check_rows(layout: RowLayout, rows: usize, len: usize) -> Result<()>
    ensures verdict { IsVerdict (layout_fault layout rows len) result }
    ensures fits { OnOk result (AreRowsIn layout rows len) }
{
    if layout.columns.max(1) > layout.stride / 4 {
        return Err(SixelError::short_stride());
    }
    let Some(expected) = buffer_len(layout, rows) else {
        return Err(SixelError::IntegerOverflow);
    };
    if len < expected {
        return Err(SixelError::BufferSizeMismatch {
            expected,
            actual: len,
        });
    }
    Ok(())
}

/// Returns how many bytes these rows take, if a `usize` counts them.
fn buffer_len(layout: RowLayout, rows: usize) -> Option<usize>
    requires { 4 * layout.columns ≤ layout.stride }
    ensures { result ≡ (if nat_lt usize_max (buffer_len layout rows) then None
        else Some (buffer_len layout rows)) }
{
    if rows == 0 {
        return Some(0);
    }
    layout
        .stride
        .checked_mul(rows - 1)
        .and_then(|above| above.checked_add(4 * layout.columns))
}

/// States that final rows stay as they are, whatever bytes follow.
///
/// Their number never becomes smaller, and each of their pixels stays, in every column. The pixels
/// of an image are those of the picture of its bytes inside the clip.
pub fn stable_rows()
    ensures number { (limit : Limit) (form : Form) (bytes more : List ℕ)
        → final_rows limit form bytes ≤ final_rows limit form (bytes ++ more) }
    ensures pixels { (start : DecoderState) (form : Form) (bytes more : List ℕ) (column row : ℕ)
        → row < final_rows start.pixel_limit form bytes
        → pixel_so_far start form (bytes ++ more) column row
        ≡ pixel_so_far start form bytes column row }
    ensures image { (start : DecoderState) (form : Form) (bytes : List ℕ) (image : Image)
        → IsFoundImage start (found form bytes) image
        → image.pixels ≡ picture (pixel_so_far start form bytes) image.width image.height }
{}
