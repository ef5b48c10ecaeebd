//! The work and the progress of an open image.

ghost use Rattle.std.specs.Prelude.{◌≡◌, true, false};
ghost use Rattle.icy_sixel.specs.{Receiver.{in_payload, is_over}, ReceiverCalls.IsBandPaintCount};
ghost use Rattle.icy_sixel.specs.ReceiverCalls.{IsBandWriteCount, IsDrawnHeight, IsSizeSoFar};

use crate::receiver::{Open, SixelReceiver};

impl SixelReceiver {
    /// Returns how many pixels the canvas has written again because rows became wider.
    ///
    /// It is 0 if no image is open and after an error. The call does not allocate.
    ///
    /// Stored rows have equal width: that of raster attributes, if these come first. A sixel that
    /// needs more columns makes the rows at least twice as wide. Then the canvas writes the stored
    /// rows again, and each of their pixels counts, background too. What the allocator copies is
    /// not counted.
    ///
    /// It saturates, and is at most four times the pixels of the image so far, released or not.
    /// It is at least the right edge of each sixel that reaches more than twice as far as the image
    /// was wide, once for each row of the bands above it that is not released.
    pub fn canvas_writes(&self) -> u64
        ensures { IsBandWriteCount self.now.image result }
    {
        let Some(payload) = self.open.payload() else {
            return 0;
        };
        payload.writes()
    }

    /// Returns how many columns and tags were painted so far.
    ///
    /// It is 0 if no image is open and after an error. The call does not allocate. A sixel paints
    /// columns of six rows. A wide sixel over columns that exist can be stored as tags, the colors
    /// of 128 columns. Tagged columns are painted once the band ends, so the number rises then.
    ///
    /// The number is at most twice the right edges of the bands of the closed sixels, together, and
    /// 1151 for each of these sixels: 511 tags, two ends, and tagged columns that it covers in
    /// part. It saturates.
    ///
    /// Beside the image the canvas has capacity for six rows of at most twice the width and 16
    /// columns, whatever the height.
    pub fn canvas_paints(&self) -> u64
        ensures { IsBandPaintCount self.now.image result }
    {
        let Some(payload) = self.open.payload() else {
            return 0;
        };
        payload.paints()
    }

    /// Whether the payload of the open image has begun and no feed has failed.
    ///
    /// A payload has begun at once, and a DCS sequence's payload begins after the header. It is
    /// `false` if no image is open.
    pub fn in_payload(&self) -> bool
        ensures accepted { self.now.image.is_refused ≡ false
            → result ≡ in_payload self.now.image.form self.now.image.bytes }
        ensures refused { self.now.image.is_refused ≡ true → result ≡ false }
    {
        self.size_so_far().is_some()
    }

    /// Returns the width and the height of the image so far, as a payload session does.
    ///
    /// See [`size_so_far`](crate::SixelStreamDecoder::size_so_far). It is `None` before the
    /// payload, after an error, and if no image is open. The call does not allocate.
    pub fn size_so_far(&self) -> Option<(usize, usize)>
        ensures { IsSizeSoFar self.now.image result }
    {
        self.open.payload()?.size_so_far()
    }

    /// Returns the last row with a set pixel, plus one, or 0 if there is none.
    ///
    /// See [`drawn_height`](crate::SixelStreamDecoder::drawn_height). It is 0 before the payload,
    /// after an error, and if no image is open. The call does not allocate.
    pub fn drawn_height(&self) -> usize
        ensures { IsDrawnHeight self.now.image result }
    {
        let Some(payload) = self.open.payload() else {
            return 0;
        };
        payload.drawn_height()
    }

    /// Whether the end of the open image was fed: the terminator of a payload or of a DCS sequence.
    ///
    /// A lenient DCS sequence can be finished before its end, and is not complete then. It is
    /// `false` after an error, and if no image is open. The call does not allocate.
    pub fn has_ended(&self) -> bool
        ensures accepted { self.now.image.is_refused ≡ false
            → result ≡ is_over self.now.image.form self.now.image.bytes }
        ensures refused { self.now.image.is_refused ≡ true → result ≡ false }
    {
        match &self.open {
            Open::Nothing => false,
            Open::Payload(reader) => reader.has_ended(),
            Open::ControlString(reader) => reader.has_ended(),
        }
    }
}
