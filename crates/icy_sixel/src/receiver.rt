//! A decoder and its open image, for a host that stores both in one struct.
//!
//! The contracts of its calls are the records of `ReceiverCalls`.

ghost use Rattle.std.specs.Prelude.{◌≡◌, ◌*◌, ◌<◌, ◌≤◌, ◌∷◌, [], true, false, length, min, IfOk};
ghost use Rattle.std.specs.Prelude.{IfSome, None, Ok, Some, vec_capacity};
ghost use Rattle.sixel_base.specs.{CallFault.{FailsBy, RowsReleased}, Decoder.new_decoder};
ghost use Rattle.sixel_decoder.specs.{Memory.most_capacity, Report.found_report};
ghost use Rattle.icy_sixel.specs.{ImageView.image_value, ReceivedImages.received_report};
ghost use Rattle.icy_sixel.specs.Receiver.{AreSettingsKept, OfPayload, OfString, found, idle};
ghost use Rattle.icy_sixel.specs.{Receiver.{is_open, start_of}, ReceiverCalls.{IsAborted, IsBegun}};
ghost use Rattle.icy_sixel.specs.ReceiverCalls.{IsFed, IsFinished, whole_of};
ghost use Rattle.icy_sixel.specs.inside.Receiving.{reception_of};

mod drawn;
mod failure;
mod progress;
mod received_image;
mod rows;
mod settings;

use crate::decoder::{DcsSettings, SixelDcsFeedStatus, SixelDecoder, SixelFeedStatus};
use crate::script::Status;
use crate::sixel_image::SixelImage;
use failure::{Failure, first_failed};
pub use received_image::{Height, ReceivedImage};
pub use rows::{BandStatus, ReceivedBand, band_len, stable_rows};
use sixel_base::state::DecoderState;
use sixel_base::{Result, SixelError};
use sixel_canvas::band_canvas::BandCanvas;
pub use sixel_decoder::Received;
use sixel_decoder::{DcsReader, FailedRead, PayloadReader};
use std::alloc::Global;
use std::marker::Model;
use std::{mem, result};

/// The error of a failed feed, with the bytes of the image and its status.
#[derive(Debug, PartialEq, Eq, Drop)]
pub struct FailedFeed {
    /// How many bytes of the chunk belong to the image.
    pub consumed: usize,
    /// Whether the image has ended.
    pub status: Status,
    /// The error.
    pub error: SixelError,
}

impl From<FailedFeed> for SixelError {
    ghost from_gives = { λ failed error. error ≡ failed.error };

    fn from(failed: FailedFeed) -> SixelError {
        failed.error
    }
}

/// The image that is open, if one is.
#[derive(Drop)]
enum Open {
    Nothing,
    Payload(PayloadReader<BandCanvas>),
    ControlString(DcsReader<BandCanvas>),
}

/// A decoder, and at most one image that it is receiving.
///
/// The calls are those of the decoder and of its two sessions, [`SixelStreamDecoder`] and
/// [`SixelDcsStreamDecoder`]. The sessions borrow a decoder. A receiver owns it, and can be stored
/// in a struct between chunks. An image changes registers only by a successful
/// [`finish`](Self::finish).
///
/// ```rust
/// let mut decoder = SixelDecoder::new();
/// decoder.set_register(0, background);
/// decoder.set_clip(width, height);
/// decoder.set_raster_crop(true);
/// let receiver = SixelReceiver::with_decoder(decoder);
/// ```
///
/// [`SixelStreamDecoder`]: crate::SixelStreamDecoder
/// [`SixelDcsStreamDecoder`]: crate::SixelDcsStreamDecoder
#[derive(Drop)]
pub struct SixelReceiver {
    decoder: SixelDecoder,
    lenient: bool,
    transparent: bool,
    first_register: u8,
    open: Open,
    failure: Option<Failure>,
}

impl Model for SixelReceiver {
    ghost use Rattle.icy_sixel.specs.Receiver.{Receiver};

    ghost Value = { Receiver };

    ghost use Rattle.icy_sixel.specs.inside.Receiving.{receiver_of, StoresFailure};

    ghost view = { receiver_of };

    ghost invariant = { StoresFailure };
}

impl SixelReceiver {
    /// Creates a receiver with a new decoder and no open image.
    pub fn new() -> Self
        ensures { result ≡ idle new_decoder }
    {
        Self::with_decoder(SixelDecoder::new())
    }

    /// Creates a receiver with this decoder and no open image.
    ///
    /// Its images are strict, have the background that P2 selects, and begin with register 0.
    pub fn with_decoder(decoder: SixelDecoder) -> Self
        ensures { result ≡ idle decoder }
    {
        Self {
            decoder,
            lenient: false,
            transparent: false,
            first_register: 0,
            open: Open::Nothing,
            failure: None,
        }
    }

    /// Returns the decoder, and aborts an open image.
    pub fn into_decoder(self) -> SixelDecoder
        ensures { result ≡ self.decoder }
    {
        let Self { decoder, .. } = self;
        decoder
    }

    /// Returns the decoder, with the registers that the last finished image left.
    pub fn decoder(&self) -> &SixelDecoder
        ensures { result.now ≡ self.now.decoder }
    {
        &self.decoder
    }

    /// Whether an image is open: it was begun, and neither finished nor aborted.
    pub fn is_receiving(&self) -> bool
        ensures { result ≡ is_open self.now.image.form }
    {
        !matches!(self.open, Open::Nothing)
    }

    /// Begins a payload with the current registers and settings.
    ///
    /// An open image is aborted. The call does not allocate.
    pub fn begin_frame(&mut self, alloc: Global, settings: DcsSettings)
        ensures { IsBegun self.old self.new (OfPayload settings) }
    {
        let reader = PayloadReader::new(alloc, self.start(), settings);
        self.replace_open(Open::Payload(reader));
    }

    /// Begins a DCS sequence with the current registers and settings.
    ///
    /// An open image is aborted. The call does not allocate.
    pub fn begin_dcs(&mut self, alloc: Global)
        ensures { IsBegun self.old self.new OfString }
    {
        let reader = DcsReader::new(alloc, self.start());
        self.replace_open(Open::ControlString(reader));
    }

    /// Reads a chunk of the open image, and does not consume what follows the image.
    ///
    /// The results are those of the sessions, by [`SixelStreamDecoder::feed`] and
    /// [`SixelDcsStreamDecoder::feed`]. Chunk boundaries have no effect. But after an error each
    /// feed returns that error again, until another image is begun. If no image is open, the error
    /// is `SixelError::InvalidData("stream decoder has failed")`.
    ///
    /// Errors have no effect on which bytes belong to the image. A feed that fails reports how many
    /// bytes of the chunk are the image's own, and whether the image has ended. So a host drops
    /// these bytes, and goes on with those after the image. A DCS sequence with a wrong header goes
    /// on up to its terminator. One without an introducer does, too.
    ///
    /// [`SixelStreamDecoder::feed`]: crate::SixelStreamDecoder::feed
    /// [`SixelDcsStreamDecoder::feed`]: crate::SixelDcsStreamDecoder::feed
    pub fn feed(&mut self, piece: &[u8]) -> result::Result<Received, FailedFeed>
        ensures { IsFed self.old self.new piece.now result }
    {
        let failed = match &mut self.open {
            Open::Nothing => FailedRead {
                fed: Received {
                    consumed: 0,
                    status: Status::Payload(SixelFeedStatus::NeedMoreData),
                },
                error: SixelError::stream_failed(),
            },
            Open::Payload(reader) => match reader.feed(piece) {
                Ok(fed) => return Ok(Received::of_payload(fed)),
                Err(failed) => failed,
            },
            Open::ControlString(reader) => match reader.feed(piece) {
                Ok(fed) => return Ok(Received::of_sequence(fed)),
                Err(failed) => failed,
            },
        };
        Err(first_failed(&mut self.failure, failed))
    }

    /// Reads a byte of the payload that cannot fail, and returns the result of its feed.
    ///
    /// For any other byte it returns `None` and changes nothing. The caller passes such a byte to
    /// [`feed`](Self::feed). A host that reads byte by byte saves time, because most bytes of a
    /// payload cannot fail. The call does not allocate.
    #[inline(always)]
    pub fn try_byte(&mut self, byte: u8) -> Option<Received>
        ensures open { IfSome result (λ _. is_open self.old.image.form ≡ true) }
        ensures fed { IfSome result (λ received.
            IsFed self.old self.new (byte ∷ []) (Ok received)) }
        ensures left { result ≡ None → self.new ≡ self.old }
    {
        let (is_read, status) = match &mut self.open {
            Open::Nothing => return None,
            Open::Payload(reader) => (
                reader.try_byte(byte),
                Status::Payload(SixelFeedStatus::NeedMoreData),
            ),
            Open::ControlString(reader) => (
                reader.try_byte(byte),
                Status::Dcs(SixelDcsFeedStatus::NeedMoreData),
            ),
        };
        is_read.then_some(Received {
            consumed: 1,
            status,
        })
    }

    /// Closes the image, returns it, and stores its registers in the decoder.
    ///
    /// The open command is closed first. Released rows are not among the pixels. No pixel is
    /// copied. An error closes the image too, and leaves the decoder unchanged. The errors are
    /// those of the sessions, but after a failed feed it is the error of that feed again. If no
    /// image is open, it is that of [`feed`](Self::feed).
    pub fn finish(&mut self) -> Result<ReceivedImage>
        ensures finished { IsFinished (whole_of self.old.image) self.old self.new result }
        ensures first { IfOk result (λ image.
            image.first_row ≡ min self.old.image.released image.height) }
        ensures report { IfOk result (λ image. received_report image ≡ found_report
            self.old.image.start (found self.old.image.form self.old.image.bytes)) }
        ensures memory { IfOk result (λ image. vec_capacity image.pixels
            ≤ most_capacity (length image.pixels.items)) }
    {
        let failure = self.failure.take();
        let open = mem::replace(&mut self.open, Open::Nothing);
        let picture = match open {
            Open::Nothing => Err(SixelError::stream_failed()),
            Open::Payload(reader) => reader.finish(),
            Open::ControlString(reader) => reader.finish(),
        };
        match picture {
            Ok(picture) => {
                self.decoder.state.registers = picture.registers;
                Ok(ReceivedImage::from_picture(picture))
            }
            Err(error) => match failure {
                Some(first) => Err(first.error()),
                None => Err(error),
            },
        }
    }

    /// Closes the image as [`finish`](Self::finish) does, and returns it whole.
    ///
    /// If rows were released, the error is `InvalidData("rows were released")`, because no memory
    /// has the whole image. Then the image stays open as it was.
    pub fn finish_image(&mut self) -> Result<SixelImage>
        ensures finished { self.old.image.released ≡ 0
            → IsFinished image_value self.old self.new result }
        ensures pixels { IfOk result (λ image.
            length image.pixels.items ≡ 4 * (image.width * image.height)) }
        ensures memory { IfOk result (λ image. vec_capacity image.pixels
            ≤ most_capacity (length image.pixels.items)) }
        ensures released { 0 < self.old.image.released
            → FailsBy (Some RowsReleased) result × (self.new ≡ self.old) }
    {
        if self.released_rows() > 0 {
            return Err(SixelError::rows_released());
        }
        match self.finish() {
            Ok(image) => image.into_image(),
            Err(error) => Err(error),
        }
    }

    /// Aborts the open image, if there is one. The decoder is unchanged.
    pub fn abort(&mut self)
        ensures { IsAborted self.old self.new }
    {
        self.replace_open(Open::Nothing);
    }

    /// The state that an image begins from: the decoder's, with the receiver's settings.
    fn start(&self) -> DecoderState
        ensures { result ≡ start_of self.now }
    {
        let state = self.decoder.state;
        let limit = state.pixel_limit.with_lenient(self.lenient);
        let limit = limit.with_transparent(self.transparent);
        DecoderState {
            pixel_limit: limit.with_first_register(self.first_register),
            ..state
        }
    }

    /// Replaces the open image, and aborts the one before.
    fn replace_open(&mut self, image: Open)
        ensures decoder { self.new.decoder ≡ self.old.decoder }
        ensures settings { AreSettingsKept self.old self.new }
        ensures image { self.new.image ≡ reception_of image }
    {
        self.open = image;
        self.failure = None;
    }
}

impl Default for SixelReceiver {
    ghost use Rattle.icy_sixel.specs.Receiver.{idle};
    ghost use Rattle.sixel_base.specs.Decoder.{new_decoder};

    ghost is_default = { λ receiver.
        receiver ≡ idle new_decoder };

    fn default() -> Self {
        Self::new()
    }
}
