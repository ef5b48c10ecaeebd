//! A terminal that stores its receiver in a struct.

use icy_sixel::{
    DcsSettings, Result, SixelDecoder, SixelFeedStatus, SixelImage, SixelReceiver, Status,
};
use std::alloc::Global;

/// The images of a terminal.
#[derive(Drop)]
pub struct Images {
    receiver: SixelReceiver,
}

/// The result of reading some bytes of an image.
#[derive(Drop)]
pub struct Read {
    /// How many of them belong to the image.
    pub consumed: usize,
    /// The image, once it has ended.
    pub image: Option<SixelImage>,
}

impl Images {
    /// Creates a receiver for a terminal with this background and this screen in pixels.
    ///
    /// The background is that of an opaque image.
    pub fn new(background: [u8; 3], width: usize, height: usize) -> Self {
        let mut decoder = SixelDecoder::new();
        decoder.set_register(0, background);
        decoder.set_clip(width, height);
        decoder.set_raster_crop(true);
        let receiver = SixelReceiver::with_decoder(decoder);
        Self { receiver }
    }

    /// Begins an image: the parser has read DCS, these parameters and `q`.
    pub fn begin(&mut self, alloc: Global, p1: Option<u16>, p2: Option<u16>) {
        let settings = DcsSettings::new(p1, p2, None);
        self.receiver.begin_frame(alloc, settings);
    }

    /// Reads the next bytes of the payload. The terminator is left to the parser.
    pub fn read(&mut self, bytes: &[u8]) -> Result<Read> {
        let received = self.receiver.feed(bytes)?;
        let has_ended = matches!(
            received.status,
            Status::Payload(SixelFeedStatus::Terminated(_))
        );
        let image = if has_ended {
            Some(self.receiver.finish_image()?)
        } else {
            None
        };
        Ok(Read {
            consumed: received.consumed,
            image,
        })
    }

    /// Returns the size of the image so far, to reserve cells before it ends.
    pub fn size_so_far(&self) -> Option<(usize, usize)> {
        self.receiver.size_so_far()
    }
}
