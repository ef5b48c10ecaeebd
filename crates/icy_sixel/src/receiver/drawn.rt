//! Images that a receiver decodes in one call, by its own settings.

ghost use Rattle.sixel_base.specs.OneShot.{found, Payload};
ghost use Rattle.icy_sixel.specs.ReceiverCalls.{IsDecoded};

use crate::decoder::DcsSettings;
use crate::receiver::{ReceivedImage, SixelReceiver};
use sixel_base::Result;
use sixel_decoder::{decode_found, decode_payload};
use std::alloc::Global;

impl SixelReceiver {
    /// Decodes as [`SixelDecoder::decode_drawn`](crate::SixelDecoder::decode_drawn) does.
    ///
    /// The image can be lenient and can have a transparent background, as one that is begun. An
    /// open image is aborted.
    pub fn decode_drawn(&mut self, alloc: Global, bytes: &[u8]) -> Result<ReceivedImage>
        ensures { IsDecoded self.old self.new (found bytes.now) result }
    {
        self.abort();
        let picture = decode_found(alloc, self.start(), bytes)?;
        self.decoder.state.registers = picture.registers;
        Ok(ReceivedImage::from_picture(picture))
    }

    /// Decodes one payload with these settings, as [`decode_drawn`](Self::decode_drawn) does.
    pub fn decode_from_dcs_drawn(
        &mut self,
        alloc: Global,
        bytes: &[u8],
        settings: DcsSettings,
    ) -> Result<ReceivedImage>
        ensures { IsDecoded self.old self.new (Payload settings bytes.now) result }
    {
        self.abort();
        let picture = decode_payload(alloc, self.start(), bytes, settings)?;
        self.decoder.state.registers = picture.registers;
        Ok(ReceivedImage::from_picture(picture))
    }
}
