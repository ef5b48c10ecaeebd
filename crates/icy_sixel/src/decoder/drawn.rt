//! Images that are decoded in one call, with what is reported of them beside their pixels.

ghost use Rattle.std.specs.Prelude.{◌≡◌, ◌≤◌, length, vec_capacity, OnOk, OnErr, IfOk};
ghost use Rattle.sixel_base.specs.{Decoder.{IsSetAs, origin_of}, OneShot.{found, Payload}};
ghost use Rattle.sixel_base.specs.{OneShot.AreFoundRegisters, Payload.payload_registers};
ghost use Rattle.icy_sixel.specs.ReceivedImages.{left_value, received_report};
ghost use Rattle.sixel_decoder.specs.{Memory.most_capacity, OneShotCalls.IsDecoded};
ghost use Rattle.sixel_decoder.specs.Report.{found_report};

use crate::decoder::SixelDecoder;
use crate::receiver::ReceivedImage;
use sixel_base::Result;
use sixel_base::settings::DcsSettings;
use sixel_decoder::{decode_found, decode_payload};
use std::alloc::Global;

impl SixelDecoder {
    /// Decodes as [`decode`](Self::decode) does, and returns what a finished image reports too.
    ///
    /// Without raster attributes the height of an image is a multiple of six, also if fewer rows
    /// are drawn.
    pub fn decode_drawn(&mut self, alloc: Global, bytes: &[u8]) -> Result<ReceivedImage>
        ensures decoded { IsDecoded left_value self.old (found bytes.now) result }
        ensures memory { IfOk result (λ image. vec_capacity image.pixels
            ≤ most_capacity (length image.pixels.items)) }
        ensures first { IfOk result (λ image. image.first_row ≡ 0) }
        ensures report { IfOk result (λ image.
            received_report image ≡ found_report self.old (found bytes.now)) }
        ensures registers { OnOk result
            (AreFoundRegisters self.old (found bytes.now) self.new.registers) }
        ensures set { IsSetAs self.old self.new }
        ensures kept { OnErr result (self.new ≡ self.old) }
    {
        let picture = decode_found(alloc, self.state, bytes)?;
        self.state.registers = picture.registers;
        Ok(ReceivedImage::from_picture(picture))
    }

    /// Decodes as [`decode_from_dcs`](Self::decode_from_dcs) does, and returns a [`ReceivedImage`].
    pub fn decode_from_dcs_drawn(
        &mut self,
        alloc: Global,
        bytes: &[u8],
        settings: DcsSettings,
    ) -> Result<ReceivedImage>
        ensures decoded { IsDecoded left_value self.old (Payload settings bytes.now) result }
        ensures memory { IfOk result (λ image. vec_capacity image.pixels
            ≤ most_capacity (length image.pixels.items)) }
        ensures first { IfOk result (λ image. image.first_row ≡ 0) }
        ensures report { IfOk result (λ image.
            received_report image ≡ found_report self.old (Payload settings bytes.now)) }
        ensures registers { OnOk result (self.new.registers ≡ payload_registers
            (origin_of self.old settings) bytes.now) }
        ensures set { IsSetAs self.old self.new }
        ensures kept { OnErr result (self.new ≡ self.old) }
    {
        let picture = decode_payload(alloc, self.state, bytes, settings)?;
        self.state.registers = picture.registers;
        Ok(ReceivedImage::from_picture(picture))
    }
}
