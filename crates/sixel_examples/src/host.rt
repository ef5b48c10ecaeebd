//! A host that stores its receiver in a struct and feeds it in a loop.
//!
//! It is proved from the receiver's contracts alone.

ghost use Rattle.std.specs.Prelude.{◌≡◌, ◌<◌, [], None, OnErr, OnOk, IfOk, IfErr};
ghost use Rattle.sixel_base.specs.{Decoder.origin_of, Fault.Faults, Payload.payload_fault};
ghost use Rattle.sixel_base.specs.Payload.{payload_wants, payload_image, payload_registers};
ghost use Rattle.sixel_base.specs.OneShot.{found, found_fault, IsFoundImage, AreFoundRegisters};
ghost use Rattle.icy_sixel.specs.{ImageView.image_value, Receiver.start_of};

use icy_sixel::{DcsSettings, Result, SixelImage, SixelReceiver};
use std::alloc::Global;

/// A terminal, reduced to its images.
#[derive(Drop)]
pub struct Terminal {
    pub receiver: SixelReceiver,
}

impl Terminal {
    /// Decodes a payload in chunks of `chunk_len` bytes.
    ///
    /// Image, registers and errors are those of
    /// [`decode_from_dcs_drawn`](SixelReceiver::decode_from_dcs_drawn) for the whole.
    pub fn payload(
        &mut self,
        alloc: Global,
        settings: DcsSettings,
        bytes: &[u8],
        chunk_len: usize,
    ) -> Result<SixelImage>
        requires { 0 < chunk_len }
        ensures image { IfOk result (λ image. image_value image ≡ payload_image
            (origin_of (start_of self.old.receiver) settings) bytes.now) }
        ensures registers { OnOk result (self.new.receiver.decoder.registers ≡ payload_registers
            (origin_of (start_of self.old.receiver) settings) bytes.now) }
        ensures faultless { OnOk result
            (payload_fault (start_of self.old.receiver).pixel_limit bytes.now ≡ None) }
        ensures refused { IfErr result (λ error. Faults error
            (payload_wants (start_of self.old.receiver).pixel_limit bytes.now)
            (payload_fault (start_of self.old.receiver).pixel_limit bytes.now)) }
        ensures kept { OnErr result (self.new.receiver.decoder ≡ self.old.receiver.decoder) }
    {
        self.receiver.begin_frame(alloc, settings);
        let mut rest = bytes;
        'chunks: while !rest.is_empty() {
            let (chunk, after) = rest.split_at(chunk_len.min(rest.len()));
            self.receiver.feed(chunk)?;
            rest = after;
        }
        self.receiver.finish_image()
    }

    /// Decodes a DCS sequence in chunks of `chunk_len` bytes.
    ///
    /// Image and registers are those of [`decode_drawn`](SixelReceiver::decode_drawn) for the
    /// whole.
    pub fn dcs_sequence(
        &mut self,
        alloc: Global,
        bytes: &[u8],
        chunk_len: usize,
    ) -> Result<SixelImage>
        requires { 0 < chunk_len }
        ensures image { IfOk result (λ image. IsFoundImage (start_of self.old.receiver)
            (found bytes.now) (image_value image)) }
        ensures registers { OnOk result (AreFoundRegisters (start_of self.old.receiver)
            (found bytes.now) self.new.receiver.decoder.registers) }
        ensures faultless { OnOk result (found_fault (start_of self.old.receiver).pixel_limit
            (found bytes.now) ≡ None) }
        ensures kept { OnErr result (self.new.receiver.decoder ≡ self.old.receiver.decoder) }
    {
        self.receiver.begin_dcs(alloc);
        let mut rest = bytes;
        'chunks: while !rest.is_empty() {
            let (chunk, after) = rest.split_at(chunk_len.min(rest.len()));
            self.receiver.feed(chunk)?;
            rest = after;
        }
        self.receiver.finish_image()
    }
}
