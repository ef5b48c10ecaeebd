//! Callers of the payload session, proved from its contracts alone.

ghost use Rattle.std.specs.Prelude.{◌≡◌, ◌++◌, Ok, Err, None, OnErr, OnOk};
ghost use Rattle.sixel_base.specs.{Decoder.origin_of, Fault.Faults, Payload.payload_fault};
ghost use Rattle.sixel_base.specs.Payload.{payload_wants, payload_image, payload_registers};
ghost use Rattle.icy_sixel.specs.ImageView.{image_value};

use icy_sixel::{DcsSettings, Result, SixelDecoder, SixelError, SixelImage};
use std::alloc::Global;

/// Decodes a payload in two chunks, as decoding the joined chunks does.
pub fn decode_two_chunks(
    alloc: Global,
    decoder: &mut SixelDecoder,
    first: &[u8],
    second: &[u8],
    settings: DcsSettings,
) -> Result<SixelImage>
    ensures image { (image : SixelImage) → result ≡ Ok image → image_value image ≡ payload_image
        (origin_of decoder.old settings) (first.now ++ second.now) }
    ensures registers { OnOk result (decoder.new.registers ≡ payload_registers
        (origin_of decoder.old settings) (first.now ++ second.now)) }
    ensures faultless { OnOk result
        (payload_fault decoder.old.pixel_limit (first.now ++ second.now) ≡ None) }
    ensures refused { (error : SixelError) → result ≡ Err error
        → Faults error (payload_wants decoder.old.pixel_limit (first.now ++ second.now))
        (payload_fault decoder.old.pixel_limit (first.now ++ second.now)) }
    ensures kept { OnErr result (decoder.new ≡ decoder.old) }
{
    let mut session = decoder.begin_frame(alloc, settings)?;
    if let Err(error) = session.feed(first) {
        session.abort();
        return Err(error);
    }
    if let Err(error) = session.feed(second) {
        session.abort();
        return Err(error);
    }
    session.finish()
}

/// Begins a session, feeds it and aborts it: the decoder is unchanged.
pub fn abort_payload(alloc: Global, decoder: &mut SixelDecoder, chunk: &[u8], settings: DcsSettings)
    ensures { decoder.new ≡ decoder.old }
{
    if let Ok(mut session) = decoder.begin_frame(alloc, settings) {
        let _ = session.feed(chunk);
        session.abort();
    }
}
