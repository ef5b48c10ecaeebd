//! The decoding of a payload, or of the first DCS sequence in bytes, in one call.
//!
//! The contracts of both calls are the record of `OneShotCalls`, registers, report and first row.

ghost use Rattle.std.specs.Prelude.{◌≡◌, IfOk, []};
ghost use Rattle.sixel_base.specs.{Decoder.origin_of, OneShot.{found, Payload, AreFoundRegisters}};
ghost use Rattle.sixel_base.specs.{Payload.payload_registers, Stroke.Origin};
ghost use Rattle.sixel_decoder.specs.{OneShotCalls.IsDecoded, PictureView.picture_report};
ghost use Rattle.sixel_decoder.specs.{PictureView.picture_value, Report.found_report};
ghost use Rattle.sixel_decoder.specs.inside.PayloadParser.{Stands, Decodes};

use crate::decoded_payload::DecodedPayload;
use crate::header::{introducer_end, read_header};
use crate::payload_parser::PayloadParser;
use sixel_base::Result;
use sixel_base::settings::DcsSettings;
use sixel_base::state::DecoderState;
use sixel_canvas::band_canvas::BandCanvas;
use std::alloc::Global;

/// Decodes the first DCS sequence in the bytes, or all of them as a payload.
#[tactic(auto, using(crate::proofs::images::FoundPayloads::tail_whole))]
pub fn decode_found(alloc: Global, decoder: DecoderState, bytes: &[u8]) -> Result<DecodedPayload>
    ensures decoded { IsDecoded picture_value decoder (found bytes.now) result }
    ensures registers { IfOk result (λ picture.
        AreFoundRegisters decoder (found bytes.now) picture.registers) }
    ensures report { IfOk result (λ picture.
        picture_report picture ≡ found_report decoder (found bytes.now)) }
    ensures first { IfOk result (λ picture. picture.first_row ≡ 0) }
{
    let Some(start) = introducer_end(bytes) else {
        return decode_payload(alloc, decoder, bytes, DcsSettings::default());
    };
    let string = &bytes[start..];
    match read_header(string) {
        Ok(header) => decode_payload(alloc, decoder, &string[header.1..], header.0),
        Err(error) => Err(error),
    }
}

/// Decodes one payload, up to its first terminator or the end of the bytes.
pub fn decode_payload(
    alloc: Global,
    decoder: DecoderState,
    bytes: &[u8],
    settings: DcsSettings,
) -> Result<DecodedPayload>
    ensures decoded { IsDecoded picture_value decoder (Payload settings bytes.now) result }
    ensures registers { IfOk result (λ picture. picture.registers ≡ payload_registers
        (origin_of decoder settings) bytes.now) }
    ensures report { IfOk result (λ picture.
        picture_report picture ≡ found_report decoder (Payload settings bytes.now)) }
    ensures first { IfOk result (λ picture. picture.first_row ≡ 0) }
{
    read_whole(PayloadParser::new(alloc, decoder, settings), bytes)
}

/// Reads a payload with a new parser, and returns the image and the registers.
#[tactic(auto, using(crate::proofs::chunks::PayloadFaults::whole_payloads))]
fn read_whole(mut parser: PayloadParser<BandCanvas>, bytes: &[u8]) -> Result<DecodedPayload>
    requires { parser.painter.canvas.released ≡ 0 }
    ensures decodes { (o : Origin) → Stands o parser [] → Decodes result o bytes.now }
    ensures whole { IfOk result (λ picture. picture.first_row ≡ 0) }
{
    match parser.feed(bytes) {
        Ok(_) => parser.finish(),
        Err(error) => Err(error),
    }
}
