//! DCS sequences that follow one another, on one decoder.

ghost use Rattle.std.specs.{Io.KnownBytes.Appends, Prelude.{◌≡◌, ◌<◌, ◌≤◌, ◌+◌, ◌^◌, [], length}};
ghost use Rattle.std.specs.Prelude.{take, drop, true, false, None, IfOk, OnOk, IfErr, OnErr};
ghost use Rattle.sixel_base.specs.{Dcs.{dcs_status, dcs_count, dcs_fault}, Decoder.new_decoder};
ghost use Rattle.sixel_base.specs.{Decoder.IsSetAs, Fault.Faults, OneShot.{found, IsFoundImage}};
ghost use Rattle.sixel_base.specs.{OneShot.AreFoundRegisters, Payload.Image};
ghost use Rattle.sixel_base.specs.declared.status.SixelDcsFeedStatus.{SixelDcsFeedStatus};
ghost use Rattle.icy_sixel.specs.{ImageView.image_value, Receiver.{AreSettingsKept, OfString}};
ghost use Rattle.icy_sixel.specs.{Receiver.start_of, inside.Session.IsWhole};
ghost use Rattle.sixel_decoder.specs.declared.received.Status.TheVariants.{Dcs};
ghost use Rattle.sixel.specs.{Form.image_form, Sequences.{HasEnded, IsSequencesOutput, rest_by}};
ghost use Rattle.sixel.specs.{Sequences.{rest_of, sequence_fault}, WorkOutput.Serves};

use crate::fault::Fault;
use crate::image_output::write_image;
use icy_sixel::{Received, SixelDcsFeedStatus, SixelError, SixelImage, SixelReceiver, Status};
use std::alloc::Global;
use std::io::Write;

/// Writes the image of each DCS sequence, until one ends early or no byte is left.
///
/// Each is fed in chunks of `chunk_len` bytes, from its own first byte on.
pub fn write_sequences<O: Write>(
    alloc: Global,
    chunk_len: usize,
    bytes: &[u8],
    output: &mut O,
) -> Result<(), Fault>
    requires { 0 < chunk_len }
    ensures { Serves result (IsSequencesOutput new_decoder bytes.now)
        (O.contents output.old) (O.contents output.new) }
{
    let mut receiver = SixelReceiver::new();
    let mut rest = bytes;
    'sequences: loop {
        if rest.is_empty() {
            break Ok(());
        }
        match write_sequence(alloc, &mut receiver, chunk_len, rest, output) {
            Ok(after) => rest = after,
            Err(fault) => break Err(fault),
        }
    }
}

/// Writes the image of the first DCS sequence, and returns the bytes to read next.
fn write_sequence<'a, O: Write>(
    alloc: Global,
    receiver: &mut SixelReceiver,
    chunk_len: usize,
    bytes: &'a [u8],
    output: &mut O,
) -> Result<&'a [u8], Fault>
    requires chunks { 0 < chunk_len }
    requires some { 0 < length bytes.now }
    ensures written { OnOk result ((image : Image)
        × HasEnded (start_of receiver.old) bytes.now image (start_of receiver.new)
        × Appends (O.contents output.old) (O.contents output.new) (image_form image)) }
    ensures rest { IfOk result (λ rest. rest.now ≡ rest_of bytes.now) }
    ensures stopped { OnErr result (Serves result
        (IsSequencesOutput (start_of receiver.old) bytes.now)
        (O.contents output.old) (O.contents output.new)) }
{
    let (image, rest) = read_sequence(alloc, receiver, chunk_len, bytes)?;
    match write_image(alloc, &image, output) {
        Ok(()) => Ok(rest),
        Err(fault) => Err(fault),
    }
}

/// Decodes the DCS sequence at the start of the bytes, and returns the bytes to read next.
fn read_sequence<'a>(
    alloc: Global,
    receiver: &mut SixelReceiver,
    chunk_len: usize,
    bytes: &'a [u8],
) -> Result<(SixelImage, &'a [u8]), SixelError>
    requires chunks { 0 < chunk_len }
    requires some { 0 < length bytes.now }
    ensures image { IfOk result (λ read.
        IsFoundImage (start_of receiver.old) (found bytes.now) (image_value read.0)) }
    ensures registers { OnOk result
        (AreFoundRegisters (start_of receiver.old) (found bytes.now)
        receiver.new.decoder.registers) }
    ensures set { OnOk result (IsSetAs (start_of receiver.old) (start_of receiver.new)) }
    ensures rest { IfOk result (λ read. read.1.now ≡ rest_of bytes.now) }
    ensures faultless { OnOk result
        (sequence_fault (start_of receiver.old).pixel_limit bytes.now ≡ None) }
    ensures refused { IfErr result (λ error. Faults error true
        (sequence_fault (start_of receiver.old).pixel_limit bytes.now)) }
{
    receiver.begin_dcs(alloc);
    let fed = feed_chunks(receiver, chunk_len, bytes)?;
    let image = receiver.finish_image()?;
    Ok((image, bytes_after(fed, bytes)))
}

/// The bytes to read after a DCS sequence: none if it ended early.
fn bytes_after(sequence: Received, bytes: &[u8]) -> &[u8]
    requires { sequence.consumed ≤ length bytes.now }
    ensures { (status : SixelDcsFeedStatus) → sequence.status ≡ Dcs status
        → result.now ≡ rest_by status (drop sequence.consumed bytes.now) }
{
    match sequence.status {
        Status::Dcs(SixelDcsFeedStatus::Complete) => &bytes[sequence.consumed..],
        _ => &[],
    }
}

/// Feeds a new DCS sequence chunks of `chunk_len` bytes, until it ends.
///
/// It also stops if no byte is left.
fn feed_chunks(
    receiver: &mut SixelReceiver,
    chunk_len: usize,
    bytes: &[u8],
) -> Result<Received, SixelError>
    requires chunks { 0 < chunk_len }
    requires some { 0 < length bytes.now }
    requires form { receiver.old.image.form ≡ OfString }
    requires fresh { receiver.old.image.bytes ≡ [] }
    requires accepted { receiver.old.image.is_refused ≡ false }
    ensures decoder { receiver.new.decoder ≡ receiver.old.decoder }
    ensures settings { AreSettingsKept receiver.old receiver.new }
    ensures form { receiver.new.image.form ≡ OfString }
    ensures start { receiver.new.image.start ≡ receiver.old.image.start }
    ensures released { OnOk result
        (receiver.new.image.released ≡ receiver.old.image.released) }
    ensures accepts { OnOk result (receiver.new.image.is_refused ≡ false) }
    ensures whole { OnOk result (IsWhole OfString receiver.new.image.bytes bytes.now) }
    ensures consumed { IfOk result (λ fed. fed.consumed ≡ dcs_count receiver.new.image.bytes) }
    ensures status { IfOk result (λ fed. fed.status ≡ Dcs (dcs_status receiver.new.image.bytes)) }
    ensures faultless { OnOk result
        (dcs_fault receiver.old.image.start.pixel_limit receiver.new.image.bytes ≡ None) }
    ensures refused { IfErr result (λ error. Faults error true
        (sequence_fault receiver.old.image.start.pixel_limit bytes.now)) }
{
    let mut rest = bytes;
    let mut fed = Received {
        consumed: 0,
        status: Status::Dcs(SixelDcsFeedStatus::NeedMoreData),
    };
    'chunks: while !rest.is_empty() && !fed.status.has_ended() {
        let (chunk, after) = split_chunk(chunk_len, rest);
        fed = total(fed, receiver.feed(chunk)?);
        rest = after;
    }
    Ok(fed)
}

/// Splits off the next chunk: `chunk_len` bytes, or all that are left.
fn split_chunk(chunk_len: usize, rest: &[u8]) -> (&[u8], &[u8])
    ensures chunk { result.0.now ≡ take chunk_len rest.now }
    ensures after { result.1.now ≡ drop chunk_len rest.now }
{
    rest.split_at(chunk_len.min(rest.len()))
}

/// The sum of the chunks before and of the last one.
fn total(earlier: Received, last: Received) -> Received
    requires { earlier.consumed + last.consumed < 2 ^ 64 }
    ensures consumed { result.consumed ≡ earlier.consumed + last.consumed }
    ensures status { result.status ≡ last.status }
{
    Received {
        consumed: earlier.consumed + last.consumed,
        status: last.status,
    }
}
