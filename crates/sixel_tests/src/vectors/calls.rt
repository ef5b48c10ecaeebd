//! Vectors of `sessions.tsv` and `receivers.tsv`: calls and their results.

use crate::vectors::error::{Result, VectorError, ensure};
use crate::vectors::notation::{
    bytes, color, push_error, push_fed, push_hexadecimal, push_image, push_outcome,
};
use crate::vectors::session::{Owner, Session, begin, check_decoder, clip, settings};
use icy_sixel::receiver::{FailedFeed, Received, SixelReceiver};
use icy_sixel::{
    ChannelOrder, DcsSettings, ReceivedImage, RowLayout, SixelDecoder, SixelError, SixelImage,
};
use std::alloc::Global;
use std::mem;

/// Checks a vector of `sessions.tsv`, by a session that borrows its decoder and by a receiver.
///
/// After an error a receiver returns that error again, which `receivers.tsv` has.
pub fn write_session(alloc: Global, found: &mut String, columns: &[&str]) -> Result<()> {
    let (start, calls) = columns
        .split_first()
        .ok_or(VectorError::Check("no settings"))?;
    let mut received = String::new(alloc);
    let decoder = run_owner(alloc, found, false, start, calls)?;
    let other = run_owner(alloc, &mut received, true, start, calls)?;
    ensure(
        received == *found || found.contains(" has failed"),
        "receiver",
    )?;
    check_decoder(&other, &decoder)
}

/// Makes the calls on an owner and returns its decoder, which stays unless there is an image.
fn run_owner(
    alloc: Global,
    found: &mut String,
    is_receiver: bool,
    start: &str,
    calls: &[&str],
) -> Result<SixelDecoder> {
    let (form, decoder) = settings(start)?;
    let mut owner = Owner::new(&decoder, is_receiver)?;
    let is_finished = run(alloc, found, owner.begin(alloc, form)?, calls)?;
    let after = owner.into_decoder();
    if !is_finished {
        check_decoder(&after, &decoder)?;
    }
    Ok(after)
}

/// Feeds chunks, ends the session, writes the results and returns whether there is an image.
fn run(
    alloc: Global,
    found: &mut String,
    mut session: Session<'_>,
    calls: &[&str],
) -> Result<bool> {
    let (end, feeds) = calls.split_last().ok_or(VectorError::Check("no end"))?;
    for feed in feeds.chunks(2) {
        let chunk = feed.first().ok_or(VectorError::Check("no chunk"))?;
        write!(found, "\t{chunk}")?;
        push_received(found, session.feed(&bytes(alloc, chunk)?))?;
    }
    if *end == "aborted" {
        session.abort();
        found.push_str("\taborted")?;
        return Ok(false);
    }
    let outcome = session.finish();
    push_outcome(found, &outcome)?;
    Ok(outcome.is_ok())
}

/// Writes the result of a feed.
fn push_received(found: &mut String, fed: icy_sixel::Result<Received>) -> Result<()> {
    match fed {
        Ok(received) => push_fed(found, received.consumed, received.status),
        Err(error) => push_error(found, &error),
    }
}

/// Writes the result of a feed of a receiver, also of one that failed.
fn push_counted(found: &mut String, fed: std::result::Result<Received, FailedFeed>) -> Result<()> {
    match fed {
        Ok(received) => push_fed(found, received.consumed, received.status),
        Err(failed) => {
            push_fed(found, failed.consumed, failed.status)?;
            Ok(write!(found, ", error: {}", failed.error)?)
        }
    }
}

/// Checks a vector of `receivers.tsv`.
pub fn write_receiver(alloc: Global, found: &mut String, columns: &[&str]) -> Result<()> {
    let mut receiver = SixelReceiver::with_decoder(SixelReceiver::default().into_decoder());
    make_all(alloc, found, &mut receiver, columns)
}

/// Makes the calls of a line, each of which has a result after it, and writes both.
fn make_all(
    alloc: Global,
    found: &mut String,
    receiver: &mut SixelReceiver,
    columns: &[&str],
) -> Result<()> {
    for pair in columns.chunks(2) {
        let call = pair.first().ok_or(VectorError::Check("no call"))?;
        write!(found, "\t{call}")?;
        make(alloc, found, receiver, call)?;
    }
    Ok(())
}

/// Makes a call and writes its result, which most calls do not have.
fn make(alloc: Global, found: &mut String, receiver: &mut SixelReceiver, call: &str) -> Result<()> {
    let (word, argument) = call.split_once(' ').unwrap_or((call, ""));
    match word {
        "feed" => return push_counted(found, receiver.feed(&bytes(alloc, argument)?)),
        "try" => return push_tried(found, receiver, &bytes(alloc, argument)?),
        "writes" => return Ok(write!(found, "\t{}", receiver.canvas_writes())?),
        "finish" => return push_finished(alloc, found, receiver.finish()),
        "decode" => {
            let image = receiver.decode_drawn(alloc, &bytes(alloc, argument)?);
            return push_finished(alloc, found, image);
        }
        "payload" => {
            let payload = bytes(alloc, argument)?;
            let settings = DcsSettings::default();
            let image = receiver.decode_from_dcs_drawn(alloc, &payload, settings);
            return push_finished(alloc, found, image);
        }
        "state" => return push_state(found, receiver),
        "register" => return push_register(found, receiver, argument),
        "end" => return push_end(found, receiver),
        "begin" => begin(alloc, receiver, settings(argument)?.0),
        "abort" => receiver.abort(),
        "take" => {
            let decoder = mem::replace(receiver, SixelReceiver::new()).into_decoder();
            *receiver = SixelReceiver::with_decoder(decoder);
        }
        "release" => receiver.release_rows(argument.parse::<usize>()?)?,
        _ => set(receiver, word, argument)?,
    }
    Ok(found.push('\t')?)
}

/// Makes a call that changes a setting or a register.
fn set(receiver: &mut SixelReceiver, word: &str, argument: &str) -> Result<()> {
    match word {
        "reset" => receiver.decoder_mut().reset_palette(),
        "crop" => receiver.decoder_mut().set_raster_crop(argument == "on"),
        "lenient" => {
            let on = argument == "on";
            receiver.set_lenient(on);
            ensure(receiver.is_lenient() == on, "is_lenient")?;
        }
        "transparent" => {
            let on = argument == "on";
            receiver.set_transparent(on);
            ensure(receiver.is_transparent() == on, "is_transparent")?;
        }
        "first" => {
            let register = argument.parse::<u8>()?;
            receiver.set_first_register(register);
            ensure(receiver.first_register() == register, "first_register")?;
        }
        "limit" => receiver
            .decoder_mut()
            .set_pixel_limit(argument.parse::<usize>()?),
        "clip" => {
            let (width, height) = clip(argument)?;
            receiver.decoder_mut().set_clip(width, height);
        }
        "set" => {
            let (register, value) = argument
                .split_once(' ')
                .ok_or(VectorError::Check("no color"))?;
            receiver
                .decoder_mut()
                .set_register(register.parse::<u8>()?, color(value)?);
        }
        _ => return Err(VectorError::Check("no call")),
    }
    Ok(())
}

/// Writes whether the call for a byte that cannot fail reads this byte.
fn push_tried(found: &mut String, receiver: &mut SixelReceiver, bytes: &[u8]) -> Result<()> {
    let byte = bytes.first().ok_or(VectorError::Check("no byte"))?;
    match receiver.try_byte(*byte) {
        Some(received) => push_fed(found, received.consumed, received.status),
        None => Ok(found.push_str("\tnone")?),
    }
}

/// Writes the color of a register.
fn push_register(found: &mut String, receiver: &SixelReceiver, register: &str) -> Result<()> {
    let register = register.parse::<u8>()?;
    let color = receiver.decoder().register(register);
    found.push('\t')?;
    push_hexadecimal(found, &color)
}

/// Writes a finished image or an error. Copies of its rows must have its pixels.
fn push_finished(
    alloc: Global,
    found: &mut String,
    finished: icy_sixel::Result<ReceivedImage>,
) -> Result<()> {
    let image = match finished {
        Ok(image) => image,
        Err(error) => return push_error(found, &error),
    };
    let rows = copied(alloc, &image, ChannelOrder::Rgba)?;
    ensure(rows[..] == image.pixels[..], "rows")?;
    let shown = SixelImage {
        pixels: rows,
        width: image.width,
        height: image.height,
        aspect_ratio: image.aspect_ratio,
        background_mode: image.background_mode,
    };
    push_image(found, &shown)?;
    if image.first_row > 0 {
        write!(found, " from {}", image.first_row)?;
    }
    if image.ignored_commands > 0 {
        write!(found, " ignored {}", image.ignored_commands)?;
    }
    let exchanged = copied(alloc, &image, ChannelOrder::Bgra)?;
    ensure(
        image.into_pixels(ChannelOrder::Bgra)[..] == exchanged[..],
        "pixels",
    )
}

/// Copies all rows that are left.
fn copied(alloc: Global, image: &ReceivedImage, order: ChannelOrder) -> Result<Vec<u8>> {
    let layout = RowLayout {
        stride: image.width.max(1).saturating_mul(4),
        columns: image.width,
        order,
    };
    let mut rows = vec![in alloc; 0; image.pixels.len()]?;
    let count = image.height.saturating_sub(image.first_row);
    image.copy_rows(image.first_row, count, layout, &mut rows)?;
    Ok(rows)
}

/// Writes whether the end of the open image was fed.
fn push_end(found: &mut String, receiver: &SixelReceiver) -> Result<()> {
    let has_ended = receiver.has_ended();
    Ok(found.push_str(if has_ended { "\tended" } else { "\topen" })?)
}

/// Writes whether an image is open, and its size so far.
fn push_state(found: &mut String, receiver: &mut SixelReceiver) -> Result<()> {
    let size = receiver.size_so_far();
    ensure(receiver.in_payload() == size.is_some(), "payload")?;
    match (receiver.is_receiving(), size) {
        (true, Some((width, height))) => write!(found, "\t{width}x{height}")?,
        (true, None) => found.push_str("\theader")?,
        (false, _) => {
            let failed = Some(SixelError::InvalidData("stream decoder has failed"));
            let paints = receiver.canvas_paints();
            ensure(size.is_none() && paints == 0, "size or work")?;
            ensure(
                receiver.feed(b"~").err().map(SixelError::from) == failed,
                "feed",
            )?;
            ensure(receiver.finish().err() == failed, "finish")?;
            found.push_str("\tidle")?;
        }
    }
    Ok(())
}
