//! Decoders and receivers, and sessions with the same calls for both.

use crate::vectors::error::{Result, VectorError, ensure};
use icy_sixel::receiver::{Received, SixelReceiver};
use icy_sixel::script::Status;
use icy_sixel::{DcsSettings, SixelDcsStreamDecoder, SixelDecoder, SixelImage, SixelStreamDecoder};
use std::alloc::Global;

/// What bytes are.
#[derive(Clone, Copy)]
pub enum Form {
    Payload(DcsSettings),
    Dcs,
}

/// The form and the decoder that a column of settings writes.
pub fn settings(text: &str) -> Result<(Form, SixelDecoder)> {
    let mut decoder = SixelDecoder::new();
    let (mut p1, mut p2, mut p3) = (None, None, None);
    let mut is_payload = false;
    for word in text.split(' ') {
        match word.split_once('=').unwrap_or((word, "")) {
            ("payload", "") => is_payload = true,
            ("dcs", "") => is_payload = false,
            ("p1", value) => p1 = Some(value.parse::<u16>()?),
            ("p2", value) => p2 = Some(value.parse::<u16>()?),
            ("p3", value) => p3 = Some(value.parse::<u16>()?),
            ("limit", pixels) => decoder.set_pixel_limit(pixels.parse::<usize>()?),
            ("clip", sides) => {
                let (width, height) = clip(sides)?;
                decoder.set_clip(width, height);
            }
            ("crop", "") => decoder.set_raster_crop(true),
            _ => return Err(VectorError::Check("no setting")),
        }
    }
    let payload = Form::Payload(DcsSettings::new(p1, p2, p3));
    Ok((if is_payload { payload } else { Form::Dcs }, decoder))
}

/// The columns and rows of a clip, written as `5x4`.
pub fn clip(sides: &str) -> Result<(usize, usize)> {
    let (width, height) = sides.split_once('x').ok_or(VectorError::Check("no clip"))?;
    Ok((width.parse::<usize>()?, height.parse::<usize>()?))
}

/// Fails if two decoders differ in a register, the crop, the pixel limit or the clip.
pub fn check_decoder(decoder: &SixelDecoder, expected: &SixelDecoder) -> Result<()> {
    ensure(decoder.raster_crop() == expected.raster_crop(), "crop")?;
    ensure(decoder.pixel_limit() == expected.pixel_limit(), "limit")?;
    ensure(decoder.clip() == expected.clip(), "clip")?;
    ensure(decoder.registers() == expected.registers(), "registers")?;
    Ok(())
}

/// A decoder that sessions borrow, or a receiver.
#[derive(Drop)]
pub enum Owner {
    Decoder(SixelDecoder),
    Receiver(SixelReceiver),
}

impl Owner {
    /// Creates an owner with a copy of a decoder: a receiver, or one whose sessions borrow it.
    pub fn new(decoder: &SixelDecoder, is_receiver: bool) -> Result<Self> {
        let decoder = decoder.clone()?;
        Ok(if is_receiver {
            Self::Receiver(SixelReceiver::with_decoder(decoder))
        } else {
            Self::Decoder(decoder)
        })
    }

    /// Begins an image.
    pub fn begin(&mut self, alloc: Global, form: Form) -> Result<Session<'_>> {
        match self {
            Self::Decoder(decoder) => Session::begin(alloc, decoder, form),
            Self::Receiver(receiver) => Ok(Session::receive(alloc, receiver, form)),
        }
    }

    /// The decoder.
    pub fn decoder(&self) -> &SixelDecoder {
        match self {
            Self::Decoder(decoder) => decoder,
            Self::Receiver(receiver) => receiver.decoder(),
        }
    }

    /// Returns the decoder.
    pub fn into_decoder(self) -> SixelDecoder {
        match self {
            Self::Decoder(decoder) => decoder,
            Self::Receiver(receiver) => receiver.into_decoder(),
        }
    }
}

/// Begins an image of a receiver.
pub fn begin(alloc: Global, receiver: &mut SixelReceiver, form: Form) {
    match form {
        Form::Payload(settings) => receiver.begin_frame(alloc, settings),
        Form::Dcs => receiver.begin_dcs(alloc),
    }
}

/// A session of either kind, or a receiver with an open image.
#[derive(Drop)]
pub enum Session<'a> {
    Payload(SixelStreamDecoder<'a>),
    Dcs(SixelDcsStreamDecoder<'a>),
    Receiver(&'a mut SixelReceiver),
}

impl<'a> Session<'a> {
    /// Begins a session that borrows a decoder.
    pub fn begin(alloc: Global, decoder: &'a mut SixelDecoder, form: Form) -> Result<Self> {
        Ok(match form {
            Form::Payload(settings) => Self::Payload(decoder.begin_frame(alloc, settings)?),
            Form::Dcs => Self::Dcs(decoder.begin_dcs(alloc)),
        })
    }

    /// Begins an image of a receiver.
    fn receive(alloc: Global, receiver: &'a mut SixelReceiver, form: Form) -> Self {
        begin(alloc, receiver, form);
        Self::Receiver(receiver)
    }

    /// Feeds a chunk.
    pub fn feed(&mut self, chunk: &[u8]) -> icy_sixel::Result<Received> {
        let (consumed, status) = match self {
            Self::Payload(session) => {
                let fed = session.feed(chunk)?;
                (fed.consumed, Status::Payload(fed.status))
            }
            Self::Dcs(session) => {
                let fed = session.feed(chunk)?;
                (fed.consumed, Status::Dcs(fed.status))
            }
            Self::Receiver(receiver) => return receive(receiver, chunk),
        };
        Ok(Received { consumed, status })
    }

    /// Pixels that the canvas wrote to grow, if they are counted, and what it painted.
    pub fn work(&self) -> (Option<u64>, u64) {
        match self {
            Self::Payload(session) => (Some(session.canvas_writes()), session.canvas_paints()),
            Self::Dcs(session) => (Some(session.canvas_writes()), session.canvas_paints()),
            Self::Receiver(receiver) => (None, receiver.canvas_paints()),
        }
    }

    /// The last row with a set pixel, plus one, or 0.
    pub fn drawn_height(&self) -> usize {
        match self {
            Self::Payload(session) => session.drawn_height(),
            Self::Dcs(session) => session.drawn_height(),
            Self::Receiver(receiver) => receiver.drawn_height(),
        }
    }

    /// Whether the canvas has no work to report.
    pub fn is_idle(&self) -> bool {
        matches!(self.work(), (None | Some(0), 0))
    }

    /// Finishes the image.
    pub fn finish(self) -> icy_sixel::Result<SixelImage> {
        match self {
            Self::Payload(session) => session.finish(),
            Self::Dcs(session) => session.finish(),
            Self::Receiver(receiver) => receiver.finish_image(),
        }
    }

    /// Aborts the image.
    pub fn abort(self) {
        match self {
            Self::Payload(session) => session.abort(),
            Self::Dcs(session) => session.abort(),
            Self::Receiver(receiver) => receiver.abort(),
        }
    }
}

/// Feeds a chunk to a receiver: a byte that cannot fail by the call for it.
fn receive(receiver: &mut SixelReceiver, chunk: &[u8]) -> icy_sixel::Result<Received> {
    if chunk.len() == 1
        && let Some(received) = receiver.try_byte(chunk[0])
    {
        return Ok(received);
    }
    Ok(receiver.feed(chunk)?)
}
