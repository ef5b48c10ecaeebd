//! The two sessions of a decoder.

use icy_sixel::{
    DcsSettings, Result, SixelDcsStreamDecoder, SixelDecoder, SixelError, SixelImage,
    SixelStreamDecoder,
};
use std::alloc::Global;

/// A payload of two bands in chunks, each of which makes the canvas grow.
pub const PAYLOAD_CHUNKS: &[&[u8]] = &[b"#42;2;100;0;0~", b"!300~", b"-!5~$~"];

/// A DCS sequence in such chunks.
pub const DCS_CHUNKS: &[&[u8]] = &[b"\x1bPq#42;2;100;0;0~", b"!300~", b"-!5~$~", b"\x1b\\"];

/// A payload with a run over columns that are there. It is too short for tags.
pub const RUN_CHUNKS: &[&[u8]] = &[b"#4!300~", b"$#42;2;100;0;0!255~"];

/// The same with a longer run, for which each of the six rows allocates tags.
pub const TAGGED_CHUNKS: &[&[u8]] = &[b"#4!300~", b"$#42;2;100;0;0!256~"];

/// A DCS sequence in such chunks.
pub const TAGGED_DCS_CHUNKS: &[&[u8]] = &[b"\x1bPq#4!300~", b"$#42;2;100;0;0!256~", b"\x1b\\"];

/// Chunks for a session that has failed.
const LATER_CHUNKS: &[&[u8]] = &[b"", b"~", b"\x1bPq", b"#1;2;0;0;0!9~", b"\x1b\\"];

/// Graphics new lines, of which each ends a band without a set pixel.
const NEW_LINES: &[u8] = &[b'-'; 1000];

/// A session of a decoder.
#[derive(Drop)]
pub enum Session<'a> {
    Payload(SixelStreamDecoder<'a>),
    Dcs(SixelDcsStreamDecoder<'a>),
}

/// Draws a payload in a session.
pub fn draw_payload(
    alloc: Global,
    decoder: &mut SixelDecoder,
    chunks: &[&[u8]],
) -> Result<SixelImage> {
    match decoder.begin_frame(alloc, DcsSettings::default()) {
        Ok(session) => Session::Payload(session).draw(chunks),
        Err(error) => Err(error),
    }
}

/// Draws one sixel in a session, below 166,000 bands without a set pixel.
pub fn draw_low_sixel(alloc: Global, decoder: &mut SixelDecoder) -> Result<bool> {
    let mut chunks = [NEW_LINES; 167];
    chunks[166] = b"~";
    match draw_payload(alloc, decoder, &chunks) {
        Ok(image) => Ok(image.dimensions() == (1, 996_006)),
        Err(error) => Err(error),
    }
}

impl<'a> Session<'a> {
    /// Feeds the chunks and finishes. If a feed fails, the session must stay failed.
    pub fn draw(self, chunks: &[&[u8]]) -> Result<SixelImage> {
        let mut session = self;
        for chunk in chunks {
            if let Err(error) = session.feed(chunk) {
                if session.retry() {
                    return Err(error);
                }
                return Err(SixelError::InvalidData("a failed session went on"));
            }
        }
        session.finish()
    }

    /// Feeds the chunks and aborts. Returns whether they succeed and draw nothing.
    pub fn abort_after(self, chunks: &[&[u8]]) -> bool {
        let mut session = self;
        let mut is_right = true;
        for chunk in chunks {
            is_right &= session.feed(chunk).is_ok() & (session.writes() == 0);
        }
        match session {
            Session::Payload(session) => session.abort(),
            Session::Dcs(session) => session.abort(),
        }
        is_right
    }

    /// Feeds and finishes a failed session. Returns whether each call returns that it has failed.
    fn retry(self) -> bool {
        let mut session = self;
        let failure = session.failure();
        let mut is_right = session.writes() == 0;
        for chunk in LATER_CHUNKS {
            is_right &= is_error(session.feed(chunk), &failure) & (session.writes() == 0);
        }
        is_right & is_error(session.finish(), &failure)
    }

    /// The error of a failed session.
    fn failure(&self) -> SixelError {
        match self {
            Session::Payload(_) => SixelError::InvalidData("stream decoder has failed"),
            Session::Dcs(_) => SixelError::InvalidData("DCS stream decoder has failed"),
        }
    }

    /// Feeds a chunk. Returns how many of its bytes were consumed.
    fn feed(&mut self, chunk: &[u8]) -> Result<usize> {
        match self {
            Session::Payload(session) => match session.feed(chunk) {
                Ok(fed) => Ok(fed.consumed),
                Err(error) => Err(error),
            },
            Session::Dcs(session) => match session.feed(chunk) {
                Ok(fed) => Ok(fed.consumed),
                Err(error) => Err(error),
            },
        }
    }

    /// Ends the session with its image.
    fn finish(self) -> Result<SixelImage> {
        match self {
            Session::Payload(session) => session.finish(),
            Session::Dcs(session) => session.finish(),
        }
    }

    /// How many pixels the canvas has written.
    fn writes(&self) -> u64 {
        match self {
            Session::Payload(session) => session.canvas_writes(),
            Session::Dcs(session) => session.canvas_writes(),
        }
    }
}

/// Whether a call returned this error.
pub fn is_error<T: Drop>(answer: Result<T>, expected: &SixelError) -> bool {
    match answer {
        Ok(_) => false,
        Err(error) => error == *expected,
    }
}
