//! DCS sequences and payloads in chunks.

use icy_sixel::{DcsSettings, Result, SixelDecoder, SixelImage};
use std::alloc::Global;

/// Decodes a DCS sequence in two chunks. The second has bytes after its end.
pub fn decode_chunks(alloc: Global) -> Result<SixelImage> {
    let mut decoder = SixelDecoder::new();
    let mut session = decoder.begin_dcs(alloc);
    // A chunk can end anywhere, also inside a number.
    session.feed(b"\x1bP9;1q#1;2;100;0;0!1")?;
    // 4 bytes are consumed, and the status is Complete: the rest is left.
    session.feed(b"2~\x1b\\the terminal's own")?;
    // 12x6 pixels, all red. The decoder now has register 1.
    session.finish()
}

/// Decodes a payload in two chunks, after the caller has read the header.
pub fn decode_payload_chunks(alloc: Global, decoder: &mut SixelDecoder) -> Result<SixelImage> {
    let mut session = decoder.begin_frame(alloc, DcsSettings::default())?;
    session.feed(b"#1!1")?;
    // 2 bytes are consumed, and the status is Terminated(0x1b): the terminator is left.
    session.feed(b"2~\x1b\\")?;
    session.finish()
}
