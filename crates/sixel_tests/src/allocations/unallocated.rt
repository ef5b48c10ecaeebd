//! The calls that return a `Result` and do not allocate.

use crate::allocations::picture::{color_of, has_colors};
use crate::allocations::session::{Session, draw_payload, is_error};
use icy_sixel::{DcsSettings, Result, SixelDecoder, SixelError, SixelImage};
use std::alloc::Global;

/// Makes the calls. Returns whether none is out of memory, and all are right.
pub fn make_unallocated_calls(alloc: Global, decoder: &mut SixelDecoder) -> bool {
    let is_cloned = match decoder.clone() {
        Ok(clone) => has_colors(&clone, color_of(42)),
        Err(_) => false,
    };
    is_cloned & run_sessions(alloc, decoder) & are_sizes_rejected(alloc)
}

/// Runs sessions that draw nothing or are rejected. Returns whether their results are right.
fn run_sessions(alloc: Global, decoder: &mut SixelDecoder) -> bool {
    let is_right = match decoder.begin_frame(alloc, DcsSettings::default()) {
        Ok(session) => Session::Payload(session).abort_after(&[b"#42;2;9;9;9!12", b"\x18~", b"~"]),
        Err(_) => false,
    };
    let session = Session::Dcs(decoder.begin_dcs(alloc));
    let is_dcs_right = session.abort_after(&[b"\x1bPq#42;2;9;9;9!12", b"\x18~", b"\x1bPq~"]);
    let payload = draw_payload(alloc, decoder, &[b"!65536~"]);
    let dcs = Session::Dcs(decoder.begin_dcs(alloc)).draw(&[b"text"]);
    is_right
        & is_dcs_right
        & is_error(payload, &SixelError::InvalidData("malformed SIXEL data"))
        & is_error(dcs, &SixelError::NoSixelData)
        & has_colors(decoder, color_of(42))
}

/// Whether wrong sizes are rejected.
fn are_sizes_rejected(alloc: Global) -> bool {
    is_rejected(SixelImage::try_from_rgba(Vec::new(alloc), 0, 4))
        & is_rejected(SixelImage::try_from_rgba(Vec::new(alloc), 2, 2))
}

/// Whether a call returned an error other than `OutOfMemory`.
fn is_rejected<T: Drop>(answer: Result<T>) -> bool {
    match answer {
        Ok(_) | Err(SixelError::OutOfMemory) => false,
        Err(_) => true,
    }
}
