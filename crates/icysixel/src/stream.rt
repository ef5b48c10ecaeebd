//! The calls that begin, feed, finish and abort an image.

ghost use Rattle.std.specs.Prelude.{◌≡◌, ◌≢◌, Some, None, false};
ghost use Rattle.icy_sixel.specs.Receiver.{OfPayload, OfString, begun, is_open, no_image, start_of};
ghost use Rattle.icysixel.specs.{Changes.{Acts, IsOpened}, Code.{given, settings_of}};
ghost use Rattle.icysixel.specs.{Feed.{IsBandFed, IsFed, fed_of}, Finish.IsFinished};
ghost use Rattle.icysixel.specs.declared.state.State.{State};

use crate::code::{Code, FeedStatus, code_of, status_byte, status_code};
use crate::handle::Handle;
use crate::shape::Shape;
use crate::state::State;
use icy_sixel::receiver::band_len;
use icy_sixel::{DcsSettings, FailedFeed, Received};
use std::alloc::Global;

/// The result of a feed: `icysixel_fed` of the header.
///
/// It has the number of bytes consumed, the status and the control byte that ended the image.
#[repr(C)]
#[derive(Clone, Copy)]
pub struct Fed {
    pub consumed: usize,
    pub status: u32,
    pub byte: u8,
}

impl Fed {
    /// The result of a receiver's feed.
    fn of(received: Received) -> Fed
        ensures { result ≡ fed_of received }
    {
        Fed {
            consumed: received.consumed,
            status: status_code(received.status),
            byte: status_byte(received.status),
        }
    }
}

/// Opens a DCS sequence. An open image is aborted.
#[unsafe(no_mangle)]
pub extern "C" fn icysixel_begin_dcs(alloc: Global, handle: &mut Handle)
    ensures { IsOpened (λ receiver. begun OfString (start_of receiver))
        handle.old.pointer.state handle.new.pointer.state }
{
    if let Some(state) = handle.state() {
        state.receiver.begin_dcs(alloc);
    }
}

/// Opens a payload with these parameters. An open image is aborted.
#[unsafe(no_mangle)]
pub extern "C" fn icysixel_begin_payload(alloc: Global, handle: &mut Handle, p1: i32, p2: i32)
    ensures { IsOpened (λ receiver. begun (OfPayload (settings_of p1 p2)) (start_of receiver))
        handle.old.pointer.state handle.new.pointer.state }
{
    if let Some(state) = handle.state() {
        let settings = dcs_settings(p1, p2);
        state.receiver.begin_frame(alloc, settings);
    }
}

/// The settings of P1 and P2 as C passes them, without P3.
///
/// A number outside of 0 to 65535 means an absent one.
pub fn dcs_settings(p1: i32, p2: i32) -> DcsSettings
    ensures { result ≡ settings_of p1 p2 }
{
    DcsSettings::new(given(p1), given(p2), None)
}

/// The parameter of a number, or `None` for an absent one.
fn given(number: i32) -> Option<u16>
    ensures { result ≡ given number }
{
    if number < 0 || number > 65535 {
        None
    } else {
        Some(number as u16)
    }
}

/// Reads a chunk of the open image and writes the result, also with an error.
#[unsafe(no_mangle)]
pub extern "C" fn icysixel_feed(handle: &mut Handle, piece: &[u8], fed: &mut Fed) -> u32
    ensures none { handle.old.pointer.state ≡ None → result ≡ 1 }
    ensures fed { Acts (λ before after. IsFed before after piece.now fed.new result)
        handle.old.pointer.state handle.new.pointer.state }
    ensures empty { handle.old.pointer.state ≡ None → fed.new ≡ fed.old }
    ensures told { (before : State) → handle.old.pointer.state ≡ Some before
        → is_open before.receiver.image.form ≡ false → fed.new ≡ fed.old }
{
    let Some(state) = handle.state() else {
        return Code::NoHandle as u32;
    };
    feed(state, piece, fed)
}

/// Reads a chunk of the open image up to its first graphics new line.
///
/// It writes the result as [`icysixel_feed`] does, with a status of its own if rows became final.
#[unsafe(no_mangle)]
pub extern "C" fn icysixel_feed_band(handle: &mut Handle, piece: &[u8], fed: &mut Fed) -> u32
    ensures none { handle.old.pointer.state ≡ None → result ≡ 1 }
    ensures fed { Acts (λ before after. IsBandFed before after piece.now fed.new result)
        handle.old.pointer.state handle.new.pointer.state }
    ensures empty { handle.old.pointer.state ≡ None → fed.new ≡ fed.old }
    ensures told { (before : State) → handle.old.pointer.state ≡ Some before
        → is_open before.receiver.image.form ≡ false → fed.new ≡ fed.old }
{
    let Some(state) = handle.state() else {
        return Code::NoHandle as u32;
    };
    feed_band(state, piece, fed)
}

/// Reads a chunk of the image, if one is open, up to its first graphics new line.
fn feed_band(state: &mut State, piece: &[u8], fed: &mut Fed) -> u32
    ensures fed { IsBandFed state.old state.new piece.now fed.new result }
    ensures told { is_open state.old.receiver.image.form ≡ false → fed.new ≡ fed.old }
{
    let before = state.receiver.rows_so_far();
    let code = feed(state, &piece[..band_len(piece)], fed);
    let goes_on = code == Code::Success as u32 && fed.status == FeedStatus::More as u32;
    if goes_on && before < state.receiver.rows_so_far() {
        fed.status = FeedStatus::Rows as u32;
    }
    code
}

/// Reads a chunk of the image, and writes the result if one is open.
fn feed(state: &mut State, piece: &[u8], fed: &mut Fed) -> u32
    ensures fed { IsFed state.old state.new piece.now fed.new result }
    ensures told { is_open state.old.receiver.image.form ≡ false → fed.new ≡ fed.old }
{
    if piece.len() == 1
        && let Some(received) = state.receiver.try_byte(piece[0])
    {
        *fed = Fed::of(received);
        return Code::Success as u32;
    }
    feed_chunk(state, piece, fed)
}

/// Reads a chunk of any bytes.
///
/// Out of line: inlined, a single byte saves and restores registers.
#[inline(never)]
fn feed_chunk(state: &mut State, piece: &[u8], fed: &mut Fed) -> u32
    ensures fed { IsFed state.old state.new piece.now fed.new result }
    ensures told { is_open state.old.receiver.image.form ≡ false → fed.new ≡ fed.old }
{
    if !state.receiver.is_receiving() {
        return Code::NoSession as u32;
    }
    match state.receiver.feed(piece) {
        Ok(received) => {
            *fed = Fed::of(received);
            Code::Success as u32
        }
        Err(
            FailedFeed {
                consumed,
                status,
                error,
            },
        ) => {
            *fed = Fed::of(Received { consumed, status });
            code_of(&error)
        }
    }
}

/// Closes the open image, stores the rows that are left and writes its properties.
#[unsafe(no_mangle)]
pub extern "C" fn icysixel_finish(handle: &mut Handle, shape: &mut Shape) -> u32
    ensures none { handle.old.pointer.state ≡ None → result ≡ 1 }
    ensures finished { Acts (λ before after. IsFinished before after shape.new result)
        handle.old.pointer.state handle.new.pointer.state }
    ensures commanded { result ≢ 16 }
    ensures told { result ≢ 0 → shape.new ≡ shape.old }
{
    let Some(state) = handle.state() else {
        return Code::NoHandle as u32;
    };
    finish(state, shape)
}

/// Closes the image, if one is open, and replaces the stored one by it.
fn finish(state: &mut State, shape: &mut Shape) -> u32
    ensures finished { IsFinished state.old state.new shape.new result }
    ensures told { result ≢ 0 → shape.new ≡ shape.old }
{
    state.image = None;
    if !state.receiver.is_receiving() {
        state.receiver.abort();
        return Code::NoSession as u32;
    }
    let is_complete = state.receiver.has_ended();
    let answer = state.receiver.finish();
    state.store(answer, is_complete, shape)
}

/// Aborts the open image, if there is one.
#[unsafe(no_mangle)]
pub extern "C" fn icysixel_abort(handle: &mut Handle)
    ensures { IsOpened (λ _. no_image) handle.old.pointer.state handle.new.pointer.state }
{
    if let Some(state) = handle.state() {
        state.receiver.abort();
    }
}
