//! The calls that report the progress of the open image.

ghost use Rattle.std.specs.Prelude.{◌≡◌, ◌≢◌, Some, None, ℕ, true, false, cond, if◌then◌else◌};
ghost use Rattle.icysixel.specs.{Changes.Reads, declared.state.State.State};
ghost use Rattle.icy_sixel.specs.Receiver.{drawn_height, in_payload, is_open, size as size_of};

use crate::code::Code;
use crate::handle::Handle;

/// A size in pixels.
#[repr(C)]
#[derive(Clone, Copy)]
pub struct Size {
    pub width: usize,
    pub height: usize,
}

/// Returns 1 if an image is open, and 0 if not.
#[unsafe(no_mangle)]
pub extern "C" fn icysixel_is_receiving(handle: &mut Handle) -> u8
    ensures { Reads (λ state. cond (is_open state.receiver.image.form) 1 0)
        handle.old.pointer.state handle.new.pointer.state result }
{
    match handle.state() {
        Some(state) => u8::from(state.receiver.is_receiving()),
        None => 0,
    }
}

/// Returns 1 if the payload of the open image has begun and no feed has failed.
#[unsafe(no_mangle)]
pub extern "C" fn icysixel_in_payload(handle: &mut Handle) -> u8
    ensures { Reads (λ state. if state.receiver.image.is_refused then 0
        else cond (in_payload state.receiver.image.form state.receiver.image.bytes) 1 0)
        handle.old.pointer.state handle.new.pointer.state result }
{
    match handle.state() {
        Some(state) => u8::from(state.receiver.in_payload()),
        None => 0,
    }
}

/// Returns the last row of the open image with a set pixel, plus one, or 0.
#[unsafe(no_mangle)]
pub extern "C" fn icysixel_get_drawn_height(handle: &mut Handle) -> usize
    ensures { Reads (λ state. if state.receiver.image.is_refused then 0
        else drawn_height state.receiver.image.start.pixel_limit
        state.receiver.image.form state.receiver.image.bytes)
        handle.old.pointer.state handle.new.pointer.state result }
{
    match handle.state() {
        Some(state) => state.receiver.drawn_height(),
        None => 0,
    }
}

/// Writes the size of the open image so far.
#[unsafe(no_mangle)]
pub extern "C" fn icysixel_get_size_so_far(handle: &mut Handle, size: &mut Size) -> u32
    ensures same { handle.new.pointer.state ≡ handle.old.pointer.state }
    ensures none { handle.old.pointer.state ≡ None → result ≡ 1 }
    ensures closed { (state : State) → handle.old.pointer.state ≡ Some state
        → is_open state.receiver.image.form ≡ false → result ≡ 2 }
    ensures refused { (state : State) → handle.old.pointer.state ≡ Some state
        → is_open state.receiver.image.form ≡ true → state.receiver.image.is_refused ≡ true
        → result ≡ 3 }
    ensures no_size { (state : State) → handle.old.pointer.state ≡ Some state
        → is_open state.receiver.image.form ≡ true → state.receiver.image.is_refused ≡ false
        → size_of state.receiver.image.start.pixel_limit
        state.receiver.image.form state.receiver.image.bytes ≡ None → result ≡ 3 }
    ensures size { (state : State) (width height : ℕ) → handle.old.pointer.state ≡ Some state
        → is_open state.receiver.image.form ≡ true → state.receiver.image.is_refused ≡ false
        → size_of state.receiver.image.start.pixel_limit
        state.receiver.image.form state.receiver.image.bytes ≡ Some (width, height)
        → (result ≡ 0) × (size.new ≡ record { width = width; height = height }) }
    ensures told { result ≢ 0 → size.new ≡ size.old }
{
    let Some(state) = handle.state() else {
        return Code::NoHandle as u32;
    };
    if !state.receiver.is_receiving() {
        return Code::NoSession as u32;
    }
    match state.receiver.size_so_far() {
        Some((width, height)) => {
            *size = Size { width, height };
            Code::Success as u32
        }
        None => Code::NoSize as u32,
    }
}
