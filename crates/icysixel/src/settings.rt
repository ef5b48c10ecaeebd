//! The calls that read and set the settings of a decoder.

ghost use Rattle.std.specs.Prelude.{◌≡◌, ◌≢◌, ◌==◌, None, is_some, true, false, not, cond};
ghost use Rattle.sixel_base.specs.Decoder.{with_clip, with_pixel_limit};
ghost use Rattle.icysixel.specs.Changes.{Acts, IsReceiverSet, IsSet, Reads, Writes};
ghost use Rattle.icysixel.specs.Heights.{height_of, is_height, number_of};

use crate::code::Code;
use crate::handle::Handle;
use crate::progress::Size;
use icy_sixel::Height;

/// Returns where images end, as [`icysixel_set_height`] has it.
#[unsafe(no_mangle)]
pub extern "C" fn icysixel_get_height(handle: &mut Handle) -> u8
    ensures { Reads (λ state. number_of state.height)
        handle.old.pointer.state handle.new.pointer.state result }
{
    match handle.state() {
        Some(state) => height_number(state.height),
        None => 0,
    }
}

/// The number of a height.
fn height_number(height: Height) -> u8
    ensures { result ≡ number_of height }
{
    match height {
        Height::Bands => 0,
        Height::Raster => 1,
        Height::Drawn => 2,
    }
}

/// Sets where images end: 0 is the last band, 1 the raster height, 2 both heights.
#[unsafe(no_mangle)]
pub extern "C" fn icysixel_set_height(handle: &mut Handle, height: u8) -> u32
    ensures none { handle.old.pointer.state ≡ None → result ≡ 1 }
    ensures option { is_some handle.old.pointer.state ≡ true → is_height height ≡ false
        → result ≡ 5 }
    ensures set { is_height height ≡ true
        → Acts (λ old new. new ≡ record old { height = height_of height })
        handle.old.pointer.state handle.new.pointer.state }
    ensures done { is_some handle.old.pointer.state ≡ true → is_height height ≡ true → result ≡ 0 }
    ensures same { result ≢ 0 → handle.new.pointer.state ≡ handle.old.pointer.state }
{
    let Some(state) = handle.state() else {
        return Code::NoHandle as u32;
    };
    let height = match height {
        0 => Height::Bands,
        1 => Height::Raster,
        2 => Height::Drawn,
        _ => return Code::BadOption as u32,
    };
    state.height = height;
    Code::Success as u32
}

/// Returns 1 if images are lenient, and 0 if not.
#[unsafe(no_mangle)]
pub extern "C" fn icysixel_get_lenient(handle: &mut Handle) -> u8
    ensures { Reads (λ state. cond state.receiver.lenient 1 0)
        handle.old.pointer.state handle.new.pointer.state result }
{
    match handle.state() {
        Some(state) => u8::from(state.receiver.is_lenient()),
        None => 0,
    }
}

/// Sets whether images are lenient: 0 is off, any other number is on.
#[unsafe(no_mangle)]
pub extern "C" fn icysixel_set_lenient(handle: &mut Handle, on: u8)
    ensures { IsReceiverSet (λ receiver. record receiver { lenient = not (on == 0) })
        handle.old.pointer.state handle.new.pointer.state }
{
    if let Some(state) = handle.state() {
        state.receiver.set_lenient(on != 0);
    }
}

/// Returns 1 if images have a transparent background whatever P2 says, and 0 if not.
#[unsafe(no_mangle)]
pub extern "C" fn icysixel_get_transparent(handle: &mut Handle) -> u8
    ensures { Reads (λ state. cond state.receiver.transparent 1 0)
        handle.old.pointer.state handle.new.pointer.state result }
{
    match handle.state() {
        Some(state) => u8::from(state.receiver.is_transparent()),
        None => 0,
    }
}

/// Sets whether images have a transparent background: 0 is off, any other number is on.
#[unsafe(no_mangle)]
pub extern "C" fn icysixel_set_transparent(handle: &mut Handle, on: u8)
    ensures { IsReceiverSet (λ receiver. record receiver { transparent = not (on == 0) })
        handle.old.pointer.state handle.new.pointer.state }
{
    if let Some(state) = handle.state() {
        state.receiver.set_transparent(on != 0);
    }
}

/// Returns the register in which an image draws until it selects one.
#[unsafe(no_mangle)]
pub extern "C" fn icysixel_get_first_register(handle: &mut Handle) -> u8
    ensures { Reads (λ state. state.receiver.first_register)
        handle.old.pointer.state handle.new.pointer.state result }
{
    match handle.state() {
        Some(state) => state.receiver.first_register(),
        None => 0,
    }
}

/// Sets the register in which an image draws until it selects one.
#[unsafe(no_mangle)]
pub extern "C" fn icysixel_set_first_register(handle: &mut Handle, register: u8)
    ensures { IsReceiverSet (λ receiver. record receiver { first_register = register })
        handle.old.pointer.state handle.new.pointer.state }
{
    if let Some(state) = handle.state() {
        state.receiver.set_first_register(register);
    }
}

/// Returns how many pixels an image can have, or 0 if the handle is empty.
#[unsafe(no_mangle)]
pub extern "C" fn icysixel_get_limit(handle: &mut Handle) -> usize
    ensures { Reads (λ state. state.receiver.decoder.pixel_limit.pixels)
        handle.old.pointer.state handle.new.pointer.state result }
{
    match handle.state() {
        Some(state) => state.receiver.decoder().pixel_limit(),
        None => 0,
    }
}

/// Sets how many pixels an image can have: at least 1, and at most 67,108,864.
#[unsafe(no_mangle)]
pub extern "C" fn icysixel_set_limit(handle: &mut Handle, pixels: usize)
    ensures { IsSet (λ decoder. with_pixel_limit decoder pixels)
        handle.old.pointer.state handle.new.pointer.state }
{
    if let Some(state) = handle.state() {
        state.receiver.decoder_mut().set_pixel_limit(pixels);
    }
}

/// Writes how many columns from the left and rows from the top an image can have.
#[unsafe(no_mangle)]
pub extern "C" fn icysixel_get_clip(handle: &mut Handle, clip: &mut Size) -> u32
    ensures { Writes (λ state written.
        (written.width ≡ state.receiver.decoder.pixel_limit.columns)
        × (written.height ≡ state.receiver.decoder.pixel_limit.rows))
        handle.old.pointer.state handle.new.pointer.state clip.old clip.new result }
{
    let Some(state) = handle.state() else {
        return Code::NoHandle as u32;
    };
    let (width, height) = state.receiver.decoder().clip();
    *clip = Size { width, height };
    Code::Success as u32
}

/// Sets how many columns from the left and rows from the top an image can have.
///
/// Each is at least 1, and at most 1,000,000.
#[unsafe(no_mangle)]
pub extern "C" fn icysixel_set_clip(handle: &mut Handle, width: usize, height: usize)
    ensures { IsSet (λ decoder. with_clip decoder width height)
        handle.old.pointer.state handle.new.pointer.state }
{
    if let Some(state) = handle.state() {
        state.receiver.decoder_mut().set_clip(width, height);
    }
}
