//! The calls that copy, transfer and free the pixels of the stored image.

ghost use Rattle.std.specs.Prelude.{◌≡◌, ◌≢◌, ◌≤◌, Some, None, is_some, true, false, []};
ghost use Rattle.icysixel.specs.{Blocks.IsNoBlock, Changes.Acts, RowCopies.ArePixelsCopied};
ghost use Rattle.icysixel.specs.{RowCopies.{ArePixelsTaken, is_order}, declared.state.State.State};

use crate::bytes::Bytes;
use crate::code::Code;
use crate::handle::Handle;
use crate::layout::{Layout, channel_order, is_order, rows_code};
use std::alloc::Global;

/// Copies rows of the stored image to the buffer.
#[unsafe(no_mangle)]
pub extern "C" fn icysixel_copy_pixels(
    handle: &mut Handle,
    first: usize,
    rows: usize,
    layout: &Layout,
    buf: &mut [u8],
) -> u32
    ensures same { handle.new.pointer.state ≡ handle.old.pointer.state }
    ensures none { handle.old.pointer.state ≡ None → result ≡ 1 }
    ensures option { is_some handle.old.pointer.state ≡ true → is_order layout.now.order ≡ false
        → result ≡ 5 }
    ensures copied { (state : State) → handle.old.pointer.state ≡ Some state
        → is_order layout.now.order ≡ true
        → ArePixelsCopied state first rows layout.now buf.old buf.new result }
    ensures untouched { result ≢ 0 → buf.new ≡ buf.old }
{
    let Some(state) = handle.state() else {
        return Code::NoHandle as u32;
    };
    if !is_order(layout.order) {
        return Code::BadOption as u32;
    }
    let Some(image) = &state.image else {
        return Code::NoImage as u32;
    };
    match image.copy_rows(first, rows, layout.row_layout(image.width), buf) {
        Ok(()) => Code::Success as u32,
        Err(error) => rows_code(&error),
    }
}

/// Transfers the block of the stored pixels to the caller, in this order of channels.
#[unsafe(no_mangle)]
pub extern "C" fn icysixel_take_pixels(
    alloc: Global,
    handle: &mut Handle,
    order: u8,
    bytes: &mut Bytes,
) -> u32
    ensures none { handle.old.pointer.state ≡ None → result ≡ 1 }
    ensures option { is_some handle.old.pointer.state ≡ true → is_order order ≡ false → result ≡ 5 }
    ensures taken { is_order order ≡ true → Acts (λ before after.
        ArePixelsTaken before after order bytes.new.items result)
        handle.old.pointer.state handle.new.pointer.state }
    ensures capacity { bytes.new.len ≤ bytes.new.capacity }
    ensures empty { result ≡ 0 → bytes.new.items ≡ []
        → IsNoBlock bytes.new.at bytes.new.len bytes.new.capacity }
    ensures unwritten { result ≢ 0 → bytes.new ≡ bytes.old }
    ensures same { result ≢ 0 → handle.new.pointer.state ≡ handle.old.pointer.state }
{
    let Some(state) = handle.state() else {
        return Code::NoHandle as u32;
    };
    if !is_order(order) {
        return Code::BadOption as u32;
    }
    let Some(image) = state.image.take() else {
        return Code::NoImage as u32;
    };
    *bytes = Bytes::of(alloc, image.into_pixels(channel_order(order)));
    Code::Success as u32
}

/// Frees the stored image.
#[unsafe(no_mangle)]
pub extern "C" fn icysixel_discard_image(handle: &mut Handle)
    ensures { Acts (λ old new.
        (new.image ≡ None) × ((new.receiver ≡ old.receiver) × (new.height ≡ old.height)))
        handle.old.pointer.state handle.new.pointer.state }
{
    if let Some(state) = handle.state() {
        state.image = None;
    }
}
