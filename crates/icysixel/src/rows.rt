//! The calls on final rows of the open image.

ghost use Rattle.std.specs.Prelude.{◌≡◌, ◌≢◌, Some, None, is_some, true, false};
ghost use Rattle.icy_sixel.specs.ReceivedRows.{rows_so_far};
ghost use Rattle.icysixel.specs.{Changes.{Acts, Reads}, RowCopies.{AreRowsCopied, AreRowsReleased}};
ghost use Rattle.icysixel.specs.{RowCopies.is_order, declared.state.State.State};

use crate::code::Code;
use crate::handle::Handle;
use crate::layout::{Layout, is_order, rows_code};
use crate::state::State;
use icy_sixel::RowLayout;

/// Returns how many rows from the top of the open image are final, or 0.
#[unsafe(no_mangle)]
pub extern "C" fn icysixel_get_rows_so_far(handle: &mut Handle) -> usize
    ensures { Reads (λ state. rows_so_far state.receiver.image)
        handle.old.pointer.state handle.new.pointer.state result }
{
    match handle.state() {
        Some(state) => state.receiver.rows_so_far(),
        None => 0,
    }
}

/// Copies final rows of the open image to the buffer.
#[unsafe(no_mangle)]
pub extern "C" fn icysixel_copy_rows(
    handle: &mut Handle,
    first: usize,
    rows: usize,
    layout: &Layout,
    buf: &mut [u8],
) -> u32
    ensures same { handle.new.pointer.state ≡ handle.old.pointer.state }
    ensures none { handle.old.pointer.state ≡ None → result ≡ 1 }
    ensures option { is_some handle.old.pointer.state ≡ true → is_order layout.now.order ≡ false
        → result ≡ 5 }
    ensures copied { (state : State) → handle.old.pointer.state ≡ Some state
        → is_order layout.now.order ≡ true
        → AreRowsCopied state first rows layout.now buf.old buf.new result }
    ensures untouched { result ≢ 0 → buf.new ≡ buf.old }
{
    let Some(state) = handle.state() else {
        return Code::NoHandle as u32;
    };
    if !is_order(layout.order) {
        return Code::BadOption as u32;
    }
    copy_rows(state, first, rows, layout, buf)
}

/// Copies final rows of the image, if one is open.
fn copy_rows(state: &State, first: usize, rows: usize, layout: &Layout, buf: &mut [u8]) -> u32
    ensures copied { AreRowsCopied state.now first rows layout.now buf.old buf.new result }
    ensures untouched { result ≢ 0 → buf.new ≡ buf.old }
{
    if !state.receiver.is_receiving() {
        return Code::NoSession as u32;
    }
    let (width, _) = state.receiver.size_so_far().unwrap_or((0, 0));
    match state
        .receiver
        .copy_rows(first, rows, layout.row_layout(width), buf)
    {
        Ok(()) => Code::Success as u32,
        Err(error) => rows_code(&error),
    }
}

/// Releases the final rows above row `rows` of the open image.
#[unsafe(no_mangle)]
pub extern "C" fn icysixel_release_rows(handle: &mut Handle, rows: usize) -> u32
    ensures none { handle.old.pointer.state ≡ None → result ≡ 1 }
    ensures released { Acts (λ before after. AreRowsReleased before after rows result)
        handle.old.pointer.state handle.new.pointer.state }
{
    let Some(state) = handle.state() else {
        return Code::NoHandle as u32;
    };
    if !state.receiver.is_receiving() {
        return Code::NoSession as u32;
    }
    match state.receiver.release_rows(rows) {
        Ok(()) => Code::Success as u32,
        Err(error) => rows_code(&error),
    }
}
