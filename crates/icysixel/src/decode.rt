//! The calls that decode in one call.

ghost use Rattle.std.specs.Prelude.{◌≡◌, ◌≢◌, None};
ghost use Rattle.sixel_base.specs.OneShot.{Payload, found};
ghost use Rattle.icysixel.specs.{Changes.Acts, Code.settings_of, Finish.IsDecoded};

use crate::code::Code;
use crate::handle::Handle;
use crate::shape::Shape;
use crate::stream::dcs_settings;
use std::alloc::Global;

/// Decodes the first DCS sequence in the bytes, or all of them as a payload.
///
/// It stores the image and writes its properties. An open image is aborted.
#[unsafe(no_mangle)]
pub extern "C" fn icysixel_decode(
    alloc: Global,
    handle: &mut Handle,
    bytes: &[u8],
    shape: &mut Shape,
) -> u32
    ensures none { handle.old.pointer.state ≡ None → result ≡ 1 }
    ensures decoded { Acts (λ before after.
        IsDecoded before after (found bytes.now) shape.new result)
        handle.old.pointer.state handle.new.pointer.state }
    ensures told { result ≢ 0 → shape.new ≡ shape.old }
{
    let Some(state) = handle.state() else {
        return Code::NoHandle as u32;
    };
    let answer = state.receiver.decode_drawn(alloc, bytes);
    state.store(answer, true, shape)
}

/// Decodes one payload with these parameters, as [`icysixel_decode`] does.
#[unsafe(no_mangle)]
pub extern "C" fn icysixel_decode_payload(
    alloc: Global,
    handle: &mut Handle,
    bytes: &[u8],
    p1: i32,
    p2: i32,
    shape: &mut Shape,
) -> u32
    ensures none { handle.old.pointer.state ≡ None → result ≡ 1 }
    ensures decoded { Acts (λ before after.
        IsDecoded before after (Payload (settings_of p1 p2) bytes.now) shape.new result)
        handle.old.pointer.state handle.new.pointer.state }
    ensures told { result ≢ 0 → shape.new ≡ shape.old }
{
    let Some(state) = handle.state() else {
        return Code::NoHandle as u32;
    };
    let answer = state
        .receiver
        .decode_from_dcs_drawn(alloc, bytes, dcs_settings(p1, p2));
    state.store(answer, true, shape)
}
