//! A handle, an `icysixel` of the header, and the calls that create and free its decoder.

ghost use Rattle.std.specs.Prelude.{◌≡◌, ◌≢◌, Some, None, is_some, nat_lt, IfSome, true, cond};
ghost use Rattle.sixel_base.specs.Decoder.{new_decoder};
ghost use Rattle.icy_sixel.specs.Receiver.{idle};
ghost use Rattle.icy_sixel.specs.declared.receiver.received_image.Height.TheVariants.{Bands};
ghost use Rattle.icysixel.specs.declared.state.State.{State};

use crate::code::Code;
use crate::state::State;
use crate::state_pointer::StatePointer;
use std::alloc::Global;
use std::mem;

/// A state, or none.
#[repr(C)]
#[derive(Drop)]
pub struct Handle {
    held: u8,
    pointer: StatePointer,
    ghost agrees: { is_some pointer.state ≡ nat_lt 0 held },
}

impl Handle {
    ghost use Rattle.std.specs.Borrow.{sem};
    ghost use Rattle.icysixel.specs.inside.Lending.{LendsHeld};

    /// Takes the state out, if there is one, and leaves an empty handle.
    pub fn take(&mut self, alloc: Global) -> Option<Box<State>>
        ensures empty { self.new.pointer.state ≡ None }
        ensures some { IfSome result (λ state. self.old.pointer.state ≡ Some state.value) }
        ensures none { result ≡ None → self.old.pointer.state ≡ None }
    {
        if self.held == 0 {
            return None;
        }
        let none = Handle {
            held: 0,
            pointer: StatePointer::none(alloc),
        };
        let Handle { held: _, pointer } = mem::replace(self, none);
        Some(pointer.into_box())
    }

    /// Lends the state, if there is one.
    pub fn state(&mut self) -> Option<&mut State>
        ensures* writes_back { sem 𝓛 (LendsHeld self.entry result) }
        ensures some { IfSome result (λ state. self.old.pointer.state ≡ Some state.now) }
        ensures none { result ≡ None → self.old.pointer.state ≡ None }
    {
        if self.held == 0 {
            return None;
        }
        Some(self.pointer.lend())
    }

    /// Stores a state.
    pub fn put(&mut self, state: Box<State>)
        ensures { self.new.pointer.state ≡ Some state.value }
    {
        *self = Handle {
            held: 1,
            pointer: StatePointer::of(state),
        };
    }
}

/// Creates a decoder, and frees the one before.
#[unsafe(no_mangle)]
pub extern "C" fn icysixel_new(alloc: Global, handle: &mut Handle) -> u32
    ensures codes { result ≢ 0 → result ≡ 8 }
    ensures held { result ≡ 0 → is_some handle.new.pointer.state ≡ true }
    ensures made { (state : State) → handle.new.pointer.state ≡ Some state
        → state.receiver ≡ idle new_decoder }
    ensures no_image { (state : State) → handle.new.pointer.state ≡ Some state
        → state.image ≡ None }
    ensures height { (state : State) → handle.new.pointer.state ≡ Some state
        → state.height ≡ Bands }
    ensures refused { result ≢ 0 → handle.new.pointer.state ≡ None }
{
    icysixel_free(alloc, handle);
    let Some(state) = Box::new(alloc, State::new()).ok() else {
        return Code::OutOfMemory as u32;
    };
    handle.put(state);
    Code::Success as u32
}

/// Frees the decoder and all that it stores.
#[unsafe(no_mangle)]
pub extern "C" fn icysixel_free(alloc: Global, handle: &mut Handle)
    ensures { handle.new.pointer.state ≡ None }
{
    let _freed = handle.take(alloc);
}

/// Returns 1 if the handle is empty, and 0 if it has a decoder.
#[unsafe(no_mangle)]
pub extern "C" fn icysixel_is_empty(handle: &mut Handle) -> u8
    ensures same { handle.new.pointer.state ≡ handle.old.pointer.state }
    ensures value { result ≡ cond (is_some handle.old.pointer.state) 0 1 }
{
    u8::from(handle.held == 0)
}
