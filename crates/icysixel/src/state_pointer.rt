//! A pointer to a state, or none: the member `state` of an `icysixel`.

ghost use Rattle.std.specs.Prelude.{◌≡◌, Option, Some, None, is_some, true};
ghost use Rattle.icysixel.specs.declared.state.State.{State};
ghost use Rattle.icysixel.specs.inside.StatePointer.{state_coded, pointer_owns};

mod box_parts;

use crate::state::State;
use box_parts::BoxParts;
use std::alloc::Global;
use std::marker::Model;
use std::ptr::null_mut;

/// A pointer to a state and the ownership of it, or a pointer without meaning.
#[repr(C)]
#[derive(Drop)]
pub struct StatePointer {
    at: *mut u8,
    alloc: Global,
    pub ghost state: { Option State } by { state_coded },
}

impl Model for StatePointer {
    ghost also_owns = { λ p. pointer_owns p.alloc p.at p.state };
}

impl StatePointer {
    ghost use Rattle.std.specs.Borrow.{sem};
    ghost use Rattle.icysixel.specs.inside.Lending.{LendsState};

    /// A pointer to no state.
    pub fn none(alloc: Global) -> StatePointer
        ensures { result.state ≡ None }
    {
        let at = null_mut();
        StatePointer { at, alloc }
    }

    /// A pointer to the state in a box.
    pub fn of(state: Box<State>) -> StatePointer
        ensures { result.state ≡ Some state.value }
    {
        StatePointer::of_parts(BoxParts::of(state))
    }

    /// The state in a box.
    pub fn into_box(self) -> Box<State>
        requires { is_some self.state ≡ true }
        ensures { self.state ≡ Some result.value }
    {
        self.into_parts().into_box()
    }

    /// Lends the state.
    pub fn lend(&mut self) -> &mut State
        requires { is_some self.old.state ≡ true }
        ensures* writes_back { sem 𝓛 (LendsState self.entry result) }
        ensures value { self.old.state ≡ Some result.now }
    {
        let at = self.at as *mut State;
        unsafe { &mut *at }
    }

    fn of_parts(parts: BoxParts<State, Global>) -> StatePointer
        ensures { result.state ≡ Some parts.value }
    {
        let BoxParts { ptr, alloc } = parts;
        let at = ptr as *mut u8;
        StatePointer { at, alloc }
    }

    fn into_parts(self) -> BoxParts<State, Global>
        requires { is_some self.state ≡ true }
        ensures { self.state ≡ Some result.value }
    {
        let StatePointer { at, alloc } = self;
        let ptr = at as *mut State;
        BoxParts { ptr, alloc }
    }
}
