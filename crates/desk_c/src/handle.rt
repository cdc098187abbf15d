ghost use Rattle.std.specs.Prelude.{◌≡◌, Option, Some, None, option_map};
ghost use Rattle.c_handle.specs.Owned.{owned_at};
ghost use Rattle.std.specs.Coded.{coded_option};
ghost use Rattle.desk_c.specs.contracts.state.State.{the_row};
ghost use Rattle.desk_c.specs.declared.state.State.{State as StateData};

use crate::state::State;
use c_handle::Held;
use std::alloc::Global;
use std::marker::Model;

/// What C holds: a pointer that says nothing to it. It owns the state behind it.
#[repr(C)]
pub struct Handle {
    at: *mut u8,
    ghost state: { Option StateData } by { coded_option the_row.coded },
}

impl Model for Handle {
    ghost also_owns = { λ h. owned_at the_row h.at h.state };
}

fn hidden(held: Held<State>) -> Handle
    ensures { result.state ≡ held.value }
{
    let Held { at } = held;
    Handle { at: at as *mut u8 }
}

fn shown(handle: Handle) -> Held<State>
    ensures { result.value ≡ handle.state }
{
    let Handle { at } = handle;
    Held {
        at: at as *mut State,
    }
}

pub fn none() -> Handle
    ensures { result.state ≡ None }
{
    hidden(Held::nothing())
}

pub fn kept(state: Box<State>) -> Handle
    ensures { result.state ≡ Some state.value }
{
    hidden(Held::of(state))
}

pub fn taken(alloc: Global, handle: Handle) -> Option<Box<State>>
    ensures { option_map (λ b. b.value) result ≡ handle.state }
{
    shown(handle).into_box(alloc)
}
