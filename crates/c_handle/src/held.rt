ghost use Rattle.std.specs.Prelude.{◌≡◌, Option, Some, None, option_map};
ghost use Rattle.c_handle.specs.Owned.{owned_at};

use crate::loose::Loose;
use std::alloc::Global;
use std::marker::Model;
use std::ptr::null_mut;

/// The value of a box behind a pointer, or nothing, which is null.
/// It has no drop, so the value is not lost: whoever has one takes the box back.
pub struct Held<T> {
    pub at: *mut T,
    pub ghost value: { Option T },
}

impl<T> Model for Held<T> {
    ghost also_owns = { λ h. owned_at T.row h.at h.value };
}

impl<T> Held<T> {
    /// Nothing.
    pub fn nothing() -> Held<T>
        ensures { result.value ≡ None }
    {
        Held { at: null_mut() }
    }

    fn of_loose(loose: Loose<T, Global>) -> Held<T>
        ensures { result.value ≡ Some loose.value }
    {
        let Loose { at, alloc: _ } = loose;
        Held { at }
    }

    fn into_loose(self, alloc: Global) -> Option<Loose<T, Global>>
        ensures { option_map (λ l. l.value) result ≡ self.value }
    {
        let Held { at } = self;
        if at.is_null() {
            None
        } else {
            Some(Loose { at, alloc })
        }
    }
}

impl<T: Drop> Held<T> {
    /// The value of the box.
    pub fn of(value: Box<T>) -> Held<T>
        ensures { result.value ≡ Some value.value }
    {
        Held::of_loose(Loose::of(value))
    }

    /// The box again; `None` where nothing is held.
    pub fn into_box(self, alloc: Global) -> Option<Box<T>>
        ensures { option_map (λ b. b.value) result ≡ self.value }
    {
        match self.into_loose(alloc) {
            None => None,
            Some(loose) => Some(loose.into_box()),
        }
    }
}
