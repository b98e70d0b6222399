//! A C program's word for a caller.
ghost use Rattle.std.specs.Prelude.{◌≡◌, Some, None, Option, IsSome};
ghost use Rattle.varisat_calls.specs.Callers as callers;

use crate::slot::Slot;
use std::alloc::Global;
use std::marker::Model;
use std::mem::replace;
use varisat_calls::caller::Caller;

/// One word: the address of what it holds, if it holds anything.
#[repr(C)]
pub struct Handle {
    at: *mut u8,
    pub ghost held: { Option callers.Caller },
}

impl Model for Handle {
    ghost use Rattle.varisat_c.specs.Handles.{handle_owns};

    ghost also_owns = { λ h. handle_owns h.at h.held };
}

impl Handle {
    /// What the slot holds, as a word.
    fn of(slot: Slot<Caller<Global>, Global>) -> Handle
        ensures { result.held ≡ slot.held }
    {
        let Slot { at, alloc: _ } = slot;
        Handle { at: at as *mut u8 }
    }

    /// What the word stands for.
    fn into_slot(self, alloc: Global) -> Slot<Caller<Global>, Global>
        ensures { result.held ≡ self.held }
    {
        let Handle { at } = self;
        Slot {
            at: at as *mut Caller<Global>,
            alloc,
        }
    }

    /// Takes the box out, and leaves it empty.
    pub fn take(&mut self, alloc: Global) -> Box<Caller<Global>>
        requires { IsSome self.old.held }
        ensures value { self.old.held ≡ Some result.value }
        ensures empty { self.new.held ≡ None }
    {
        let full = replace(self, Handle::of(Slot::empty(alloc)));
        full.into_slot(alloc).into_box()
    }

    /// Puts a box into an empty one.
    pub fn put(&mut self, alloc: Global, value: Box<Caller<Global>>)
        requires { self.old.held ≡ None }
        ensures { self.new.held ≡ Some value.value }
    {
        let empty = replace(self, Handle::of(Slot::of(value)));
        let _ = empty.into_slot(alloc).into_allocator();
    }
}
