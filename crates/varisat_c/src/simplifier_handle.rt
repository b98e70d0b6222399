//! A C program's word for a simplifier.
ghost use Rattle.std.specs.Prelude.{◌≡◌, Some, None, Option, IsSome};
ghost use Rattle.varisat_calls.specs.Simplifiers as simplifiers;

use crate::slot::Slot;
use std::alloc::Global;
use std::marker::Model;
use std::mem::replace;
use varisat_calls::simplifier::Simplifier;

/// One word: the address of what it holds, if it holds anything.
#[repr(C)]
pub struct SimplifierHandle {
    at: *mut u8,
    pub ghost held: { Option simplifiers.Simplifier },
}

impl Model for SimplifierHandle {
    ghost use Rattle.varisat_c.specs.SimplifierHandles.{handle_owns};

    ghost also_owns = { λ h. handle_owns h.at h.held };
}

impl SimplifierHandle {
    /// What the slot holds, as a word.
    fn of(slot: Slot<Simplifier<Global>, Global>) -> SimplifierHandle
        ensures { result.held ≡ slot.held }
    {
        let Slot { at, alloc: _ } = slot;
        SimplifierHandle { at: at as *mut u8 }
    }

    /// What the word stands for.
    fn into_slot(self, alloc: Global) -> Slot<Simplifier<Global>, Global>
        ensures { result.held ≡ self.held }
    {
        let SimplifierHandle { at } = self;
        Slot {
            at: at as *mut Simplifier<Global>,
            alloc,
        }
    }

    /// Takes the box out, and leaves it empty.
    pub fn take(&mut self, alloc: Global) -> Box<Simplifier<Global>>
        requires { IsSome self.old.held }
        ensures value { self.old.held ≡ Some result.value }
        ensures empty { self.new.held ≡ None }
    {
        let full = replace(self, SimplifierHandle::of(Slot::empty(alloc)));
        full.into_slot(alloc).into_box()
    }

    /// Puts a box into an empty one.
    pub fn put(&mut self, alloc: Global, value: Box<Simplifier<Global>>)
        requires { self.old.held ≡ None }
        ensures { self.new.held ≡ Some value.value }
    {
        let empty = replace(self, SimplifierHandle::of(Slot::of(value)));
        let _ = empty.into_slot(alloc).into_allocator();
    }
}
