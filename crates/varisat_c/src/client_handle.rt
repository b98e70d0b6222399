//! A C program's word for a client.
ghost use Rattle.std.specs.Prelude.{◌≡◌, Some, None, Option, IsSome};
ghost use Rattle.varisat_client.specs.inside.Clients as clients;

use crate::slot::Slot;
use std::alloc::Global;
use std::marker::Model;
use std::mem::replace;
use varisat_client::client::Client;

/// One word: the address of what it holds, if it holds anything.
#[repr(C)]
pub struct ClientHandle {
    at: *mut u8,
    pub ghost held: { Option clients.Client },
}

impl Model for ClientHandle {
    ghost use Rattle.varisat_c.specs.ClientHandles.{handle_owns};

    ghost also_owns = { λ h. handle_owns h.at h.held };
}

impl ClientHandle {
    /// What the slot holds, as a word.
    fn of(slot: Slot<Client<Global>, Global>) -> ClientHandle
        ensures { result.held ≡ slot.held }
    {
        let Slot { at, alloc: _ } = slot;
        ClientHandle { at: at as *mut u8 }
    }

    /// What the word stands for.
    fn into_slot(self, alloc: Global) -> Slot<Client<Global>, Global>
        ensures { result.held ≡ self.held }
    {
        let ClientHandle { at } = self;
        Slot {
            at: at as *mut Client<Global>,
            alloc,
        }
    }

    /// Takes the box out, and leaves it empty.
    pub fn take(&mut self, alloc: Global) -> Box<Client<Global>>
        requires { IsSome self.old.held }
        ensures value { self.old.held ≡ Some result.value }
        ensures empty { self.new.held ≡ None }
    {
        let full = replace(self, ClientHandle::of(Slot::empty(alloc)));
        full.into_slot(alloc).into_box()
    }

    /// Puts a box into an empty one.
    pub fn put(&mut self, alloc: Global, value: Box<Client<Global>>)
        requires { self.old.held ≡ None }
        ensures { self.new.held ≡ Some value.value }
    {
        let empty = replace(self, ClientHandle::of(Slot::of(value)));
        let _ = empty.into_slot(alloc).into_allocator();
    }
}
