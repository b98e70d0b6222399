//! Where bytes are read from, and where proof lines go.
ghost use Rattle.std.specs.Prelude.{◌≡◌, ℕ, ◌+◌, ◌-◌, ◌<◌, ◌≤◌, ◌^◌, List, [], ◌++◌, OnOk, OnErr, take};
ghost use Rattle.varisat_formula.specs.promises.Streams.{Taken};

pub mod cut;
pub mod history;
pub mod output;
pub mod source;

pub use cut::{CutSource, CutTarget};
pub use output::IoTarget;
pub use source::{ByteSource, PIECE, ReadSource};
use std::alloc::Allocator;
use std::io;
use std::marker::Model;

/// Takes the bytes of a proof, and counts its faults.
pub trait ProofTarget: Drop {
    /// The bytes that it holds, and how many faults there were.
    ghost taken: { Self → Taken };

    /// Appends all the bytes, or returns Err and appended a beginning of them.
    fn put(&mut self, bytes: &[u8]) -> io::Result<()>
        requires { (taken self.old).faults < 2 ^ 64 - 1 }
        ensures whole { OnOk result ((taken self.new).bytes ≡ (taken self.old).bytes ++ bytes.now) }
        ensures begun { OnErr result ((n : ℕ) × ((taken self.new).bytes ≡ (taken self.old).bytes ++ take n bytes.now)) }
        ensures quiet { OnOk result ((taken self.new).faults ≡ (taken self.old).faults) }
        ensures fault { OnErr result ((taken self.new).faults ≡ (taken self.old).faults + 1) };

    /// Hands on what the target still keeps back.
    fn flush(&mut self) -> io::Result<()>
        requires { (taken self.old).faults < 2 ^ 64 - 1 }
        ensures same { (taken self.new).bytes ≡ (taken self.old).bytes }
        ensures quiet { OnOk result ((taken self.new).faults ≡ (taken self.old).faults) }
        ensures fault { OnErr result ((taken self.new).faults ≡ (taken self.old).faults + 1) };

    /// How many calls returned Err.
    fn faults(&self) -> u64
        ensures { result ≡ (taken self.now).faults };
}

/// A target in memory. A growth that is refused is a fault, and takes none of the bytes.
#[derive(Drop)]
pub struct MemoryTarget<A: Allocator + Copy> {
    bytes: Vec<u8, A>,
    faults: u64,
}

impl<A: Allocator + Copy> Model for MemoryTarget<A> {
    ghost Value = { Taken };

    ghost view = { λ t. record { bytes = t.bytes.items; faults = t.faults } };
}

impl<A: Allocator + Copy> MemoryTarget<A> {
    /// An empty target. It takes no memory.
    pub fn new_in(alloc: A) -> MemoryTarget<A>
        ensures { result ≡ record { bytes = []; faults = 0 } }
    {
        MemoryTarget {
            bytes: Vec::new(alloc),
            faults: 0,
        }
    }

    /// All the bytes that it holds.
    pub fn bytes(&self) -> &[u8]
        ensures { result.now ≡ self.now.bytes }
    {
        self.bytes.as_slice()
    }
}

impl<A: Allocator + Copy> ProofTarget for MemoryTarget<A> {
    ghost taken = { λ t. t };

    fn put(&mut self, bytes: &[u8]) -> io::Result<()>
        requires { self.old.faults < 2 ^ 64 - 1 }
        ensures whole { OnOk result (self.new.bytes ≡ self.old.bytes ++ bytes.now) }
        ensures none { OnErr result (self.new.bytes ≡ self.old.bytes) }
        ensures quiet { OnOk result (self.new.faults ≡ self.old.faults) }
        ensures fault { OnErr result (self.new.faults ≡ self.old.faults + 1) }
    {
        match self.bytes.extend_from_slice(bytes) {
            Ok(()) => Ok(()),
            Err(error) => {
                self.faults += 1;
                Err(io::Error::from(error))
            }
        }
    }

    fn flush(&mut self) -> io::Result<()> {
        Ok(())
    }

    fn faults(&self) -> u64 {
        self.faults
    }
}
