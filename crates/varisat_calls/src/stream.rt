//! A target of a proof whose bytes are taken out while the proof is open.
ghost use Rattle.std.specs.Prelude.{◌≡◌, [], IfOk};
ghost use Rattle.varisat_formula.specs.promises.Streams.{Taken};

use std::alloc::{AllocError, Allocator};
use std::cell::RefCell;
use std::io::{self, ErrorKind};
use std::marker::Model;
use std::rc::Rc;
use varisat_formula::io::ProofTarget;
use varisat_formula::io::history::{History, Part};

/// The bytes that a target took and that were not taken out yet.
#[derive(Drop)]
pub struct Lines<A: Allocator + Copy> {
    shared: Rc<RefCell<Vec<u8, A>>, A>,
}

/// A target that puts its bytes where `Lines` takes them out.
#[derive(Drop)]
pub struct StreamTarget<A: Allocator + Copy> {
    shared: Rc<RefCell<Vec<u8, A>>, A>,
    history: History,
    faults: u64,
}

impl<A: Allocator + Copy> Model for StreamTarget<A> {
    ghost Value = { Taken };

    ghost view = { λ t. record { bytes = t.history.bytes; faults = t.faults } };
}

/// A target, and where its bytes are taken out.
pub fn stream_in<A: Allocator + Copy>(alloc: A) -> Result<(Lines<A>, StreamTarget<A>), AllocError>
    ensures { IfOk result (λ both. both.1 ≡ record { bytes = []; faults = 0 }) }
{
    let shared = Rc::new(alloc, RefCell::new(Vec::new(alloc)))?;
    let target = StreamTarget {
        shared: shared.clone()?,
        history: History::new(),
        faults: 0,
    };
    Ok((Lines { shared }, target))
}

impl<A: Allocator + Copy> Lines<A> {
    /// Takes the bytes out.
    pub fn take(&self, alloc: A) -> Vec<u8, A> {
        match self.shared.try_replace(Vec::new(alloc)) {
            Ok(bytes) => bytes,
            Err(none) => none,
        }
    }
}

impl<A: Allocator + Copy> StreamTarget<A> {
    /// Appends the bytes, or none of them.
    fn append(&self, bytes: &[u8]) -> Result<(), AllocError> {
        let Ok(mut lines) = self.shared.try_borrow_mut() else {
            return Err(AllocError);
        };
        lines.extend_from_slice(bytes)?;
        Ok(())
    }
}

impl<A: Allocator + Copy> ProofTarget for StreamTarget<A> {
    ghost taken = { λ t. t };

    fn put(&mut self, bytes: &[u8]) -> io::Result<()> {
        match self.append(bytes) {
            Ok(()) => {
                self.history = self.history.then(&Part { bytes });
                Ok(())
            }
            Err(_) => {
                self.faults += 1;
                Err(io::Error::from(ErrorKind::OutOfMemory))
            }
        }
    }

    fn flush(&mut self) -> io::Result<()> {
        Ok(())
    }

    fn faults(&self) -> u64 {
        self.faults
    }
}
