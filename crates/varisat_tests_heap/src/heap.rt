//! A heap that counts its growths.
ghost use Rattle.std.specs.Prelude.{◌≡◌, IfSome};

use std::alloc::{AllocError, Allocator};
use std::cell::Cell;
use std::marker::Model;

/// A heap over another one, that counts its growths and refuses a chosen one. Growths are counted from 1 on, so that none
/// is refused where 0 is chosen. A block that grows is a new one.
#[derive(Drop)]
pub struct CutHeap<A> {
    heap: A,
    growths: Cell<u64>,
    refused: Cell<u64>,
}

// What it stands for is the heap behind it, to which the blocks belong.
impl<A> Model for CutHeap<A> {
    ghost Value = { A };

    ghost view = { λ it. it.heap };
}

impl<A> CutHeap<A> {
    /// A heap that refuses no growth.
    pub fn new(heap: A) -> CutHeap<A>
        ensures { result ≡ heap }
    {
        CutHeap {
            heap,
            growths: Cell::new(0),
            refused: Cell::new(0),
        }
    }

    /// Counts anew, and refuses the growth of this number.
    pub fn refuse(&self, number: u64) {
        self.growths.set(0);
        self.refused.set(number);
    }

    /// How many growths it was asked for since it counts.
    pub fn growths(&self) -> u64 {
        self.growths.get()
    }

    /// The heap behind it.
    fn lent(&self) -> Option<&A>
        ensures { IfSome result (λ h. h.now ≡ self.now) }
    {
        Some(&self.heap)
    }

    /// Counts a growth, and lends the heap behind it unless that one is refused.
    fn asked(&self) -> Option<&A>
        ensures { IfSome result (λ h. h.now ≡ self.now) }
    {
        let number = self.growths.get().saturating_add(1);
        self.growths.set(number);
        if number == self.refused.get() {
            return None;
        }
        Some(&self.heap)
    }
}

unsafe impl<A: Allocator> Allocator for CutHeap<A> {
    ghost dealloc_token = { A.dealloc_token };

    fn allocate(&self, size: usize, align: usize) -> Result<*mut u8, AllocError> {
        match self.asked() {
            Some(heap) => heap.allocate(size, align),
            None => Err(AllocError),
        }
    }

    unsafe fn deallocate(&self, ptr: *mut u8, size: usize, align: usize) {
        match self.lent() {
            Some(heap) => unsafe { heap.deallocate(ptr, size, align) },
            None => {}
        }
    }
}
