//! The clauses of a store that are not deleted, one after another.
ghost use Rattle.std.specs.Prelude.{◌≡◌};
ghost use Rattle.std.specs.Iterator.{YieldsFirst, item_count};
ghost use Rattle.varisat_clause.specs.Stores.{stored_clauses, IsSound};
ghost use Rattle.varisat_clause.specs.Filters.{live_places};

use crate::alloc::{ClauseAlloc, ClauseRef};
use std::alloc::Allocator;
use std::marker::Model;

/// The clauses that are not deleted, in order. A contract sees the places that are left.
#[derive(Drop)]
pub struct Clauses<'a, A: Allocator + Copy> {
    alloc: &'a ClauseAlloc<A>,
    index: usize,
}

impl<'a, A: Allocator + Copy> Model for Clauses<'a, A> {
    ghost use Rattle.std.specs.Prelude.{ℕ, List, drop};
    ghost use Rattle.varisat_clause.specs.Stores.{stored_clauses, IsSound};
    ghost use Rattle.varisat_clause.specs.Filters.{live_places};

    ghost Value = { List ℕ };

    ghost view = { λ c. live_places (drop c.index (stored_clauses c.alloc.now)) };

    ghost invariant = { λ c. IsSound c.alloc.now };
}

/// The clauses of the store that are not deleted, in order.
pub fn clauses_iter<A: Allocator + Copy>(alloc: &ClauseAlloc<A>) -> Clauses<'_, A>
    requires { IsSound alloc.now }
    ensures { result ≡ live_places (stored_clauses alloc.now) }
{
    Clauses { alloc, index: 0 }
}

impl<'a, A: Allocator + Copy> Iterator for Clauses<'a, A> {
    type Item = ClauseRef;

    ghost next_gives = { YieldsFirst (λ left. left) };

    ghost remaining = { item_count (λ left. left) };

    fn next(&mut self) -> Option<ClauseRef> {
        'places: while self.index < self.alloc.len() {
            let cref = self.alloc.place(self.index);
            self.index += 1;
            if !self.alloc.header(cref).deleted() {
                return Some(cref);
            }
        }
        None
    }
}
