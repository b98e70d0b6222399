//! Clauses of two literals, by their places: what one literal implies is found without reading the clause.

use crate::tables::entry;
use std::alloc::{AllocError, Allocator};
use varisat_database::database::Database;
use varisat_literals::Lit;

/// A number for each place by which either literal of a clause of two gives the other.
#[derive(Drop)]
pub struct Pairs<A: Allocator + Copy> {
    sums: Vec<u32, A>,
    is_empty: bool,
}

/// The number of the clause: 0 if it has another length.
fn sum_of(clause: &[Lit]) -> u32 {
    match clause {
        [one, other] => one.code() as u32 ^ other.code() as u32,
        _ => 0,
    }
}

impl<A: Allocator + Copy> Pairs<A> {
    /// Without the clauses, which `note_new` notes.
    pub fn new_in(alloc: A) -> Pairs<A> {
        Pairs {
            sums: Vec::new(alloc),
            is_empty: true,
        }
    }

    /// Notes the clauses that were added since this was called last.
    pub fn note_new(&mut self, db: &Database<A>) -> Result<(), AllocError> {
        for place in self.sums.len()..db.len() {
            let sum = sum_of(db.clause(place));
            self.is_empty = self.is_empty && sum == 0;
            self.sums.push(sum)?;
        }
        Ok(())
    }

    /// Whether no clause that was noted has two literals.
    pub fn is_empty(&self) -> bool {
        self.is_empty
    }

    /// Whether the clause at the place has two literals, live or not.
    pub fn has(&self, place: usize) -> bool {
        entry(&self.sums, place) != 0
    }

    /// The other literal of the clause at the place, which has this one, if it is live and has two.
    pub fn other(&self, db: &Database<A>, place: usize, lit: Lit) -> Option<Lit> {
        let sum = entry(&self.sums, place);
        if sum == 0 || !db.is_live(place) {
            return None;
        }
        Some(Lit::from_code((sum ^ lit.code() as u32) as usize))
    }
}
