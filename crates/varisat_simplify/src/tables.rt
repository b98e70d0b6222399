//! Tables by the short names of variables or literals, and lists that are used again and again to find equal and failed
//! literals. No proof depends on what is in them.

use crate::pairs::Pairs;
use std::alloc::{AllocError, Allocator};
use varisat_database::database::{Database, filled};
use varisat_literals::{Lit, Var};

/// The entry at the index, or 0.
pub fn entry(table: &[u32], index: usize) -> u32 {
    match table.get(index) {
        Some(value) => *value,
        None => 0,
    }
}

/// Changes the entry at the index, if there is one.
pub fn put(table: &mut [u32], index: usize, value: u32) {
    if let Some(entry) = table.get_mut(index) {
        *entry = value;
    }
}

/// The place as a number of 32 bits. There are no more places.
pub fn number_of(place: usize) -> u32 {
    (place % 0x1_0000_0000) as u32
}

/// The place as an entry of a table, which is not 0: one more than its number.
pub fn entry_of(place: usize) -> u32 {
    number_of(place).saturating_add(1)
}

/// The index of the literal in a table by literals.
pub fn code_of<A: Allocator + Copy>(db: &Database<A>, lit: Lit) -> usize {
    db.names().of(lit).code()
}

/// A table by literals whose entries are 0.
pub fn by_literal<A: Allocator + Copy>(
    alloc: A,
    db: &Database<A>,
) -> Result<Vec<u32, A>, AllocError> {
    let table = filled(alloc, db.names().len().saturating_mul(2), 0u32)?;
    Ok(table)
}

/// The variables of the live clauses, each once.
pub fn variables_of<A: Allocator + Copy>(
    db: &Database<A>,
    alloc: A,
) -> Result<Vec<Var, A>, AllocError> {
    let mut seen = filled(alloc, db.names().len(), false)?;
    let mut out = Vec::new(alloc);
    for place in 0..db.len() {
        if db.is_live(place) {
            for lit in db.clause(place) {
                if let Some(flag) = seen.get_mut(db.names().of(*lit).index()) {
                    if !*flag {
                        *flag = true;
                        out.push(lit.var())?;
                    }
                }
            }
        }
    }
    Ok(out)
}

/// How long the literal's list of places is.
pub fn place_count<A: Allocator + Copy>(db: &Database<A>, lit: Lit) -> usize {
    match db.places(lit) {
        Some(places) => places.len(),
        None => 0,
    }
}

/// The place at the index of the literal's list, whose clause may have been removed.
pub fn place_at<A: Allocator + Copy>(db: &Database<A>, lit: Lit, index: usize) -> Option<usize> {
    let place = db.places(lit)?.get(index)?;
    Some(*place as usize)
}

/// What is used again and again to find equal and failed literals.
#[derive(Drop)]
pub struct Lists<A: Allocator + Copy> {
    /// The other literals of clauses of two.
    pub pairs: Pairs<A>,
    /// The place behind the last clause that was used on others.
    pub used: usize,
    /// A clause to derive.
    pub clause: Vec<Lit, A>,
    /// The hints from which the clause is derived.
    pub hints: Vec<u32, A>,
    /// The hints by which the clause that it replaces is retracted.
    pub back: Vec<u32, A>,
    /// The literals that are false as a clause is derived or retracted.
    pub falses: Vec<Lit, A>,
}

impl<A: Allocator + Copy> Lists<A> {
    /// Empty lists. All clauses in front of the place `used` were used on others.
    pub fn new_in(alloc: A, used: usize) -> Lists<A> {
        Lists {
            pairs: Pairs::new_in(alloc),
            used,
            clause: Vec::new(alloc),
            hints: Vec::new(alloc),
            back: Vec::new(alloc),
            falses: Vec::new(alloc),
        }
    }
}
