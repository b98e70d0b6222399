//! Literals that imply each other by clauses of two literals: the strongly connected components of the implications, by
//! Tarjan's algorithm (R. Tarjan, Depth-first search and linear graph algorithms, 1972) without recursion.

use crate::limits::Limits;
use crate::pairs::Pairs;
use crate::tables::{by_literal, code_of, entry, put};
use std::alloc::{AllocError, Allocator};
use varisat_database::clauses::ClauseList;
use varisat_database::database::Database;
use varisat_literals::{Lit, Var};

/// The number of a literal whose component is complete.
const DONE: u32 = 0xffff_ffff;

/// A walk along the implications.
#[derive(Drop)]
struct Walk<A: Allocator + Copy> {
    /// When each literal was met first, from 1 on.
    number: Vec<u32, A>,
    /// The least number of a literal that it implies.
    least: Vec<u32, A>,
    /// The last number that was given.
    last: u32,
    /// The literals that were met and whose components are not complete.
    open: Vec<Lit, A>,
    /// The literals on the way to the one that is looked at.
    way: Vec<Lit, A>,
    /// How many places of each literal on the way were looked at.
    index: Vec<u32, A>,
    /// The literals of a component.
    members: Vec<Lit, A>,
    /// The components of more than one literal.
    found: ClauseList<A>,
}

impl<A: Allocator + Copy> Walk<A> {
    /// No literal was met.
    fn new_in(alloc: A, db: &Database<A>) -> Result<Walk<A>, AllocError> {
        Ok(Walk {
            number: by_literal(alloc, db)?,
            least: by_literal(alloc, db)?,
            last: 0,
            open: Vec::new(alloc),
            way: Vec::new(alloc),
            index: Vec::new(alloc),
            members: Vec::new(alloc),
            found: ClauseList::new_in(alloc),
        })
    }

    /// Goes on to a literal that was not met.
    fn enter(&mut self, db: &Database<A>, lit: Lit) -> Result<(), AllocError> {
        self.last = self.last.saturating_add(1);
        let code = code_of(db, lit);
        put(&mut self.number, code, self.last);
        put(&mut self.least, code, self.last);
        self.open.push(lit)?;
        self.way.push(lit)?;
        self.index.push(0)?;
        Ok(())
    }

    /// Notes that the literal implies one with the number.
    fn lower(&mut self, db: &Database<A>, lit: Lit, number: u32) {
        let code = code_of(db, lit);
        let least = entry(&self.least, code).min(number);
        put(&mut self.least, code, least);
    }

    /// Takes the literals that were met from this one on: they are a component.
    fn complete(&mut self, db: &Database<A>, lit: Lit) -> Result<(), AllocError> {
        self.members.clear();
        for _ in 0..u64::MAX {
            let Some(one) = self.open.pop() else {
                break;
            };
            put(&mut self.number, code_of(db, one), DONE);
            self.members.push(one)?;
            if one.code() == lit.code() {
                break;
            }
        }
        if self.members.len() > 1 {
            self.found.push(&self.members)?;
        }
        Ok(())
    }

    /// Goes back from the literal at the end of the way.
    fn leave(&mut self, db: &Database<A>, lit: Lit) -> Result<(), AllocError> {
        let _ = self.way.pop();
        let _ = self.index.pop();
        let code = code_of(db, lit);
        let least = entry(&self.least, code);
        if least == entry(&self.number, code) {
            self.complete(db, lit)?;
        } else if let Some(above) = self.way.last() {
            let above = *above;
            self.lower(db, above, least);
        }
        Ok(())
    }

    /// The next literal that the one at the end of the way implies.
    fn next(&mut self, db: &Database<A>, pairs: &Pairs<A>, lit: Lit) -> Option<Lit> {
        let places = db.places(!lit)?;
        let index = self.index.last_mut()?;
        for place in places.get(*index as usize..)? {
            *index = index.saturating_add(1);
            if let Some(other) = pairs.other(db, *place as usize, !lit) {
                return Some(other);
            }
        }
        None
    }

    /// Goes a step on or back. Returns false at the end of the walk.
    fn step(&mut self, db: &Database<A>, pairs: &Pairs<A>) -> Result<bool, AllocError> {
        let Some(lit) = self.way.last() else {
            return Ok(false);
        };
        let lit = *lit;
        let Some(other) = self.next(db, pairs, lit) else {
            self.leave(db, lit)?;
            return Ok(true);
        };
        let number = entry(&self.number, code_of(db, other));
        if number == 0 {
            self.enter(db, other)?;
        } else if number != DONE {
            self.lower(db, lit, number);
        }
        Ok(true)
    }

    /// Walks from the literal, unless it was met or no place may be looked at.
    fn walk_from(
        &mut self,
        db: &Database<A>,
        pairs: &Pairs<A>,
        lit: Lit,
        limits: &mut Limits,
    ) -> Result<(), AllocError> {
        let count = db.count(!lit);
        if !limits.visit(count) || count == 0 || entry(&self.number, code_of(db, lit)) != 0 {
            return Ok(());
        }
        self.enter(db, lit)?;
        for _ in 0..u64::MAX {
            if !self.step(db, pairs)? {
                return Ok(());
            }
        }
        Ok(())
    }
}

/// The components of more than one literal of these variables. Where no more places may be looked at, some are left
/// out.
pub fn components<A: Allocator + Copy>(
    db: &Database<A>,
    pairs: &Pairs<A>,
    alloc: A,
    variables: &[Var],
    limits: &mut Limits,
) -> Result<ClauseList<A>, AllocError> {
    let mut walk = Walk::new_in(alloc, db)?;
    for var in variables {
        walk.walk_from(db, pairs, var.positive(), limits)?;
        walk.walk_from(db, pairs, var.negative(), limits)?;
    }
    Ok(walk.found)
}
