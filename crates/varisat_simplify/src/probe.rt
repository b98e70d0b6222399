//! Failed literals: unit propagation from each leads to a conflict, so its opposite is true.
ghost use Rattle.std.specs.Prelude.{OnOk};
ghost use Rattle.varisat_rules.specs.inside.States.{IsLaterState};

use crate::limits::Limits;
use crate::pairs::Pairs;
use crate::tables::{Lists, by_literal, code_of, entry, entry_of, number_of, put};
use std::alloc::{AllocError, Allocator};
use varisat_database::database::Database;
use varisat_literals::{Lit, Var};
use varisat_rules::derive::derive;

/// If a conflict needs more clauses, nothing is derived from it.
const MOST_HINTS: usize = 500;

/// What follows from a literal.
#[derive(Drop)]
pub struct Probe<A: Allocator + Copy> {
    /// 1 for each literal that is true.
    is_true: Vec<u32, A>,
    /// The literals that are true, in the order in which they were found.
    trail: Vec<Lit, A>,
    /// For each literal of the trail one more than the place of the clause that implies it, or 0.
    reason: Vec<u32, A>,
    /// For each literal the number of the last conflict that needed it.
    needed: Vec<u32, A>,
    /// The number of the last conflict.
    last: u32,
    /// For each literal one more than the number of failed literals that were known when it last led to no conflict.
    passed: Vec<u32, A>,
}

impl<A: Allocator + Copy> Probe<A> {
    /// No literal is true.
    pub fn new_in(alloc: A, db: &Database<A>) -> Result<Probe<A>, AllocError> {
        Ok(Probe {
            is_true: by_literal(alloc, db)?,
            trail: Vec::new(alloc),
            reason: by_literal(alloc, db)?,
            needed: by_literal(alloc, db)?,
            last: 0,
            passed: by_literal(alloc, db)?,
        })
    }

    /// Makes a literal true. `reason` is one more than the place of the clause that implies it, or 0.
    fn set(&mut self, db: &Database<A>, lit: Lit, reason: u32) -> Result<(), AllocError> {
        let code = code_of(db, lit);
        self.trail.push(lit)?;
        put(&mut self.is_true, code, 1);
        put(&mut self.reason, code, reason);
        Ok(())
    }

    /// Whether the literal is true.
    fn has(&self, db: &Database<A>, lit: Lit) -> bool {
        entry(&self.is_true, code_of(db, lit)) != 0
    }

    /// Makes no literal true. Notes for those that were true that they led to no conflict, if `number` is not 0.
    fn clear(&mut self, db: &Database<A>, number: u32) {
        for lit in &self.trail {
            let code = code_of(db, *lit);
            put(&mut self.is_true, code, 0);
            if number != 0 {
                put(&mut self.passed, code, number);
            }
        }
        self.trail.clear();
    }

    /// Makes the literal true if it is not, since the clause at the place implies it. Returns whether it is false.
    fn imply(&mut self, db: &Database<A>, lit: Lit, place: usize) -> Result<bool, AllocError> {
        if self.has(db, !lit) {
            return Ok(true);
        }
        if !self.has(db, lit) {
            self.set(db, lit, entry_of(place))?;
        }
        Ok(false)
    }

    /// Makes the last literal of the clause at the place true if the others are false. Returns whether all are false.
    fn look(&mut self, db: &Database<A>, place: usize) -> Result<bool, AllocError> {
        if !db.is_live(place) {
            return Ok(false);
        }
        let mut left: Option<Lit> = None;
        for lit in db.clause(place) {
            if self.has(db, *lit) {
                return Ok(false);
            }
            if !self.has(db, !*lit) {
                if left.is_some() {
                    return Ok(false);
                }
                left = Some(*lit);
            }
        }
        match left {
            None => Ok(true),
            Some(lit) => {
                self.set(db, lit, entry_of(place))?;
                Ok(false)
            }
        }
    }

    /// Looks at the clause at the place, which has the literal, which is false. Returns whether all of its literals are
    /// false.
    fn look_at(
        &mut self,
        db: &Database<A>,
        pairs: &Pairs<A>,
        place: usize,
        lit: Lit,
    ) -> Result<bool, AllocError> {
        if !pairs.has(place) {
            return self.look(db, place);
        }
        match pairs.other(db, place, lit) {
            Some(other) => self.imply(db, other, place),
            None => Ok(false),
        }
    }

    /// Looks at the clauses with the opposite of the literal, which is true. Returns the place of one whose literals
    /// are all false.
    fn spread(
        &mut self,
        db: &Database<A>,
        pairs: &Pairs<A>,
        lit: Lit,
        limits: &mut Limits,
    ) -> Result<Option<usize>, AllocError> {
        let Some(places) = db.places(!lit) else {
            return Ok(None);
        };
        limits.probe(places.len());
        for place in places {
            if self.look_at(db, pairs, *place as usize, !lit)? {
                return Ok(Some(*place as usize));
            }
        }
        Ok(None)
    }

    /// Makes the literal true, and what follows. Returns the place of a clause whose literals are all false then.
    fn run(
        &mut self,
        db: &Database<A>,
        pairs: &Pairs<A>,
        lit: Lit,
        limits: &mut Limits,
    ) -> Result<Option<usize>, AllocError> {
        self.set(db, lit, 0)?;
        let mut index: usize = 0;
        for _ in 0..u64::MAX {
            let Some(lit) = self.trail.get(index) else {
                return Ok(None);
            };
            let lit = *lit;
            if let Some(place) = self.spread(db, pairs, lit, limits)? {
                return Ok(Some(place));
            }
            index = index.saturating_add(1);
        }
        Ok(None)
    }

    /// Notes that the conflict needs the opposites of the literals of the clause at the place other than `but`. Returns
    /// how many are new.
    fn need(&mut self, db: &Database<A>, place: usize, but: Option<Lit>) -> usize {
        let mut count: usize = 0;
        for lit in db.clause(place) {
            let is_other = match but {
                Some(one) => one.code() != lit.code(),
                None => true,
            };
            let code = code_of(db, !*lit);
            if is_other && entry(&self.needed, code) != self.last {
                put(&mut self.needed, code, self.last);
                count = count.saturating_add(1);
            }
        }
        count
    }

    /// The last literal of the trail from which alone the conflict at the place follows. Lists as hints the clauses
    /// between, in order.
    fn trace(
        &mut self,
        db: &Database<A>,
        place: usize,
        hints: &mut Vec<u32, A>,
    ) -> Result<Option<Lit>, AllocError> {
        self.last = self.last.saturating_add(1);
        hints.clear();
        hints.push(number_of(place))?;
        let mut open = self.need(db, place, None);
        for _ in 0..u64::MAX {
            let Some(lit) = self.trail.pop() else {
                return Ok(None);
            };
            let code = code_of(db, lit);
            put(&mut self.is_true, code, 0);
            if entry(&self.needed, code) == self.last {
                let reason = entry(&self.reason, code);
                if open <= 1 || reason == 0 {
                    hints.as_mut_slice().reverse();
                    return Ok(Some(lit));
                }
                let place = reason as usize - 1;
                hints.push(number_of(place))?;
                open = open
                    .saturating_sub(1)
                    .saturating_add(self.need(db, place, Some(lit)));
            }
        }
        Ok(None)
    }
}

/// Tries the literal, unless it led to no conflict since `number` was given. If it leads to one, derives the opposite
/// of a literal from which alone the conflict follows. Returns whether it did.
pub fn try_literal<A: Allocator + Copy>(
    db: &mut Database<A>,
    lit: Lit,
    probe: &mut Probe<A>,
    number: u32,
    limits: &mut Limits,
    lists: &mut Lists<A>,
) -> Result<bool, AllocError>
    ensures { OnOk result (IsLaterState db.old db.new) }
{
    if entry(&probe.passed, code_of(db, lit)) == number {
        return Ok(false);
    }
    let Some(place) = probe.run(db, &lists.pairs, lit, limits)? else {
        probe.clear(db, number);
        return Ok(false);
    };
    let failed = probe.trace(db, place, &mut lists.hints)?;
    probe.clear(db, 0);
    let Some(failed) = failed else {
        return Ok(false);
    };
    if lists.hints.len() > MOST_HINTS {
        return Ok(false);
    }
    lists.clause.clear();
    lists.clause.push(!failed)?;
    derive(db, &lists.clause, &lists.hints, &mut lists.falses)
}

/// Whether a live clause of two literals has the literal.
fn is_in_pair<A: Allocator + Copy>(db: &Database<A>, pairs: &Pairs<A>, lit: Lit) -> bool {
    let Some(places) = db.places(lit) else {
        return false;
    };
    for place in places {
        if pairs.other(db, *place as usize, lit).is_some() {
            return true;
        }
    }
    false
}

/// Lists the literal if it implies others by clauses of two literals and none implies it. In front of its code stands a
/// number that is the lower the more clauses have its opposite.
fn list_root<A: Allocator + Copy>(
    db: &Database<A>,
    pairs: &Pairs<A>,
    lit: Lit,
    roots: &mut Vec<u64, A>,
) -> Result<(), AllocError> {
    if is_in_pair(db, pairs, !lit) && !is_in_pair(db, pairs, lit) {
        let rank = 0xffff_ffff - db.count(!lit).min(0xffff_ffff) as u64;
        roots.push(rank * 0x1_0000_0000 + (lit.code() as u64))?;
    }
    Ok(())
}

/// The *roots* of these variables: literals that imply others by clauses of two literals and that none implies. Those
/// come first whose opposites the most clauses have.
pub fn roots<A: Allocator + Copy>(
    db: &Database<A>,
    pairs: &Pairs<A>,
    alloc: A,
    variables: &[Var],
) -> Result<Vec<Lit, A>, AllocError> {
    let mut keys: Vec<u64, A> = Vec::new(alloc);
    for var in variables {
        list_root(db, pairs, var.positive(), &mut keys)?;
        list_root(db, pairs, var.negative(), &mut keys)?;
    }
    keys.as_mut_slice().sort_unstable();
    let mut out = Vec::new(alloc);
    for key in &keys {
        out.push(Lit::from_code((*key % 0x1_0000_0000) as usize))?;
    }
    Ok(out)
}
