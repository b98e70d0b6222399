//! Propagation over copies of the clauses, which finds out what clauses to look at, and in which order. It is a guess: who
//! goes that way looks at each clause.
use crate::clause::mentions;
use crate::copies::{Copies, NO_COPY, Step, number_of};
use crate::known::{Known, PLACE_LIMIT};
use crate::places::clause_at;
use crate::tiers::Tiers;
use crate::watches::{OF_TWO, Tier, Watch, best_two};
use std::alloc::{AllocError, Allocator};
use std::mem;
use varisat_literals::{Lit, Var};

/// What becomes of a watch.
#[derive(Clone, Copy)]
enum Looked {
    /// Its clause is false.
    Conflict,
    /// It stays, with this blocking literal.
    Stays(Lit),
    /// It is taken out.
    Gone,
}

/// Why a literal is taken as true.
#[derive(Clone, Copy)]
struct Reason {
    /// The key of the clause that leaves the literal, or `GIVEN`.
    key: u32,
    /// A literal of that clause that is false, the only one if it has two literals.
    false_literal: Lit,
}

/// The key where a literal was given.
const GIVEN: u32 = 0xffff_ffff;

/// Copies of the clauses, the watches on them, and what was propagated last.
#[derive(Drop)]
pub struct Guide<A: Allocator + Copy> {
    copies: Copies<A>,
    tiers: Tiers<A>,
    /// The literals that are taken as true. After a conflict the last one clashes with one before it.
    trail: Known<A>,
    /// By place in the trail.
    reasons: Vec<Reason, A>,
    /// By a literal's code, for those below `PLACE_LIMIT`, whether it leads to the conflict.
    needed: Vec<bool, A>,
    /// The places of the clauses to look at, in turn.
    way: Vec<u32, A>,
}

/// The literal leads to the conflict.
fn mark<A: Allocator + Copy>(needed: &mut Vec<bool, A>, literal: Lit) -> Result<(), AllocError> {
    let code = literal.code();
    if code >= needed.len() {
        if code >= PLACE_LIMIT {
            return Ok(());
        }
        needed.resize(code + 1, false)?;
    }
    if code < needed.len() {
        needed[code] = true;
    }
    Ok(())
}

/// Whether the literal leads to the conflict. From then on it does not.
fn take_mark<A: Allocator + Copy>(needed: &mut Vec<bool, A>, literal: Lit) -> bool {
    let code = literal.code();
    if code >= needed.len() {
        return code >= PLACE_LIMIT;
    }
    let is_needed = needed[code];
    needed[code] = false;
    is_needed
}

impl<A: Allocator + Copy> Guide<A> {
    /// No clauses. It takes no memory.
    pub fn new_in(alloc: A) -> Guide<A> {
        Guide {
            copies: Copies::new_in(alloc),
            tiers: Tiers::new_in(alloc),
            trail: Known::new_in(alloc),
            reasons: Vec::new(alloc),
            needed: Vec::new(alloc),
            way: Vec::new(alloc),
        }
    }

    /// The places of the clauses to look at, in turn, once `lead` was called.
    pub fn way(&self) -> &[u32] {
        self.way.as_slice()
    }

    /// The next place has a clause, which is watched by the two literals that are best to watch, if it has two. A watch has
    /// all of a clause of two literals, which needs no copy.
    fn watch_next(
        &mut self,
        tier: Tier,
        known: &Known<A>,
        clause: &[Lit],
    ) -> Result<(), AllocError> {
        let Some((one, other)) = best_two(known, clause) else {
            self.copies.skip()?;
            self.tiers.skip()?;
            return Ok(());
        };
        let key = if clause.len() == 2 {
            self.copies.skip()? | OF_TWO
        } else {
            self.copies.add(clause, one, other)?
        };
        self.tiers.add_next(tier, key, one, other)
    }

    /// Takes all clauses out, and adds those that are there.
    fn begin_anew(
        &mut self,
        places: &[Option<Vec<Lit, A>>],
        known: &Known<A>,
    ) -> Result<(), AllocError> {
        self.copies.clear();
        self.tiers.clear();
        for place in 0..places.len() {
            match clause_at(places, place) {
                None => {
                    self.copies.skip()?;
                    self.tiers.skip()?;
                }
                Some(clause) => self.watch_next(Tier::Cold, known, clause)?,
            }
        }
        Ok(())
    }

    /// Adds the next clause. If copies of deleted clauses take most of the memory all are made anew.
    pub fn add_clause(
        &mut self,
        places: &[Option<Vec<Lit, A>>],
        known: &Known<A>,
        clause: &[Lit],
    ) -> Result<(), AllocError> {
        if self.copies.is_wasteful() {
            self.begin_anew(places, known)?;
        }
        let tier = self.tiers.newest();
        self.watch_next(tier, known, clause)?;
        Ok(())
    }

    /// The clause at the place, which has these literals, is deleted.
    pub fn forget(&mut self, place: usize, clause: &[Lit]) {
        if self.copies.start_of(place) != NO_COPY {
            self.copies.forget(place);
            return;
        }
        if let Some((one, other)) = best_two(&self.trail, clause) {
            let key = number_of(place) | OF_TWO;
            self.tiers.remove(place, key, one, other);
        }
    }

    /// The clauses with a literal of the variable are deleted.
    pub fn forget_mentions(&mut self, places: &[Option<Vec<Lit, A>>], var: Var) {
        for place in 0..places.len() {
            let Some(clause) = clause_at(places, place) else {
                continue;
            };
            if mentions(clause, var) {
                self.forget(place, clause);
            }
        }
    }

    /// Takes the literal as true, if it is not yet.
    fn push(&mut self, literal: Lit, reason: Reason) -> Result<(), AllocError> {
        if self.trail.holds(literal) {
            return Ok(());
        }
        self.trail.push(literal)?;
        self.reasons.push(reason)?;
        Ok(())
    }

    /// What the clause with this key comes to, of which this watched literal is false, and the blocking one is not true.
    fn step(&mut self, key: u32, blocking: Lit, literal: Lit) -> Step {
        if key >= OF_TWO {
            return Step::Leaves(blocking);
        }
        self.copies.step(&self.trail, key, literal)
    }

    /// Looks at a watch with this key on a literal that is false, whose blocking literal is not true.
    fn look(
        &mut self,
        tier: Tier,
        key: u32,
        blocking: Lit,
        literal: Lit,
    ) -> Result<Looked, AllocError> {
        match self.step(key, blocking, literal) {
            Step::Leaves(other) => {
                let is_false = self.trail.is_false(other);
                let reason = Reason {
                    key,
                    false_literal: literal,
                };
                self.push(other, reason)?;
                if is_false {
                    return Ok(Looked::Conflict);
                }
                Ok(Looked::Stays(other))
            }
            Step::Stays(other) => Ok(Looked::Stays(other)),
            Step::Moves(free, other) => {
                let blocking = other;
                self.tiers.add(tier, free, Watch { key, blocking })?;
                Ok(Looked::Gone)
            }
            Step::Gone => Ok(Looked::Gone),
        }
    }

    /// Looks at the watches on a literal that is false. Returns whether a clause is false.
    fn look_at_all(
        &mut self,
        tier: Tier,
        literal: Lit,
        list: &mut Vec<Watch, A>,
    ) -> Result<bool, AllocError> {
        let mut i = 0;
        for _ in 0..list.len() {
            if i >= list.len() {
                return Ok(false);
            }
            let watch = list[i];
            if self.trail.holds(watch.blocking) {
                i += 1;
                continue;
            }
            let looked = self.look(tier, watch.key, watch.blocking, literal)?;
            match looked {
                Looked::Conflict => return Ok(true),
                Looked::Stays(blocking) => {
                    // A list that stays as it was is not written back to memory.
                    if blocking.code() != watch.blocking.code() {
                        list[i] = Watch {
                            key: watch.key,
                            blocking,
                        };
                    }
                    i += 1;
                    continue;
                }
                Looked::Gone => {}
            }
            let _ = list.swap_remove(i);
        }
        Ok(false)
    }

    /// Looks at the watches of a tier on a literal that is false. Returns whether a clause is false.
    fn visit(&mut self, tier: Tier, literal: Lit) -> Result<bool, AllocError> {
        if self.tiers.is_empty(tier, literal) {
            return Ok(false);
        }
        let mut list = self.tiers.take_list(tier, literal);
        let is_conflict = self.look_at_all(tier, literal, &mut list)?;
        self.tiers.put_list(tier, literal, list);
        Ok(is_conflict)
    }

    /// Propagates from this place of the trail on by hot watches alone. Returns whether a clause is false.
    fn propagate_hot(&mut self, first: usize) -> Result<bool, AllocError> {
        for place in first..usize::MAX {
            let Some(literal) = self.trail.get(place) else {
                return Ok(false);
            };
            let is_conflict = self.visit(Tier::Hot, !literal)?;
            if is_conflict {
                return Ok(true);
            }
        }
        Ok(false)
    }

    /// Propagates from this place of the trail on, by a cold list only where no hot one is left. Returns whether a clause is
    /// false.
    fn propagate(&mut self, first: usize) -> Result<bool, AllocError> {
        let mut next = first;
        for place in first..usize::MAX {
            let is_conflict = self.propagate_hot(next)?;
            if is_conflict {
                return Ok(true);
            }
            next = self.trail.len();
            let Some(literal) = self.trail.get(place) else {
                return Ok(false);
            };
            let is_conflict = self.visit(Tier::Cold, !literal)?;
            if is_conflict {
                return Ok(true);
            }
        }
        Ok(false)
    }

    /// The place of the clause with this key.
    fn place_of(&self, key: u32) -> u32 {
        if key >= OF_TWO {
            return key ^ OF_TWO;
        }
        self.copies.place_of(key)
    }

    /// The clause that leaves the literal is one to look at, and what makes its other literals false is needed.
    fn need(&mut self, literal: Lit, reason: Reason) -> Result<(), AllocError> {
        let place = self.place_of(reason.key);
        self.way.push(place)?;
        if reason.key >= OF_TWO {
            mark(&mut self.needed, !reason.false_literal)?;
            return self
                .tiers
                .warm(place, reason.key, literal, reason.false_literal);
        }
        let codes = self.copies.codes(reason.key);
        for code in codes {
            let other = Lit::from_code(*code as usize);
            if other.code() != literal.code() {
                mark(&mut self.needed, !other)?;
            }
        }
        if codes.len() < 2 {
            return Ok(());
        }
        let one = Lit::from_code(codes[0] as usize);
        let other = Lit::from_code(codes[1] as usize);
        self.tiers.warm(place, reason.key, one, other)
    }

    /// Makes the way to the last literal and its opposite.
    fn trace(&mut self, first: usize) -> Result<(), AllocError> {
        if let Some(last) = self.trail.get(self.trail.len().saturating_sub(1)) {
            mark(&mut self.needed, last)?;
            mark(&mut self.needed, !last)?;
        }
        for place in (first..self.reasons.len()).rev() {
            let Some(literal) = self.trail.get(place) else {
                continue;
            };
            let Some(reason) = self.reasons.get(place).copied() else {
                continue;
            };
            if take_mark(&mut self.needed, literal) && reason.key != GIVEN {
                self.need(literal, reason)?;
            }
        }
        self.way.reverse();
        Ok(())
    }

    /// Makes the way to all that was propagated.
    fn trace_all(&mut self, first: usize) -> Result<(), AllocError> {
        for place in first..self.reasons.len() {
            let reason = self.reasons[place];
            if reason.key != GIVEN {
                let clause_place = self.place_of(reason.key);
                self.way.push(clause_place)?;
            }
        }
        Ok(())
    }

    /// Takes the known literals from this place on as true, beside those before it, and propagates them. Makes the way to
    /// a clause that is then false, or to all that was propagated.
    pub fn lead(&mut self, known: &Known<A>, first: usize) -> Result<(), AllocError> {
        self.way.clear();
        self.trail.cut(first);
        self.reasons.truncate(first);
        for place in self.trail.len()..known.len() {
            let Some(literal) = known.get(place) else {
                break;
            };
            let reason = Reason {
                key: GIVEN,
                false_literal: literal,
            };
            self.push(literal, reason)?;
        }
        self.tiers.begin()?;
        let is_conflict = self.propagate(first)?;
        if is_conflict {
            return self.trace(first);
        }
        self.trace_all(first)
    }
}
