//! Equal literals: one of them replaces the others, which are resolved away.
//!
//! If x and r are equal, the clauses (-x r) and (x -r) are live: the *bridges*. A clause with r in place of x follows
//! from the one with x and a bridge, and then the one with x follows from that and the other bridge, so it is removed.
ghost use Rattle.std.specs.Prelude.{OnOk};
ghost use Rattle.varisat_rules.specs.inside.States.{IsLaterState};

use crate::eliminate::{Scratch, eliminate};
use crate::limits::Limits;
use crate::tables::{
    Lists, by_literal, code_of, entry, entry_of, number_of, place_at, place_count, put,
};
use std::alloc::{AllocError, Allocator};
use varisat_database::clauses::ClauseList;
use varisat_database::database::Database;
use varisat_literals::{Lit, Var};
use varisat_rules::derive::{derive, retract};
use varisat_rules::resolve::{Sign, sign_of};

/// No literal of a longer clause is replaced.
const MOST_LITERALS: usize = 100;

/// A literal of a clause is replaced in the time in which so many places are looked at.
const REWRITE_VISITS: usize = 3;

/// Which literals are equal, and the bridges that say so.
#[derive(Drop)]
pub struct Equal<A: Allocator + Copy> {
    /// For each literal one more than the code of the one that replaces it, or 0.
    target: Vec<u32, A>,
    /// For each replaced literal one more than the place of the clause by which it implies the one that replaces it.
    bridge: Vec<u32, A>,
    /// For each literal the last number of a set of literals that it was in.
    member: Vec<u32, A>,
    /// The last number of a set, and the last before the present sets.
    last: u32,
    before: u32,
    /// For each literal of a component one more than the place of the clause by which the first one implies it.
    reach: Vec<u32, A>,
    /// The literals that are replaced.
    pub replaced: Vec<Lit, A>,
    /// The literals to go on from.
    queue: Vec<Lit, A>,
}

impl<A: Allocator + Copy> Equal<A> {
    /// No literal is replaced.
    pub fn new_in(alloc: A, db: &Database<A>) -> Result<Equal<A>, AllocError> {
        Ok(Equal {
            target: by_literal(alloc, db)?,
            bridge: by_literal(alloc, db)?,
            member: by_literal(alloc, db)?,
            last: 0,
            before: 0,
            reach: by_literal(alloc, db)?,
            replaced: Vec::new(alloc),
            queue: Vec::new(alloc),
        })
    }

    /// Forgets which literals are replaced.
    pub fn clear(&mut self, db: &Database<A>) {
        for lit in &self.replaced {
            for one in [*lit, !*lit] {
                let code = code_of(db, one);
                put(&mut self.target, code, 0);
                put(&mut self.bridge, code, 0);
            }
        }
        self.replaced.clear();
        self.before = self.last;
    }

    /// Whether the literal or its opposite is replaced or replaces one.
    pub fn is_met(&self, db: &Database<A>, lit: Lit) -> bool {
        entry(&self.member, code_of(db, lit)) > self.before
    }

    /// Whether the literal is replaced.
    pub fn is_replaced(&self, db: &Database<A>, lit: Lit) -> bool {
        entry(&self.target, code_of(db, lit)) != 0
    }

    /// The literal that replaces this one.
    fn target_of(&self, db: &Database<A>, lit: Lit) -> Option<Lit> {
        let code = entry(&self.target, code_of(db, lit));
        if code == 0 {
            return None;
        }
        Some(Lit::from_code((code - 1) as usize))
    }

    /// Notes that `by` replaces the literal, which implies it by the clause at `there` and is implied by the one at
    /// `back`.
    pub fn join(
        &mut self,
        db: &Database<A>,
        lit: Lit,
        by: Lit,
        there: usize,
        back: usize,
    ) -> Result<(), AllocError> {
        self.replaced.push(lit)?;
        self.last = self.last.saturating_add(1);
        for (one, other, place) in [(lit, by, there), (!lit, !by, back)] {
            let code = code_of(db, one);
            put(&mut self.target, code, entry_of(other.code()));
            put(&mut self.bridge, code, entry_of(place));
            put(&mut self.member, code, self.last);
            put(&mut self.member, code_of(db, other), self.last);
        }
        Ok(())
    }

    /// Numbers the literals of the component, or their opposites. Returns false if one is in another of the present
    /// sets.
    fn number_all(&mut self, db: &Database<A>, component: &[Lit], are_opposites: bool) -> bool {
        self.last = self.last.saturating_add(1);
        for lit in component {
            let one = if are_opposites { !*lit } else { *lit };
            if self.is_met(db, one) {
                return false;
            }
            put(&mut self.member, code_of(db, one), self.last);
        }
        true
    }

    /// Notes that the first literal of the walk implies this one by the clause at the place, and goes on from it.
    fn note_reached(&mut self, db: &Database<A>, lit: Lit, place: usize) -> Result<(), AllocError> {
        put(&mut self.reach, code_of(db, lit), entry_of(place));
        self.queue.push(lit)?;
        Ok(())
    }

    /// Whether the literal is in the last set and was not reached.
    fn is_to_reach(&self, db: &Database<A>, lit: Lit) -> bool {
        let code = code_of(db, lit);
        entry(&self.member, code) == self.last && entry(&self.reach, code) == 0
    }

    /// Forgets which literals of the component were reached, and which opposites.
    fn forget_reached(&mut self, db: &Database<A>, component: &[Lit]) {
        for lit in component {
            put(&mut self.reach, code_of(db, *lit), 0);
            put(&mut self.reach, code_of(db, !*lit), 0);
        }
    }

    /// Notes that `by` replaces those literals of the component that it implies and that imply it, but no frozen ones.
    fn note_replaced(
        &mut self,
        db: &Database<A>,
        component: &[Lit],
        by: Lit,
    ) -> Result<(), AllocError> {
        for lit in component {
            let back = entry(&self.reach, code_of(db, *lit));
            let there = entry(&self.reach, code_of(db, !*lit));
            if lit.code() != by.code() && !db.is_frozen(*lit) && back != 0 && there != 0 {
                self.join(db, *lit, by, there as usize - 1, back as usize - 1)?;
            }
        }
        Ok(())
    }

    /// Whether the clause at the place is a bridge.
    fn is_bridge(&self, db: &Database<A>, place: usize) -> bool {
        for lit in db.clause(place) {
            if entry(&self.bridge, code_of(db, !*lit)) == entry_of(place) {
                return true;
            }
        }
        false
    }
}

/// The literal of the component that replaces the others: a frozen one if there is one, and of these the one with the
/// lowest code.
fn leader<A: Allocator + Copy>(db: &Database<A>, component: &[Lit]) -> Option<Lit> {
    let mut best = *component.first()?;
    for lit in component {
        let is_less = lit.code() < best.code() && db.is_frozen(*lit) == db.is_frozen(best);
        if is_less || (db.is_frozen(*lit) && !db.is_frozen(best)) {
            best = *lit;
        }
    }
    Some(best)
}

/// Derives the clause by which `from` implies the literal, from the clauses at the two places. Returns its place.
fn connect<A: Allocator + Copy>(
    db: &mut Database<A>,
    from: Lit,
    lit: Lit,
    way: usize,
    place: usize,
    lists: &mut Lists<A>,
) -> Result<Option<usize>, AllocError>
    ensures { OnOk result (IsLaterState db.old db.new) }
{
    lists.clause.clear();
    lists.clause.push(!from)?;
    if lit.code() != (!from).code() {
        lists.clause.push(lit)?;
    }
    lists.hints.clear();
    lists.hints.push(number_of(way))?;
    lists.hints.push(number_of(place))?;
    let made = db.len();
    if derive(db, &lists.clause, &lists.hints, &mut lists.falses)? {
        return Ok(Some(made));
    }
    Ok(None)
}

/// Derives that `from` implies what the literal implies by the clause at the place, if that is in the same component.
/// `from` implies the literal, or is it.
fn spread_by<A: Allocator + Copy>(
    db: &mut Database<A>,
    from: Lit,
    lit: Lit,
    place: usize,
    equal: &mut Equal<A>,
    lists: &mut Lists<A>,
) -> Result<(), AllocError>
    ensures { OnOk result (IsLaterState db.old db.new) }
{
    let Some(other) = lists.pairs.other(db, place, !lit) else {
        return Ok(());
    };
    if other.code() == from.code() || !equal.is_to_reach(db, other) {
        return Ok(());
    }
    if lit.code() == from.code() {
        equal.note_reached(db, other, place)?;
        return Ok(());
    }
    let way = entry(&equal.reach, code_of(db, lit)).saturating_sub(1);
    let Some(made) = connect(db, from, other, way as usize, place, lists)? else {
        return Ok(());
    };
    equal.note_reached(db, other, made)?;
    Ok(())
}

/// Derives that `from` implies what the literal implies by clauses of two, as far as that is in the same component.
fn spread<A: Allocator + Copy>(
    db: &mut Database<A>,
    from: Lit,
    lit: Lit,
    equal: &mut Equal<A>,
    lists: &mut Lists<A>,
) -> Result<(), AllocError>
    ensures { OnOk result (IsLaterState db.old db.new) }
{
    let count = place_count(db, !lit);
    for index in 0..count {
        let Some(place) = place_at(db, !lit, index) else {
            return Ok(());
        };
        spread_by(db, from, lit, place, equal, lists)?;
    }
    Ok(())
}

/// Derives the clauses by which the literal implies all others of its component, nearest first.
fn reach<A: Allocator + Copy>(
    db: &mut Database<A>,
    from: Lit,
    equal: &mut Equal<A>,
    limits: &mut Limits,
    lists: &mut Lists<A>,
) -> Result<(), AllocError>
    ensures { OnOk result (IsLaterState db.old db.new) }
{
    equal.queue.clear();
    equal.queue.push(from)?;
    let mut index: usize = 0;
    for _ in 0..u64::MAX {
        let Some(lit) = equal.queue.get(index) else {
            return Ok(());
        };
        let lit = *lit;
        if !limits.visit(place_count(db, !lit)) {
            return Ok(());
        }
        spread(db, from, lit, equal, lists)?;
        index = index.saturating_add(1);
    }
    Ok(())
}

/// Derives the clauses by which `by` implies the other literals of the component, and those by which they imply it. A
/// component with a literal and its opposite gives clauses of one literal.
fn reach_both<A: Allocator + Copy>(
    db: &mut Database<A>,
    component: &[Lit],
    by: Lit,
    equal: &mut Equal<A>,
    limits: &mut Limits,
    lists: &mut Lists<A>,
) -> Result<(), AllocError>
    ensures { OnOk result (IsLaterState db.old db.new) }
{
    if !equal.number_all(db, component, false) {
        return Ok(());
    }
    reach(db, by, equal, limits, lists)?;
    if !equal.number_all(db, component, true) {
        return Ok(());
    }
    reach(db, !by, equal, limits, lists)?;
    Ok(())
}

/// Derives the bridges of a component, unless its opposites are one that was met.
fn bridge_component<A: Allocator + Copy>(
    db: &mut Database<A>,
    component: &[Lit],
    equal: &mut Equal<A>,
    limits: &mut Limits,
    lists: &mut Lists<A>,
) -> Result<(), AllocError>
    ensures { OnOk result (IsLaterState db.old db.new) }
{
    let Some(by) = leader(db, component) else {
        return Ok(());
    };
    reach_both(db, component, by, equal, limits, lists)?;
    equal.note_replaced(db, component, by)?;
    equal.forget_reached(db, component);
    Ok(())
}

/// Derives the bridges of all components.
pub fn bridge_all<A: Allocator + Copy>(
    db: &mut Database<A>,
    components: &ClauseList<A>,
    equal: &mut Equal<A>,
    limits: &mut Limits,
    lists: &mut Lists<A>,
) -> Result<(), AllocError>
    ensures { OnOk result (IsLaterState db.old db.new) }
{
    for index in 0..components.len() {
        bridge_component(db, components.clause(index), equal, limits, lists)?;
    }
    Ok(())
}

/// Lists the literals of the clause at the place, each replaced, and the bridges to them and back. Returns false if
/// these literals are a tautology.
fn replace<A: Allocator + Copy>(
    db: &Database<A>,
    place: usize,
    equal: &Equal<A>,
    lists: &mut Lists<A>,
) -> Result<bool, AllocError> {
    let mut is_clause = true;
    lists.clause.clear();
    lists.hints.clear();
    lists.back.clear();
    for lit in db.clause(place) {
        let mut new = *lit;
        if let Some(target) = equal.target_of(db, *lit) {
            let there = entry(&equal.bridge, code_of(db, *lit));
            let back = entry(&equal.bridge, code_of(db, !*lit));
            lists.hints.push(there.saturating_sub(1))?;
            lists.back.push(back.saturating_sub(1))?;
            new = target;
        }
        match sign_of(&lists.clause, new) {
            Sign::Same => {}
            Sign::Opposite => is_clause = false,
            Sign::Absent => lists.clause.push(new)?,
        }
    }
    Ok(is_clause)
}

/// Derives the clause that is listed from the one at the place, which is removed.
fn exchange<A: Allocator + Copy>(
    db: &mut Database<A>,
    place: usize,
    lists: &mut Lists<A>,
) -> Result<(), AllocError>
    ensures { OnOk result (IsLaterState db.old db.new) }
{
    lists.hints.push(number_of(place))?;
    lists.back.push(number_of(db.len()))?;
    if !derive(db, &lists.clause, &lists.hints, &mut lists.falses)? {
        return Ok(());
    }
    let _ = retract(db, place, &lists.back, &mut lists.falses)?;
    Ok(())
}

/// Replaces literals of the clause at the place, unless it is a bridge or too long.
fn rewrite<A: Allocator + Copy>(
    db: &mut Database<A>,
    place: usize,
    equal: &Equal<A>,
    lists: &mut Lists<A>,
) -> Result<(), AllocError>
    ensures { OnOk result (IsLaterState db.old db.new) }
{
    if !db.is_live(place) || db.clause(place).len() > MOST_LITERALS || equal.is_bridge(db, place) {
        return Ok(());
    }
    if !replace(db, place, equal, lists)? {
        let _ = retract(db, place, &lists.back, &mut lists.falses)?;
        return Ok(());
    }
    if lists.hints.is_empty() {
        return Ok(());
    }
    exchange(db, place, lists)?;
    Ok(())
}

/// Replaces literals of the clauses with the literal.
fn rewrite_with<A: Allocator + Copy>(
    db: &mut Database<A>,
    lit: Lit,
    equal: &Equal<A>,
    lists: &mut Lists<A>,
) -> Result<(), AllocError>
    ensures { OnOk result (IsLaterState db.old db.new) }
{
    let count = place_count(db, lit);
    for index in 0..count {
        let Some(place) = place_at(db, lit, index) else {
            return Ok(());
        };
        rewrite(db, place, equal, lists)?;
    }
    Ok(())
}

/// Replaces literals of the clauses with the literal or its opposite.
fn rewrite_both<A: Allocator + Copy>(
    db: &mut Database<A>,
    lit: Lit,
    equal: &Equal<A>,
    lists: &mut Lists<A>,
) -> Result<(), AllocError>
    ensures { OnOk result (IsLaterState db.old db.new) }
{
    rewrite_with(db, lit, equal, lists)?;
    rewrite_with(db, !lit, equal, lists)?;
    Ok(())
}

/// Replaces all literals that are to be replaced, as long as clauses may be added and places looked at.
fn rewrite_all<A: Allocator + Copy>(
    db: &mut Database<A>,
    equal: &Equal<A>,
    limits: &mut Limits,
    lists: &mut Lists<A>,
) -> Result<(), AllocError>
    ensures { OnOk result (IsLaterState db.old db.new) }
{
    for lit in &equal.replaced {
        let count = place_count(db, *lit).saturating_add(place_count(db, !*lit));
        if limits.are_reached(db) || !limits.visit(count.saturating_mul(REWRITE_VISITS)) {
            return Ok(());
        }
        rewrite_both(db, *lit, equal, lists)?;
    }
    Ok(())
}

/// Resolves away the variables of the replaced literals.
fn eliminate_replaced<A: Allocator + Copy>(
    db: &mut Database<A>,
    equal: &Equal<A>,
    limits: &mut Limits,
    scratch: &mut Scratch<A>,
) -> Result<(), AllocError>
    ensures { OnOk result (IsLaterState db.old db.new) }
{
    for lit in &equal.replaced {
        let _ = eliminate(db, lit.var(), limits, scratch)?;
    }
    Ok(())
}

/// Replaces all literals that are to be replaced, and resolves their variables away.
pub fn replace_all<A: Allocator + Copy>(
    db: &mut Database<A>,
    equal: &Equal<A>,
    limits: &mut Limits,
    lists: &mut Lists<A>,
    scratch: &mut Scratch<A>,
) -> Result<(), AllocError>
    ensures { OnOk result (IsLaterState db.old db.new) }
{
    rewrite_all(db, equal, limits, lists)?;
    eliminate_replaced(db, equal, limits, scratch)?;
    Ok(())
}

/// Lists the variables of the clauses with the literal whose entries in `seen` are not `turn`.
fn list_variables<A: Allocator + Copy>(
    db: &Database<A>,
    lit: Lit,
    turn: u32,
    seen: &mut [u32],
    out: &mut Vec<Var, A>,
) -> Result<(), AllocError> {
    for index in 0..place_count(db, lit) {
        if let Some(place) = place_at(db, lit, index) {
            if db.is_live(place) && db.clause(place).len() <= MOST_LITERALS {
                for one in db.clause(place) {
                    let code = code_of(db, one.var().positive());
                    if entry(seen, code) != turn {
                        put(seen, code, turn);
                        out.push(one.var())?;
                    }
                }
            }
        }
    }
    Ok(())
}

/// Lists the variables of the clauses of literals that replace others. `turn` is a number that no entry of `seen` is.
pub fn neighbours<A: Allocator + Copy>(
    db: &Database<A>,
    equal: &Equal<A>,
    turn: u32,
    seen: &mut [u32],
    out: &mut Vec<Var, A>,
) -> Result<(), AllocError> {
    out.clear();
    for lit in &equal.replaced {
        if let Some(target) = equal.target_of(db, *lit) {
            let code = code_of(db, target.var().negative());
            if entry(seen, code) != turn {
                put(seen, code, turn);
                list_variables(db, target, turn, seen, out)?;
                list_variables(db, !target, turn, seen, out)?;
            }
        }
    }
    Ok(())
}
