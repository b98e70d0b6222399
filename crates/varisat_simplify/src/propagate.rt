//! Unit propagation before clauses are listed by their literals: passes over all of them.
ghost use Rattle.std.specs.Prelude.{OnOk};
ghost use Rattle.varisat_rules.specs.inside.States.{IsLaterState};

use crate::limits::Limits;
use std::alloc::{AllocError, Allocator};
use varisat_database::database::{Database, filled};
use varisat_database::names::ShortNames;
use varisat_database::occurrences::count_at;
use varisat_literals::Lit;
use varisat_rules::subsume::use_on;
use varisat_rules::units::{noted, shorten};

/// How often the clauses are gone through at most.
const MOST_PASSES: usize = 4;

/// Notes the place of a clause of one literal for which none was noted. Returns whether it did.
fn note_unit<A: Allocator + Copy>(
    units: &mut [u32],
    names: &ShortNames<A>,
    clause: &[Lit],
    place: usize,
) -> bool {
    let [lit] = clause else {
        return false;
    };
    let Some(entry) = units.get_mut(names.of(*lit).code()) else {
        return false;
    };
    if *entry != 0 || place >= 0xffff_ffff {
        return false;
    }
    *entry = place as u32 + 1;
    true
}

/// Whether a place was noted for a literal of the clause or its opposite.
fn meets_unit<A: Allocator + Copy>(units: &[u32], names: &ShortNames<A>, clause: &[Lit]) -> bool {
    for lit in clause {
        let short = names.of(*lit);
        if count_at(units, short) != 0 || count_at(units, !short) != 0 {
            return true;
        }
    }
    false
}

/// The place that was noted for the first literal of the clause for which one was.
fn satisfied_by<A: Allocator + Copy>(
    units: &[u32],
    names: &ShortNames<A>,
    clause: &[Lit],
) -> Option<usize> {
    for lit in clause {
        let entry = noted(units, names, *lit);
        if entry != 0 {
            return Some(entry as usize - 1);
        }
    }
    None
}

/// Uses on the clause at the place what was noted.
fn use_noted<A: Allocator + Copy>(
    db: &mut Database<A>,
    place: usize,
    units: &[u32],
    scratch: &mut Vec<Lit, A>,
) -> Result<(), AllocError>
    ensures { OnOk result (IsLaterState db.old db.new) }
{
    match satisfied_by(units, db.names(), db.clause(place)) {
        Some(unit) => use_on(db, unit, place, &mut [], scratch),
        None => shorten(db, place, units, scratch),
    }
}

/// Notes the last clause, which the one before may have become, if it is live and has one literal. Returns whether it did.
fn note_last<A: Allocator + Copy>(db: &Database<A>, units: &mut [u32]) -> bool {
    let place = db.len().saturating_sub(1);
    db.is_live(place) && note_unit(units, db.names(), db.clause(place), place)
}

/// Notes the clause at the place, or uses on it what was noted, and notes what it becomes. Returns whether one was noted.
fn use_or_note<A: Allocator + Copy>(
    db: &mut Database<A>,
    place: usize,
    units: &mut [u32],
    scratch: &mut Vec<Lit, A>,
) -> Result<bool, AllocError>
    ensures { OnOk result (IsLaterState db.old db.new) }
{
    if !db.is_live(place) {
        return Ok(false);
    }
    let clause = db.clause(place);
    if note_unit(units, db.names(), clause, place) {
        return Ok(true);
    }
    if !meets_unit(units, db.names(), clause) {
        return Ok(false);
    }
    use_noted(db, place, units, scratch)?;
    Ok(note_last(db, units))
}

/// Goes through the clauses that are there, as long as clauses may be added. Returns whether one was noted.
fn pass<A: Allocator + Copy>(
    db: &mut Database<A>,
    units: &mut [u32],
    limits: &Limits,
    scratch: &mut Vec<Lit, A>,
) -> Result<bool, AllocError>
    ensures { OnOk result (IsLaterState db.old db.new) }
{
    let mut is_noted = false;
    for place in 0..db.len() {
        if limits.are_reached(db) {
            return Ok(false);
        }
        let is_new = use_or_note(db, place, units, scratch)?;
        is_noted = is_noted || is_new;
    }
    Ok(is_noted)
}

/// Notes each clause of one literal. Returns whether there is one.
fn note_all<A: Allocator + Copy>(db: &Database<A>, units: &mut [u32]) -> bool {
    let mut is_noted = false;
    for place in 0..db.len() {
        if db.is_live(place) && note_unit(units, db.names(), db.clause(place), place) {
            is_noted = true;
        }
    }
    is_noted
}

/// Uses each clause of one literal on the others, until none is new, for so many passes, or as long as clauses may be added.
pub fn propagate<A: Allocator + Copy>(
    db: &mut Database<A>,
    alloc: A,
    limits: &Limits,
    scratch: &mut Vec<Lit, A>,
) -> Result<(), AllocError>
    ensures { OnOk result (IsLaterState db.old db.new) }
{
    let count = db.names().len().saturating_mul(2);
    let mut units = filled(alloc, count, 0u32)?;
    if !note_all(db, &mut units) {
        return Ok(());
    }
    for _ in 0..MOST_PASSES {
        if !pass(db, &mut units, limits, scratch)? {
            return Ok(());
        }
    }
    Ok(())
}
