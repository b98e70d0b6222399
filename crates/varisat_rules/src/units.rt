//! What clauses of one literal make of another one.
ghost use Rattle.std.specs.Prelude.{◌≡◌, OnOk, IsTrue};
ghost use Rattle.varisat_database.specs.Databases.{clause_at};
ghost use Rattle.varisat_rules.specs.inside.States.{IsLaterState};
ghost use Rattle.varisat_rules.specs.inside.Resolving.{IsLiveUnit, LeavesOutFalse};

use crate::resolve::holds;
use std::alloc::{AllocError, Allocator};
use varisat_database::database::Database;
use varisat_database::names::ShortNames;
use varisat_literals::Lit;

/// One more than the place that was noted for the literal, or 0.
pub fn noted<A: Allocator + Copy>(units: &[u32], names: &ShortNames<A>, lit: Lit) -> u32 {
    match units.get(names.of(lit).code()) {
        Some(entry) => *entry,
        None => 0,
    }
}

/// Whether a live clause has the literal alone, by the place that was noted.
fn is_fixed<A: Allocator + Copy>(db: &Database<A>, units: &[u32], lit: Lit) -> bool
    ensures { IsTrue result → IsLiveUnit db.now lit }
{
    let entry = noted(units, db.names(), lit);
    if entry == 0 {
        return false;
    }
    let place = entry as usize - 1;
    if !db.is_live(place) {
        return false;
    }
    let clause = db.clause(place);
    if clause.len() != 1 {
        return false;
    }
    holds(clause, lit)
}

/// The clause at the place without literals whose opposites are fixed.
fn without_false<A: Allocator + Copy>(
    db: &Database<A>,
    place: usize,
    units: &[u32],
    out: &mut Vec<Lit, A>,
) -> Result<(), AllocError>
    ensures { OnOk result (LeavesOutFalse db.now (clause_at db.now place) out.new.items) }
{
    out.clear();
    for lit in db.clause(place) {
        if !is_fixed(db, units, !*lit) {
            out.push(*lit)?;
        }
    }
    Ok(())
}

/// Takes from the clause at the place what is false.
pub fn shorten<A: Allocator + Copy>(
    db: &mut Database<A>,
    place: usize,
    units: &[u32],
    scratch: &mut Vec<Lit, A>,
) -> Result<(), AllocError>
    ensures { OnOk result (IsLaterState db.old db.new) }
{
    if !db.is_live(place) {
        return Ok(());
    }
    without_false(db, place, units, scratch)?;
    if scratch.len() >= db.clause(place).len() {
        return Ok(());
    }
    db.push(scratch)?;
    db.remove(place)?;
    Ok(())
}
