//! Backward subsumption: what a clause makes of the others.
ghost use Rattle.std.specs.Prelude.{OnOk};
ghost use Rattle.varisat_rules.specs.inside.States.{IsLaterState};

use crate::eliminate::Scratch;
use crate::limits::Limits;
use crate::tables::{place_at, place_count};
use std::alloc::{AllocError, Allocator};
use varisat_database::database::Database;
use varisat_literals::Lit;
use varisat_rules::subsume::{MOST_LITERALS, use_on};

/// No literal in more clauses is looked through, but for a clause of one literal.
const MOST_PLACES: usize = 1000;

/// The literal of the clause whose variable stands in the fewest clauses.
fn rarest<A: Allocator + Copy>(db: &Database<A>, clause: &[Lit]) -> Option<Lit> {
    let mut best = *clause.first()?;
    let mut least = usize::MAX;
    for lit in clause {
        let count = db.count(*lit).saturating_add(db.count(!*lit));
        if count < least {
            least = count;
            best = *lit;
        }
    }
    Some(best)
}

/// Takes off the limits what comparing the clauses takes. Returns whether they may be: clauses of one literal always are,
/// as long as clauses may be added.
fn is_within<A: Allocator + Copy>(
    db: &Database<A>,
    place: usize,
    other: usize,
    limits: &mut Limits,
) -> bool {
    let length = db.clause(place).len();
    limits.compare(length.saturating_add(db.clause(other).len()));
    (length <= 1 || limits.comparisons > 0) && !limits.are_reached(db)
}

/// Uses the clause at `place` on those with the literal, within the limits.
fn use_along<A: Allocator + Copy>(
    db: &mut Database<A>,
    place: usize,
    lit: Lit,
    limits: &mut Limits,
    scratch: &mut Scratch<A>,
) -> Result<(), AllocError>
    ensures { OnOk result (IsLaterState db.old db.new) }
{
    db.tidy(lit);
    let count = place_count(db, lit);
    limits.compare(count);
    let bits = db.signature(place);
    let mut first: usize = 0;
    for _ in 0..count {
        let Some(index) = db.find_place(lit, first, bits) else {
            return Ok(());
        };
        if index >= count {
            return Ok(());
        }
        let Some(other) = place_at(db, lit, index) else {
            return Ok(());
        };
        if !is_within(db, place, other, limits) {
            return Ok(());
        }
        use_on(
            db,
            place,
            other,
            &mut scratch.positions,
            &mut scratch.literals,
        )?;
        first = index.saturating_add(1);
    }
    Ok(())
}

/// The literal by which the clause at the place is used, if it is live and neither it nor the literal's list is too long.
/// Where the limits are reached only clauses of one literal are used, and none where no clause may be added.
fn way_of<A: Allocator + Copy>(db: &Database<A>, place: usize, limits: &Limits) -> Option<Lit> {
    if !db.is_live(place) || limits.are_reached(db) {
        return None;
    }
    let clause = db.clause(place);
    if clause.len() > MOST_LITERALS || (clause.len() > 1 && limits.comparisons == 0) {
        return None;
    }
    let lit = rarest(db, clause)?;
    if clause.len() > 1 && db.count(lit).saturating_add(db.count(!lit)) > MOST_PLACES {
        return None;
    }
    Some(lit)
}

/// Uses the clause at the place on all others, if it is live.
fn subsume_with<A: Allocator + Copy>(
    db: &mut Database<A>,
    place: usize,
    limits: &mut Limits,
    scratch: &mut Scratch<A>,
) -> Result<(), AllocError>
    ensures { OnOk result (IsLaterState db.old db.new) }
{
    let Some(lit) = way_of(db, place, limits) else {
        return Ok(());
    };
    use_along(db, place, lit, limits, scratch)?;
    use_along(db, place, !lit, limits, scratch)?;
    Ok(())
}

/// Uses each clause from the place on, those that are added meanwhile too, until the part's work is done. Returns the first
/// place that is left, or that after the last one.
pub fn subsume_from<A: Allocator + Copy>(
    db: &mut Database<A>,
    first: usize,
    limits: &mut Limits,
    scratch: &mut Scratch<A>,
) -> Result<usize, AllocError>
    ensures { OnOk result (IsLaterState db.old db.new) }
{
    let mut place = first;
    for _ in 0..u64::MAX {
        if place >= db.len() || limits.is_part_done() {
            return Ok(place);
        }
        subsume_with(db, place, limits, scratch)?;
        place += 1;
    }
    Ok(place)
}
