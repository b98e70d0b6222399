//! What a clause makes of another one in a database.
ghost use Rattle.std.specs.Prelude.{◌≡◌, true, OnOk};
ghost use Rattle.varisat_rules.specs.inside.States.{IsLaterState};
ghost use Rattle.varisat_rules.specs.inside.Noting.{NotesPositions};
ghost use Rattle.varisat_rules.specs.inside.Resolving.{Compares};

use crate::positions::note_all;
use crate::resolve::{Relation, relation_of, without};
use std::alloc::{AllocError, Allocator};
use varisat_database::database::Database;
use varisat_database::names::ShortNames;
use varisat_literals::Lit;

/// A clause of more literals is compared with clauses of one literal alone.
pub const MOST_LITERALS: usize = 1000;

/// Where there are more pairs of literals, it is noted first where the literals of the one clause stand.
const MOST_PAIRS: usize = 256;

/// Whether the one clause may have all variables of the other, and they are not too long to be compared.
fn may_use<A: Allocator + Copy>(db: &Database<A>, place: usize, other: usize) -> bool {
    if (db.signature(place) & !db.signature(other)) != 0 {
        return false;
    }
    let length = db.clause(place).len();
    let other_length = db.clause(other).len();
    length <= other_length && (length <= 1 || other_length <= MOST_LITERALS)
}

/// Notes where the literals of the clause stand if the pairs with those of the other one are many. Returns whether it did.
fn note_if_long<A: Allocator + Copy>(
    clause: &[Lit],
    other: &[Lit],
    names: &ShortNames<A>,
    positions: &mut [u32],
) -> bool
    ensures { result ≡ true → NotesPositions names.now positions.new other.now }
{
    if other.len() > MOST_LITERALS {
        return false;
    }
    if clause.len().saturating_mul(other.len()) <= MOST_PAIRS {
        return false;
    }
    note_all(positions, names, other);
    true
}

/// What the clause at `place` makes of the one at `other`.
fn compare<A: Allocator + Copy>(
    db: &Database<A>,
    place: usize,
    other: usize,
    positions: &mut [u32],
) -> Relation
    ensures { Compares db.now place other result }
{
    if other == place {
        return Relation::Nothing;
    }
    if !db.is_live(other) {
        return Relation::Nothing;
    }
    if !db.is_live(place) {
        return Relation::Nothing;
    }
    if !may_use(db, place, other) {
        return Relation::Nothing;
    }
    let one = db.clause(place);
    let longer = db.clause(other);
    let names = db.names();
    let is_noted = note_if_long(one, longer, names, positions);
    relation_of(one, longer, is_noted, names, positions)
}

/// Uses the clause at `place` on the one at `other`. The positions are overwritten.
pub fn use_on<A: Allocator + Copy>(
    db: &mut Database<A>,
    place: usize,
    other: usize,
    positions: &mut [u32],
    scratch: &mut Vec<Lit, A>,
) -> Result<(), AllocError>
    ensures { OnOk result (IsLaterState db.old db.new) }
{
    match compare(db, place, other, positions) {
        Relation::Nothing => {}
        Relation::Subsumes => db.remove(other)?,
        Relation::Strengthens(lit) => {
            without(db.clause(other), !lit, scratch)?;
            db.push(scratch)?;
            db.remove(other)?;
        }
    }
    Ok(())
}
