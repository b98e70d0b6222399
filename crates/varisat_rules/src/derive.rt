//! Clauses that follow from others by unit propagation. The caller guesses from which clauses, and in which order these
//! are read; here it is tested whether they lead to a conflict.
ghost use Rattle.std.specs.Prelude.{◌≡◌, OnOk, IfOk, IsTrue, MatchBool};
ghost use Rattle.varisat_theory.specs.promises.Membership.{◌∈◌};
ghost use Rattle.varisat_theory.specs.promises.Literals.{Literal};
ghost use Rattle.varisat_database.specs.Databases.{pushed, removed};
ghost use Rattle.varisat_rules.specs.inside.States.{IsLaterState};
ghost use Rattle.varisat_rules.specs.inside.Deriving.{Reads, ReadsAt, IsDerived, IsInLive};

use crate::resolve::holds;
use std::alloc::{AllocError, Allocator};
use varisat_database::database::Database;
use varisat_literals::Lit;

/// What a clause says if some literals are false.
#[derive(Clone, Copy)]
pub enum Reading {
    /// Nothing: two of its literals may be true.
    Silent,
    /// This literal is true.
    Implies(Lit),
    /// All of its literals are false.
    Conflict,
}

/// What the clause says if these literals are false.
fn read(clause: &[Lit], falses: &[Lit]) -> Reading
    ensures { Reads clause.now falses.now result }
{
    let mut left: Option<Lit> = None;
    for lit in clause {
        if !holds(falses, *lit) {
            if left.is_some() {
                return Reading::Silent;
            }
            left = Some(*lit);
        }
    }
    match left {
        None => Reading::Conflict,
        Some(lit) => Reading::Implies(lit),
    }
}

/// What the clause at the place says if these literals are false. It says nothing if it is not live or its place is
/// `but`.
fn read_at<A: Allocator + Copy>(
    db: &Database<A>,
    place: usize,
    but: usize,
    falses: &[Lit],
) -> Reading
    ensures { ReadsAt db.now place but falses.now result }
{
    if place == but {
        return Reading::Silent;
    }
    if !db.is_live(place) {
        return Reading::Silent;
    }
    read(db.clause(place), falses)
}

/// Whether the clauses at the places, without the one at `but`, lead to a conflict if the literals of the clause are
/// false. They are read once, in the order of the places. `falses` is overwritten.
fn follows<A: Allocator + Copy>(
    db: &Database<A>,
    clause: &[Lit],
    hints: &[u32],
    but: usize,
    falses: &mut Vec<Lit, A>,
) -> Result<bool, AllocError>
    ensures { IfOk result (λ b. IsTrue b → IsDerived db.now but clause.now) }
{
    falses.clear();
    falses.extend_from_slice(clause)?;
    for place in hints {
        match read_at(db, *place as usize, but, falses) {
            Reading::Silent => {}
            Reading::Implies(lit) => falses.push(!lit)?,
            Reading::Conflict => return Ok(true),
        }
    }
    Ok(false)
}

/// Whether a live clause at one of the places has the literal.
fn is_among<A: Allocator + Copy>(db: &Database<A>, lit: Lit, hints: &[u32]) -> bool
    ensures { IsTrue result → IsInLive db.now lit }
{
    for place in hints {
        let place = *place as usize;
        if db.is_live(place) && holds(db.clause(place), lit) {
            return true;
        }
    }
    false
}

/// Whether each literal of the clause is in a live clause at one of the places, so that none is new.
fn are_among<A: Allocator + Copy>(db: &Database<A>, clause: &[Lit], hints: &[u32]) -> bool
    ensures { IsTrue result → (m : Literal) → m ∈ clause.now → IsInLive db.now m }
{
    for lit in clause {
        if !is_among(db, *lit, hints) {
            return false;
        }
    }
    true
}

/// Adds the clause if it follows by unit propagation from the clauses at the places (the *hints*), read once in this
/// order, and these have all of its literals. Returns whether it was added; if not, nothing changes. `falses` is
/// overwritten. The only error is out of memory.
pub fn derive<A: Allocator + Copy>(
    db: &mut Database<A>,
    clause: &[Lit],
    hints: &[u32],
    falses: &mut Vec<Lit, A>,
) -> Result<bool, AllocError>
    ensures later { OnOk result (IsLaterState db.old db.new) }
    ensures adds { IfOk result (λ b. MatchBool b (db.new ≡ pushed db.old clause.now) (db.new ≡ db.old)) }
{
    let none = db.len();
    if !follows(db, clause, hints, none, falses)? {
        return Ok(false);
    }
    if !are_among(db, clause, hints) {
        return Ok(false);
    }
    db.push(clause)?;
    Ok(true)
}

/// Removes the clause at the place if it follows by unit propagation from other clauses, those at the places of
/// `hints`, read once in this order. Returns whether it was removed; if not, nothing changes. `falses` is overwritten.
/// The only error is out of memory.
pub fn retract<A: Allocator + Copy>(
    db: &mut Database<A>,
    place: usize,
    hints: &[u32],
    falses: &mut Vec<Lit, A>,
) -> Result<bool, AllocError>
    ensures later { OnOk result (IsLaterState db.old db.new) }
    ensures removes { IfOk result (λ b. MatchBool b (db.new ≡ removed db.old place) (db.new ≡ db.old)) }
{
    if !follows(db, db.clause(place), hints, place, falses)? {
        return Ok(false);
    }
    db.remove(place)?;
    Ok(true)
}
