//! A variable that is resolved away.
ghost use Rattle.std.specs.Prelude.{◌≡◌, ℕ, ◌/◌, ◌<◌, ◌≤◌, true, false, ◌∷◌, length, OnOk, OnErr, IfOk, IsTrue};
ghost use Rattle.varisat_theory.specs.promises.Membership.{◌∈◌};
ghost use Rattle.varisat_theory.specs.promises.Literals.{opposite, variable_of};
ghost use Rattle.varisat_database.specs.Databases.{IsLive, clause_at, removed, saved};
ghost use Rattle.varisat_rules.specs.inside.States.{IsThawed, Occurs, IsGone, Continues, IsLaterState, SavesLed, Collects, ResolvesPairs, SavesClauses};

use crate::resolve::{holds, resolve};
use std::alloc::{AllocError, Allocator};
use varisat_database::database::Database;
use varisat_literals::Lit;

/// A variable stays that has more clauses of both signs.
const MOST_CLAUSES: usize = 30;

/// A variable stays that has more pairs of clauses.
const MOST_PAIRS: usize = 1000;

/// Lists the live clauses that have the literal. False if one has its opposite too.
pub fn collect<A: Allocator + Copy>(
    db: &Database<A>,
    lit: Lit,
    out: &mut Vec<u32, A>,
) -> Result<bool, AllocError>
    ensures { IfOk result (λ b. IsTrue b → Collects db.now lit out.new.items) }
{
    out.clear();
    let Some(places) = db.places(lit) else {
        return Ok(false);
    };
    for place in places {
        if db.is_live(*place as usize) {
            let clause = db.clause(*place as usize);
            if holds(clause, lit) {
                if holds(clause, !lit) {
                    return Ok(false);
                }
                out.push(*place)?;
            }
        }
    }
    Ok(true)
}

/// Adds the resolvents.
fn add_resolvents<A: Allocator + Copy>(
    db: &mut Database<A>,
    lit: Lit,
    with: &[u32],
    against: &[u32],
    literals: &mut Vec<Lit, A>,
) -> Result<(), AllocError>
    requires with { Collects db.old lit with.now }
    requires against { Collects db.old (opposite lit) against.now }
    ensures becomes { IsLaterState db.old db.new }
    ensures adds { OnOk result (ResolvesPairs db.old db.new lit with.now against.now (length with.now) 0) }
{
    'rows: for one in with {
        'pairs: for other in against {
            if resolve(
                db.clause(*one as usize),
                db.clause(*other as usize),
                lit,
                literals,
            )? {
                db.push(literals)?;
            }
        }
    }
    Ok(())
}

/// Saves a clause with the literal in front, and removes it.
fn save_one<A: Allocator + Copy>(
    db: &mut Database<A>,
    lit: Lit,
    place: usize,
) -> Result<(), AllocError>
    ensures { OnOk result (db.new ≡ removed (saved db.old (lit ∷ clause_at db.old place)) place) }
{
    db.save_led(lit, place)?;
    db.remove(place)?;
    Ok(())
}

/// Saves and removes the clauses with the literal.
fn save_all<A: Allocator + Copy>(
    db: &mut Database<A>,
    lit: Lit,
    with: &[u32],
    against: &[u32],
) -> Result<(), AllocError>
    requires small { variable_of lit < db.old.var_count }
    requires thawed { IsThawed db.old lit }
    requires saves { SavesClauses db.old db.old lit with.now against.now 0 }
    ensures becomes { OnOk result (Continues db.old db.new) }
    ensures led { OnOk result (SavesLed db.old db.new lit) }
    ensures pure { OnOk result ((k : ℕ) → IsLive db.new k → lit ∈ clause_at db.new k → ⊥) }
    ensures rest { OnOk result (Collects db.new (opposite lit) against.now) }
{
    for place in with {
        save_one(db, lit, *place as usize)?;
    }
    Ok(())
}

/// Saves the literal as a unit, which makes it true, and removes the clauses with it. No clause has its opposite.
fn save_literal<A: Allocator + Copy>(
    db: &mut Database<A>,
    lit: Lit,
    places: &[u32],
) -> Result<(), AllocError>
    requires small { variable_of lit < db.old.var_count }
    requires thawed { IsThawed db.old lit }
    requires one { db.old.saves_both ≡ false }
    requires occurs { Occurs db.old lit }
    requires pure { (k : ℕ) → IsLive db.old k → opposite lit ∈ clause_at db.old k → ⊥ }
    requires with { Collects db.old lit places.now }
    ensures becomes { OnOk result (Continues db.old db.new) }
    ensures led { OnOk result (SavesLed db.old db.new lit) }
    ensures gone { OnOk result (IsGone db.new (variable_of lit)) }
{
    db.save(&[lit])?;
    for place in places {
        db.remove(*place as usize)?;
    }
    Ok(())
}

/// Saves and removes the clauses with the literal, whose opposite no clause has: all of them if the variable is to be
/// restored at need, else the literal as a unit in their place, which makes it true.
fn save_others<A: Allocator + Copy>(
    db: &mut Database<A>,
    lit: Lit,
    places: &[u32],
) -> Result<(), AllocError>
    requires small { variable_of lit < db.old.var_count }
    requires thawed { IsThawed db.old lit }
    requires occurs { Occurs db.old lit }
    requires pure { (k : ℕ) → IsLive db.old k → opposite lit ∈ clause_at db.old k → ⊥ }
    requires with { Collects db.old lit places.now }
    ensures becomes { OnOk result (Continues db.old db.new) }
    ensures led { OnOk result (SavesLed db.old db.new lit) }
    ensures gone { OnOk result (IsGone db.new (variable_of lit)) }
{
    if db.saves_both() {
        save_all(db, lit, places, &[])?;
        return Ok(());
    }
    save_literal(db, lit, places)?;
    Ok(())
}

/// Whether the literal's variable is there, is not frozen and stands in few clauses.
pub fn may_go<A: Allocator + Copy>(db: &Database<A>, lit: Lit) -> bool
    ensures small { IsTrue result → variable_of lit < db.now.var_count }
    ensures thawed { IsTrue result → IsThawed db.now lit }
{
    if lit.index() >= db.var_count() || db.is_frozen(lit) {
        return false;
    }
    let count = db.count(lit);
    count <= MOST_CLAUSES && count.saturating_mul(db.count(!lit)) <= MOST_PAIRS
}

/// Adds the resolvents, and saves and removes the clauses that were resolved. Without any, nothing is saved: the
/// formula need not have the variable.
pub fn resolve_away<A: Allocator + Copy>(
    db: &mut Database<A>,
    lit: Lit,
    with: &[u32],
    against: &[u32],
    literals: &mut Vec<Lit, A>,
) -> Result<(), AllocError>
    requires small { variable_of lit < db.old.var_count }
    requires thawed { IsThawed db.old lit }
    requires with { Collects db.old lit with.now }
    requires against { Collects db.old (opposite lit) against.now }
    ensures { OnOk result (IsLaterState db.old db.new) }
{
    if with.is_empty() && against.is_empty() {
        return Ok(());
    }
    add_resolvents(db, lit, with, against, literals)?;
    save_all(db, lit, with, against)?;
    save_others(db, !lit, against)?;
    Ok(())
}
