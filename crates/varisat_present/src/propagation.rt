//! Unit propagation over present clauses. A guide leads to the clauses to look at. Before it is said that nothing is left
//! to propagate all clauses are passed.
ghost use Rattle.std.specs.Prelude.{◌≡◌, ◌<◌, ℕ, length, IfOk, false};
ghost use Rattle.varisat_theory.specs.promises.Membership.{◌∈◌};
ghost use Rattle.varisat_theory.specs.promises.Literals.{opposite};
ghost use Rattle.varisat_theory.specs.promises.Propagation.{HasClash};
ghost use Rattle.varisat_present.specs.Places.{present};
ghost use Rattle.varisat_present.specs.Pairs.{HaveLiterals};
ghost use Rattle.varisat_present.specs.Knowing.{FindsConflict, Saturates, Passes, TakesBase, IsPassed};

use crate::clause::status_of;
use crate::guide::Guide;
use crate::known::Known;
use crate::pairs::is_quiet_at;
use crate::places::clause_at;
use std::alloc::{AllocError, Allocator};
use varisat_literals::Lit;
use varisat_plain::propagation::ClauseStatus;

/// Takes what the clause leaves as known. Returns whether the clause is false.
fn pass_clause<A: Allocator + Copy>(
    known: &mut Known<A>,
    clause: &[Lit],
) -> Result<bool, AllocError>
    ensures { IfOk result (λ found. IsPassed clause.now known.old found known.new) }
{
    match status_of(known, clause) {
        ClauseStatus::False => Ok(true),
        ClauseStatus::Leaves(code) => {
            let left = Lit::from_code(code as usize);
            if known.holds(left) {
                return Ok(false);
            }
            known.push(left)?;
            Ok(false)
        }
        ClauseStatus::Open => Ok(false),
    }
}

/// Looks at the clauses at these places, in turn. Returns whether one is false.
fn follow<A: Allocator + Copy>(
    places: &[Option<Vec<Lit, A>>],
    known: &mut Known<A>,
    way: &[u32],
) -> Result<bool, AllocError>
    requires { HasClash known.old → ⊥ }
    ensures { IfOk result (λ found. FindsConflict (present places.now) known.old found known.new) }
{
    for place in way {
        let clause = match clause_at(places, *place as usize) {
            None => continue,
            Some(clause) => clause,
        };
        let is_false = pass_clause(known, clause)?;
        if is_false {
            return Ok(true);
        }
    }
    Ok(false)
}

/// Propagates the known literals from this place on, as far as the guide leads.
pub fn propagate<A: Allocator + Copy>(
    places: &[Option<Vec<Lit, A>>],
    known: &mut Known<A>,
    guide: &mut Guide<A>,
    first: usize,
) -> Result<bool, AllocError>
    requires { HasClash known.old → ⊥ }
    ensures { IfOk result (λ found. FindsConflict (present places.now) known.old found known.new) }
{
    guide.lead(known, first)?;
    let found = follow(places, known, guide.way())?;
    Ok(found)
}

/// Passes all clauses once, but for those of which two literals tell that nothing is to be propagated. Returns whether one is
/// false.
fn pass<A: Allocator + Copy>(
    places: &[Option<Vec<Lit, A>>],
    known: &mut Known<A>,
    ones: &[Lit],
    others: &[Lit],
) -> Result<bool, AllocError>
    requires no_clash { HasClash known.old → ⊥ }
    requires ones { HaveLiterals places.now ones.now }
    requires others { HaveLiterals places.now others.now }
    ensures { IfOk result (λ found. Passes (present places.now) known.old found known.new) }
{
    for place in 0..places.len() {
        if is_quiet_at(known, ones, others, place) {
            continue;
        }
        let clause = match clause_at(places, place) {
            None => continue,
            Some(clause) => clause,
        };
        let is_false = pass_clause(known, clause)?;
        if is_false {
            return Ok(true);
        }
    }
    Ok(false)
}

/// Passes the newest clause, and propagates what it leaves as far as the guide leads. Returns whether a clause is false.
fn take_newest<A: Allocator + Copy>(
    places: &[Option<Vec<Lit, A>>],
    known: &mut Known<A>,
    guide: &mut Guide<A>,
) -> Result<bool, AllocError>
    requires { HasClash known.old → ⊥ }
    ensures { IfOk result (λ found. FindsConflict (present places.now) known.old found known.new) }
{
    let count = known.len();
    let clause = match clause_at(places, places.len().saturating_sub(1)) {
        None => return Ok(false),
        Some(clause) => clause,
    };
    let is_false = pass_clause(known, clause)?;
    if is_false {
        return Ok(true);
    }
    let found = propagate(places, known, guide, count)?;
    Ok(found)
}

/// Propagates to the end. The known literals were propagated already, as far as the guide leads. Returns whether a clause
/// is false.
pub fn saturate<A: Allocator + Copy>(
    places: &[Option<Vec<Lit, A>>],
    known: &mut Known<A>,
    guide: &mut Guide<A>,
    ones: &[Lit],
    others: &[Lit],
) -> Result<bool, AllocError>
    requires no_clash { HasClash known.old → ⊥ }
    requires ones { HaveLiterals places.now ones.now }
    requires others { HaveLiterals places.now others.now }
    ensures { IfOk result (λ found. Saturates (present places.now) known.old found known.new) }
{
    let is_refuted = take_newest(places, known, guide)?;
    if is_refuted {
        return Ok(true);
    }
    'rounds: loop {
        let count = known.len();
        let is_false = pass(places, known, ones, others)?;
        if is_false {
            return Ok(true);
        }
        if known.len() == count {
            return Ok(false);
        }
        let found = propagate(places, known, guide, count)?;
        if found {
            return Ok(true);
        }
    }
}

/// Takes the literals as known. Returns whether one is false.
pub fn assume<A: Allocator + Copy>(known: &mut Known<A>, base: &[Lit]) -> Result<bool, AllocError>
    requires { HasClash known.old → ⊥ }
    ensures { IfOk result (λ clashes. TakesBase known.old base.now clashes known.new) }
{
    for l in base {
        if known.is_false(*l) {
            return Ok(true);
        }
        if known.holds(*l) {
            continue;
        }
        known.push(*l)?;
    }
    Ok(false)
}
