//! The rounds in which equal and failed literals are found before variables are eliminated.
ghost use Rattle.std.specs.Prelude.{OnOk};
ghost use Rattle.varisat_rules.specs.inside.States.{IsLaterState};

use crate::components::components;
use crate::congruence::merge_all;
use crate::eliminate::Scratch;
use crate::equal::{Equal, bridge_all, neighbours, replace_all};
use crate::gates::Gates;
use crate::limits::Limits;
use crate::probe::{Probe, roots, try_literal};
use crate::subsume::subsume_from;
use crate::tables::{Lists, by_literal, variables_of};
use std::alloc::{AllocError, Allocator};
use varisat_database::database::Database;
use varisat_literals::{Lit, Var};

/// How many rounds there are at most, and how often components are looked for in each.
const MOST_ROUNDS: usize = 4;

/// How often gates are compared at most in each round.
const MOST_TURNS: usize = 100;

/// Gates are compared again if the output of more than one of so many variables was replaced.
const TURN_SHARE: usize = 5000;

/// There is another round if more than one of so many variables was replaced or fixed, without the first ones.
const ROUND_SHARE: usize = 10;

/// So many variables count for nothing there: small formulas are looked through until nothing is found.
const FIRST_VARIABLES: usize = 5000;

/// How many replaced or fixed variables are too few for another round.
fn few(variables: &[Var]) -> usize {
    variables.len().saturating_sub(FIRST_VARIABLES) / ROUND_SHARE
}

/// Uses on others the clauses that were added since, and notes those of two literals.
fn use_new<A: Allocator + Copy>(
    db: &mut Database<A>,
    limits: &mut Limits,
    lists: &mut Lists<A>,
    scratch: &mut Scratch<A>,
) -> Result<(), AllocError>
    ensures { OnOk result (IsLaterState db.old db.new) }
{
    let used = subsume_from(db, lists.used, limits, scratch)?;
    lists.used = used;
    lists.pairs.note_new(db)?;
    Ok(())
}

/// Replaces the literals that were found equal. Returns how many were replaced.
fn use_equal<A: Allocator + Copy>(
    db: &mut Database<A>,
    equal: &mut Equal<A>,
    limits: &mut Limits,
    lists: &mut Lists<A>,
    scratch: &mut Scratch<A>,
) -> Result<usize, AllocError>
    ensures { OnOk result (IsLaterState db.old db.new) }
{
    replace_all(db, equal, limits, lists, scratch)?;
    use_new(db, limits, lists, scratch)?;
    Ok(equal.replaced.len())
}

/// Replaces literals that imply each other by clauses of two literals. Returns how many were replaced.
fn equate_found<A: Allocator + Copy>(
    db: &mut Database<A>,
    alloc: A,
    variables: &[Var],
    equal: &mut Equal<A>,
    limits: &mut Limits,
    lists: &mut Lists<A>,
    scratch: &mut Scratch<A>,
) -> Result<usize, AllocError>
    ensures { OnOk result (IsLaterState db.old db.new) }
{
    let found = components(db, &lists.pairs, alloc, variables, limits)?;
    if found.len() == 0 {
        return Ok(0);
    }
    equal.clear(db);
    bridge_all(db, &found, equal, limits, lists)?;
    let count = use_equal(db, equal, limits, lists, scratch)?;
    Ok(count)
}

/// Replaces literals that imply each other by clauses of two literals, again and again until few are found. Returns how
/// many were replaced.
fn equate_components<A: Allocator + Copy>(
    db: &mut Database<A>,
    alloc: A,
    variables: &[Var],
    equal: &mut Equal<A>,
    limits: &mut Limits,
    lists: &mut Lists<A>,
    scratch: &mut Scratch<A>,
) -> Result<usize, AllocError>
    ensures { OnOk result (IsLaterState db.old db.new) }
{
    let mut count: usize = 0;
    let mut is_done = false;
    for _ in 0..MOST_ROUNDS {
        if is_done {
            return Ok(count);
        }
        let more = equate_found(db, alloc, variables, equal, limits, lists, scratch)?;
        count = count.saturating_add(more);
        is_done = more <= few(variables);
    }
    Ok(count)
}

/// Adds the gates of which these variables are outputs.
fn find_gates<A: Allocator + Copy>(
    db: &Database<A>,
    variables: &[Var],
    gates: &mut Gates<A>,
    limits: &mut Limits,
    lists: &Lists<A>,
) -> Result<(), AllocError> {
    for var in variables {
        gates.find(db, &lists.pairs, *var, limits)?;
    }
    gates.sort();
    Ok(())
}

/// Replaces outputs of equal gates, and finds those gates anew whose inputs were replaced. Returns how many outputs
/// were replaced.
fn equate_outputs<A: Allocator + Copy>(
    db: &mut Database<A>,
    turn: u32,
    gates: &mut Gates<A>,
    seen: &mut [u32],
    near: &mut Vec<Var, A>,
    equal: &mut Equal<A>,
    limits: &mut Limits,
    lists: &mut Lists<A>,
    scratch: &mut Scratch<A>,
) -> Result<usize, AllocError>
    ensures { OnOk result (IsLaterState db.old db.new) }
{
    equal.clear(db);
    merge_all(db, gates, limits, equal, lists)?;
    let count = use_equal(db, equal, limits, lists, scratch)?;
    neighbours(db, equal, turn, seen, near)?;
    find_gates(db, near, gates, limits, lists)?;
    Ok(count)
}

/// Replaces outputs of equal gates, again and again until few are found. Returns how many were replaced.
fn equate_gates<A: Allocator + Copy>(
    db: &mut Database<A>,
    alloc: A,
    variables: &[Var],
    equal: &mut Equal<A>,
    limits: &mut Limits,
    lists: &mut Lists<A>,
    scratch: &mut Scratch<A>,
) -> Result<usize, AllocError>
    ensures { OnOk result (IsLaterState db.old db.new) }
{
    let mut gates = Gates::new_in(alloc, db)?;
    find_gates(db, variables, &mut gates, limits, lists)?;
    let mut seen = by_literal(alloc, db)?;
    let mut near = Vec::new(alloc);
    let mut count: usize = 0;
    let mut turn: u32 = 0;
    let mut is_done = false;
    for _ in 0..MOST_TURNS {
        if is_done {
            return Ok(count);
        }
        turn = turn.saturating_add(1);
        let more = equate_outputs(
            db, turn, &mut gates, &mut seen, &mut near, equal, limits, lists, scratch,
        )?;
        count = count.saturating_add(more);
        is_done = more <= variables.len() / TURN_SHARE;
    }
    Ok(count)
}

/// Tries the literal if places may be looked at, and uses on others what was derived. Counts it if it failed.
fn probe_one<A: Allocator + Copy>(
    db: &mut Database<A>,
    lit: Lit,
    probe: &mut Probe<A>,
    number: &mut u32,
    limits: &mut Limits,
    lists: &mut Lists<A>,
    scratch: &mut Scratch<A>,
) -> Result<(), AllocError>
    ensures { OnOk result (IsLaterState db.old db.new) }
{
    if limits.probes == 0 || limits.are_reached(db) {
        return Ok(());
    }
    if !try_literal(db, lit, probe, *number, limits, lists)? {
        return Ok(());
    }
    *number = number.saturating_add(1);
    use_new(db, limits, lists, scratch)?;
    Ok(())
}

/// Tries each root. Returns how many failed.
fn probe_all<A: Allocator + Copy>(
    db: &mut Database<A>,
    alloc: A,
    variables: &[Var],
    limits: &mut Limits,
    lists: &mut Lists<A>,
    scratch: &mut Scratch<A>,
) -> Result<usize, AllocError>
    ensures { OnOk result (IsLaterState db.old db.new) }
{
    let tried = roots(db, &lists.pairs, alloc, variables)?;
    let mut probe = Probe::new_in(alloc, db)?;
    let mut number: u32 = 1;
    for lit in &tried {
        probe_one(db, *lit, &mut probe, &mut number, limits, lists, scratch)?;
    }
    Ok((number as usize).saturating_sub(1))
}

/// Finds equal and failed literals once. Returns whether they are too few for another round.
fn equate_once<A: Allocator + Copy>(
    db: &mut Database<A>,
    alloc: A,
    equal: &mut Equal<A>,
    limits: &mut Limits,
    lists: &mut Lists<A>,
    scratch: &mut Scratch<A>,
) -> Result<bool, AllocError>
    ensures { OnOk result (IsLaterState db.old db.new) }
{
    let variables = variables_of(db, alloc)?;
    let one = equate_components(db, alloc, &variables, equal, limits, lists, scratch)?;
    let two = equate_gates(db, alloc, &variables, equal, limits, lists, scratch)?;
    let three = probe_all(db, alloc, &variables, limits, lists, scratch)?;
    let count = one.saturating_add(two).saturating_add(three);
    Ok(count <= few(&variables) || limits.visits == 0)
}

/// Finds equal and failed literals until there are few, for so many rounds or within the limits, if there are clauses
/// of two literals. All clauses in front of the place `used` were used on others. Returns the place behind the last one
/// that was.
pub fn equate<A: Allocator + Copy>(
    db: &mut Database<A>,
    alloc: A,
    used: usize,
    limits: &mut Limits,
    scratch: &mut Scratch<A>,
) -> Result<usize, AllocError>
    ensures { OnOk result (IsLaterState db.old db.new) }
{
    let mut lists = Lists::new_in(alloc, used);
    lists.pairs.note_new(db)?;
    if lists.pairs.is_empty() {
        return Ok(used);
    }
    let mut equal = Equal::new_in(alloc, db)?;
    let mut is_done = false;
    for _ in 0..MOST_ROUNDS {
        if is_done {
            return Ok(lists.used);
        }
        is_done = equate_once(db, alloc, &mut equal, limits, &mut lists, scratch)?;
    }
    Ok(lists.used)
}
