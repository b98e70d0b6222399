//! Clauses that are loaded: how long the trail is, how many clauses are kept in two places, and a step from there.
ghost use Rattle.std.specs.Prelude.{OnOk};
ghost use Rattle.varisat_search.specs.Contexts.{IsReady};

use super::searches::{load_numbers, loaded, step};
use std::alloc::{Allocator, Global};
use varisat_prop::clause::Tier;
use varisat_search::context::Context;
use varisat_search::error::StepError;
use varisat_search::state::SatState;
use varisat_search::state::SatState::{Unknown, Unsat};

/// Clauses in the order in which they are loaded, with the length of the trail and the verdict after each.
const UNITS: [(&[i8], usize, SatState); 5] = [
    (&[1], 1, Unknown),
    (&[3, -3], 1, Unknown),
    (&[-2], 2, Unknown),
    (&[1, 1], 2, Unknown),
    (&[2], 2, Unsat),
];

// Loads a clause. The length of the trail then, and the verdict.
fn after<A: Allocator + Copy>(
    ctx: &mut Context<A>,
    clause: &[i8],
) -> Result<(usize, SatState), StepError>
    requires { IsReady ctx.old }
    ensures { OnOk result (IsReady ctx.new) }
{
    load_numbers(ctx, clause)?;
    Ok((ctx.trail.trail().len(), ctx.solver_state.sat_state))
}

fn are_after<A: Allocator + Copy>(ctx: &mut Context<A>) -> Result<bool, StepError>
    requires { IsReady ctx.old }
{
    let mut are_right = true;
    for (clause, length, verdict) in UNITS {
        are_right &= after(ctx, clause)? == (length, verdict);
    }
    Ok(are_right)
}

fn are_after_in(alloc: Global) -> Result<bool, StepError> {
    let mut ctx = loaded(alloc, 3, &[])?;
    let are_right = are_after(&mut ctx);
    drop(ctx);
    are_right
}

// How many of the clauses have two literals, and how many longer ones are of the tier Irred.
fn counts(alloc: Global, clauses: &[&[i8]]) -> Result<(usize, usize), StepError> {
    let ctx = loaded(alloc, 5, clauses)?;
    let counts = (
        ctx.binary_clauses.count(),
        ctx.clause_db.count_by_tier(Tier::Irred),
    );
    drop(ctx);
    Ok(counts)
}

/// Clauses, and how many of them are kept of two literals, and of three or more.
const COUNTS: [(&[&[i8]], (usize, usize)); 2] = [
    (&[&[1, 2], &[-1, 3, 3], &[4, -4]], (2, 0)),
    (&[&[1, 2, 3], &[-2, 3, 3, 4], &[4, -5, 5, 2]], (0, 2)),
];

// The verdict after one step.
fn verdict_after_step<A: Allocator + Copy>(ctx: &mut Context<A>) -> Result<SatState, StepError>
    requires { IsReady ctx.old }
{
    step(ctx)?;
    Ok(ctx.solver_state.sat_state)
}

// Of clauses that propagation at level 0 refutes.
fn verdict_of_units(alloc: Global) -> Result<SatState, StepError> {
    let mut ctx = loaded(alloc, 3, &[&[1, 2, 3], &[-1], &[1, -2], &[2, -3]])?;
    let verdict = verdict_after_step(&mut ctx);
    drop(ctx);
    verdict
}

#[test]
fn clauses_are_loaded(rt: HostRuntime) -> Result<(), StepError> {
    assert!(rt; are_after_in(rt.alloc())?);
    for (clauses, wanted) in COUNTS {
        assert!(rt; counts(rt.alloc(), clauses)? == wanted);
    }
    assert!(rt; verdict_of_units(rt.alloc())? == Unsat);
    Ok(())
}
