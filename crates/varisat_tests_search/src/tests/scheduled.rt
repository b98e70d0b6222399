//! Steps by the schedule, and calls of a search that a solver makes otherwise: a variable that begins anew, and levels that are
//! noted as undone.
ghost use Rattle.std.specs.Prelude.{OnOk};
ghost use Rattle.varisat_search.specs.Contexts.{IsReady};

use super::searches::{are, assume, loaded, step};
use std::alloc::{Allocator, Global};
use varisat_literals::var;
use varisat_search::context::Context;
use varisat_search::decision::initialize_var;
use varisat_search::error::StepError;
use varisat_search::schedule::schedule_step;
use varisat_search::state::SatState;
use varisat_search::state::SatState::{Sat, Unknown, Unsat};
use varisat_steps::NoTracer;

// Makes a step of the schedule, unless there is a verdict.
fn scheduled_step<A: Allocator + Copy>(ctx: &mut Context<A>) -> Result<(), StepError>
    requires { IsReady ctx.old }
    ensures { OnOk result (IsReady ctx.new) }
{
    if ctx.schedule.steps() == u64::MAX {
        return Ok(());
    }
    if let Unknown = ctx.solver_state.sat_state {
        schedule_step(ctx, &mut NoTracer {})?;
    }
    Ok(())
}

/// Clauses over two variables, and the verdict and the count of steps after each of three calls.
type Row = (&'static [&'static [i8]], [(SatState, u64); 3]);

const ROWS: [Row; 3] = [
    (&[&[1, 2]], [(Sat, 1), (Sat, 1), (Sat, 1)]),
    (
        &[&[1, 2], &[-1, 2], &[1, -2], &[-1, -2]],
        [(Unknown, 1), (Unsat, 2), (Unsat, 2)],
    ),
    (&[&[1], &[-1]], [(Unsat, 0), (Unsat, 0), (Unsat, 0)]),
];

fn are_after<A: Allocator + Copy>(
    ctx: &mut Context<A>,
    wanted: [(SatState, u64); 3],
) -> Result<bool, StepError>
    requires { IsReady ctx.old }
{
    let mut are_right = true;
    for after in wanted {
        scheduled_step(ctx)?;
        are_right &= (ctx.solver_state.sat_state, ctx.schedule.steps()) == after;
    }
    Ok(are_right)
}

fn are_after_in(alloc: Global, row: &Row) -> Result<bool, StepError> {
    let mut ctx = loaded(alloc, 2, row.0)?;
    let are_right = are_after(&mut ctx, row.1);
    drop(ctx);
    are_right
}

#[test]
fn steps_are_scheduled(rt: HostRuntime) -> Result<(), StepError> {
    for (place, row) in ROWS.iter().enumerate() {
        let are_right = are_after_in(rt.alloc(), row)?;
        assert!(rt; are_right, "row {place}");
    }
    Ok(())
}

// Begins anew with the first two variables, of which the second alone is for decisions.
fn initialize<A: Allocator + Copy>(ctx: &mut Context<A>)
    requires { IsReady ctx.old }
    ensures { IsReady ctx.new }
{
    if ctx.assignment.assignment().len() >= 2 {
        initialize_var(ctx, var!(1), false);
        initialize_var(ctx, var!(2), true);
    }
}

// Whether the second variable alone is decided, as false.
fn is_second_decided<A: Allocator + Copy>(ctx: &mut Context<A>) -> Result<bool, StepError>
    requires { IsReady ctx.old }
{
    initialize(ctx);
    step(ctx)?;
    Ok((ctx.solver_state.sat_state == Sat) & are(ctx.trail.trail(), &[-2]))
}

// How many levels have assumptions after a step under two, and once it is noted that none is left.
fn assumed_levels<A: Allocator + Copy>(ctx: &mut Context<A>) -> Result<[usize; 2], StepError>
    requires { IsReady ctx.old }
{
    assume(ctx, &[1, -2])?;
    step(ctx)?;
    let before = ctx.assumptions.assumption_levels();
    ctx.assumptions.full_restart();
    Ok([before, ctx.assumptions.assumption_levels()])
}

fn is_second_decided_in(alloc: Global) -> Result<bool, StepError> {
    let mut ctx = loaded(alloc, 2, &[])?;
    let is_decided = is_second_decided(&mut ctx);
    drop(ctx);
    is_decided
}

fn assumed_levels_in(alloc: Global) -> Result<[usize; 2], StepError> {
    let mut ctx = loaded(alloc, 2, &[&[1, 2]])?;
    let levels = assumed_levels(&mut ctx);
    drop(ctx);
    levels
}

#[test]
fn variables_and_levels_begin_anew(rt: HostRuntime) -> Result<(), StepError> {
    assert!(rt; is_second_decided_in(rt.alloc())?);
    assert!(rt; assumed_levels_in(rt.alloc())? == [2, 0]);
    Ok(())
}
