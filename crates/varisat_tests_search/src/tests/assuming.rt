//! Steps of a search under assumptions.
ghost use Rattle.varisat_search.specs.Contexts.{IsReady};

use super::searches::{are, assume, loaded, prefer_lower_true, step};
use std::alloc::Global;
use varisat_search::context::Context;
use varisat_search::error::StepError;
use varisat_search::state::SatState;

/// Clauses over five variables, assumptions, and what one step under them comes to.
#[derive(Clone, Copy)]
struct Row {
    clauses: &'static [&'static [i8]],
    assumptions: &'static [i8],
    verdict: SatState,
    /// The assumptions that are not taken out.
    left: &'static [i8],
    trail: &'static [i8],
}

const ROWS: &[Row] = &[
    // Repeated ones are taken out.
    Row {
        clauses: &[&[1, 2]],
        assumptions: &[-2, -2, -2],
        verdict: SatState::Sat,
        left: &[-2],
        trail: &[-2, 1],
    },
    // 2 is implied by 1 when its turn comes, and 3 takes its place.
    Row {
        clauses: &[&[-1, 2]],
        assumptions: &[1, 2, -3],
        verdict: SatState::Sat,
        left: &[1, -3],
        trail: &[1, 2, -3],
    },
    // A unit is assumed.
    Row {
        clauses: &[&[1]],
        assumptions: &[1],
        verdict: SatState::Sat,
        left: &[],
        trail: &[1],
    },
];

/// Whether a step, whose decisions make variables true, the lowest first, comes to what the row says.
fn comes_to(ctx: &mut Context<Global>, row: &Row) -> Result<bool, StepError>
    requires { IsReady ctx.old }
{
    prefer_lower_true(ctx);
    assume(ctx, row.assumptions)?;
    step(ctx)?;
    Ok(
        (ctx.solver_state.sat_state == row.verdict)
            & are(ctx.assumptions.assumptions(), row.left)
            & are(ctx.trail.trail(), row.trail),
    )
}

fn holds(alloc: Global, row: &Row) -> Result<bool, StepError> {
    let mut ctx = loaded(alloc, 5, row.clauses)?;
    let is_right = comes_to(&mut ctx, row);
    drop(ctx);
    is_right
}

#[test]
fn assumptions_hold(rt: HostRuntime) -> Result<(), StepError> {
    for (place, row) in ROWS.iter().enumerate() {
        assert!(rt; holds(rt.alloc(), row)?, "row {place}");
    }
    Ok(())
}
