//! Which variables are decided.
ghost use Rattle.varisat_search.specs.Contexts.{IsReady};

use super::searches::{are, loaded_conflict, prefer_lower_true, step};
use std::alloc::{Allocator, Global};
use varisat_literals::var;
use varisat_search::context::Context;
use varisat_search::error::StepError;
use varisat_search::levels::full_restart;
use varisat_search::state::SatState;
use varisat_vsids::Vsids;

/// Makes a step whose decisions make variables true, the lowest first, and undoes all decisions.
fn step_and_restart<A: Allocator + Copy>(ctx: &mut Context<A>) -> Result<(), StepError>
    requires { IsReady ctx.old }
{
    prefer_lower_true(ctx);
    let SatState::Unknown = ctx.solver_state.sat_state else {
        return Ok(());
    };
    step(ctx)?;
    full_restart(ctx);
    Ok(())
}

/// Whether of five variables the third is taken out last.
fn is_third_last<A: Allocator + Copy>(vsids: &mut Vsids<A>) -> bool {
    let mut first = [false; 5];
    for _taken in 0..4 {
        if let Some(var) = vsids.next() {
            if var.index() < 5 {
                first[var.index()] = true;
            }
        }
    }
    let last = [vsids.next(), vsids.next()];
    first == [true, true, false, true, true] && last == [Some(var!(3)), None]
}

/// Whether a step learns from a conflict, and the variable that is not bumped by that is taken out last.
fn bumps<A: Allocator + Copy>(ctx: &mut Context<A>) -> Result<bool, StepError>
    requires { IsReady ctx.old }
{
    step_and_restart(ctx)?;
    let is_learned = are(ctx.analyze_conflict.clause(), &[-4, -1]);
    Ok(is_learned & is_third_last(&mut ctx.vsids))
}

// 1 is decided and implies 2, 3 is decided and implies 4 and 5, and -1 -4 -5 is false: with it and the reason of 5 the
// variables 1, 2, 4 and 5 are bumped, and 3 is not.
fn bumps_loaded(alloc: Global) -> Result<bool, StepError> {
    let mut ctx = loaded_conflict(alloc)?;
    let is_bumped = bumps(&mut ctx);
    drop(ctx);
    is_bumped
}

#[test]
fn decisions_are_as_they_should_be(rt: HostRuntime) -> Result<(), StepError> {
    assert!(rt; bumps_loaded(rt.alloc())?);
    Ok(())
}
