//! The steps of a solver, until the verdict is known or the steps are spent, and the core over names.
ghost use Rattle.std.specs.Prelude.{◌≡◌, ◌≢◌, ◌<◌, ◌-◌, ◌^◌, ℕ, suc, OnOk, IfOk, OnErr, IfErr};
ghost use Rattle.varisat_theory.specs.promises.Membership.{◌∈◌};
ghost use Rattle.varisat_theory.specs.promises.Literals.{Literal, variable_of};
ghost use Rattle.varisat_schedule.specs.Plans.{step_begun};
ghost use Rattle.varisat_search.specs.Contexts.{KeepsSchedule};
ghost use Rattle.varisat_search.specs.StepErrors.{step_faults};
ghost use Rattle.varisat_solver.specs.promises.Budgets.{returned_verdict};
ghost use Rattle.varisat_solver.specs.inside.SinceChange.{CountsOnSince, CountsStepsFrom};
ghost use Rattle.varisat_tracer.specs.inside.Tracing.{tracer_state, BreaksProof};
ghost use Rattle.varisat_solver.specs.inside.Searches.{CanSearch, FailsStep, BeginsSolverStep, MakesNamedStep, MakesSolverStep, FindsVerdict};
ghost use Rattle.varisat_solver.specs.inside.Accepting.{HasUser};
ghost use Rattle.varisat_solver.specs.inside.Carried.{named_literals};

use crate::carrying::carry_literals;
use crate::detaching::detach_fixed;
use std::alloc::{AllocError, Allocator};
use varisat_formula::io::ProofTarget;
use varisat_literals::Lit;
use varisat_names::variables::LinkedVariables;
use varisat_search::cdcl::conflict_step;
use varisat_search::context::Context;
use varisat_search::error::StepError;
use varisat_search::schedule::begin_step;
use varisat_search::state::SatState;
use varisat_tracer::SolverTracer;

/// Begins a step: restarts, reduces and collects where that is due, and then lets variables leave. `literals` is
/// overwritten.
fn begin<W: ProofTarget, A: Allocator + Copy>(
    tracer: &mut SolverTracer<W, A>,
    ctx: &mut Context<A>,
    literals: &mut Vec<Lit, A>,
) -> Result<(), StepError>
    requires can { CanSearch (tracer_state tracer.old) ctx.old }
    requires counted { ctx.old.schedule.steps < 2 ^ 64 - 1 }
    ensures begins { OnOk result
        (BeginsSolverStep (tracer_state tracer.old) (tracer_state tracer.new) ctx.old ctx.new) }
    ensures schedule { ctx.new.schedule
        ≡ step_begun ctx.old.solver_config.luby_restart_interval_scale ctx.old.schedule }
    ensures later { ctx.new.schedule.steps < ctx.new.schedule.next_restart }
    ensures config { ctx.new.solver_config ≡ ctx.old.solver_config }
    ensures broken { IfErr result (λ error. BreaksProof tracer.old.proof (step_faults error) tracer.new.proof) }
    ensures full { IfErr result (λ error. error ≢ StepError.Full) }
{
    ctx.solver_config.prove_in_range();
    begin_step(ctx, tracer)?;
    detach_fixed(tracer, ctx, literals)?;
    Ok(())
}

/// Keeps the core that was found as the user names it. `literals` is overwritten.
fn name_core<A: Allocator + Copy>(
    variables: &LinkedVariables<A>,
    ctx: &mut Context<A>,
    literals: &mut Vec<Lit, A>,
) -> Result<(), AllocError>
    requires { (l : Literal) → l ∈ ctx.old.assumptions.failed_core → HasUser variables.now (variable_of l) }
    ensures frame { ctx.new
        ≡ record ctx.old { assumptions = record ctx.old.assumptions { user_core = ctx.new.assumptions.user_core } } }
    ensures named { OnOk result
        (ctx.new.assumptions.user_core ≡ named_literals variables.now ctx.old.assumptions.failed_core) }
{
    carry_literals(
        variables.global_from_solver(),
        variables.user_from_global(),
        ctx.assumptions.failed_core(),
        literals,
    )?;
    ctx.assumptions.set_user_failed_core(literals)?;
    Ok(())
}

/// Finds a conflict and learns from it, or finds a verdict, and keeps a core that was found as the user names it.
/// `literals` is overwritten.
fn named_conflict_step<W: ProofTarget, A: Allocator + Copy>(
    tracer: &mut SolverTracer<W, A>,
    ctx: &mut Context<A>,
    literals: &mut Vec<Lit, A>,
) -> Result<(), StepError>
    requires { CanSearch (tracer_state tracer.old) ctx.old }
    ensures made { OnOk result (MakesNamedStep (tracer_state tracer.old) (tracer_state tracer.new) ctx.old ctx.new) }
    ensures schedule { KeepsSchedule ctx.old ctx.new }
    ensures fails { IfErr result (FailsStep tracer.old.proof tracer.new.proof ctx.old ctx.new) }
{
    conflict_step(ctx, tracer)?;
    let SatState::UnsatUnderAssumptions = ctx.solver_state.sat_state else {
        return Ok(());
    };
    name_core(&tracer.tables, ctx, literals)?;
    Ok(())
}

/// Makes one step: a restart, reductions and a collection where they are due, then variables leave that need not be
/// searched, then a conflict step. The step is counted, unless it fails. A core that was found is kept as the user
/// names it. `literals` is overwritten.
fn make_step<W: ProofTarget, A: Allocator + Copy>(
    tracer: &mut SolverTracer<W, A>,
    ctx: &mut Context<A>,
    literals: &mut Vec<Lit, A>,
) -> Result<(), StepError>
    requires can { CanSearch (tracer_state tracer.old) ctx.old }
    requires counted { ctx.old.schedule.steps < 2 ^ 64 - 1 }
    ensures made { OnOk result (MakesSolverStep (tracer_state tracer.old) (tracer_state tracer.new) ctx.old ctx.new) }
    ensures uncounted { OnErr result (ctx.new.schedule.steps ≡ ctx.old.schedule.steps) }
    ensures config { ctx.new.solver_config ≡ ctx.old.solver_config }
    ensures fails { IfErr result (FailsStep tracer.old.proof tracer.new.proof ctx.old ctx.new) }
{
    begin(tracer, ctx, literals)?;
    named_conflict_step(tracer, ctx, literals)?;
    ctx.schedule.end_step();
    Ok(())
}

/// Makes steps until it is known whether some assignment satisfies the clauses and makes the assumptions true, and
/// returns that; a core that was found is kept as the user names it. None where `max_steps` steps were made before, or
/// no more can be counted; where no step may be made nothing changes. An error is out of memory, a full clause store or
/// the target of an open proof. Between two restarts each step raises the rank of the trail, units that left counted
/// with it, and the intervals between restarts follow the Luby sequence: so the steps come to an end. `literals` is
/// overwritten.
pub fn find_verdict<W: ProofTarget, A: Allocator + Copy>(
    tracer: &mut SolverTracer<W, A>,
    ctx: &mut Context<A>,
    literals: &mut Vec<Lit, A>,
    max_steps: u64,
) -> Result<Option<bool>, StepError>
    requires { CanSearch (tracer_state tracer.old) ctx.old }
    ensures found { IfOk result
        (λ found. FindsVerdict (tracer_state tracer.old) (tracer_state tracer.new) ctx.old ctx.new found) }
    ensures counted { CountsStepsFrom max_steps ctx.old ctx.new (returned_verdict result) }
    ensures since { OnOk result (CountsOnSince ctx.old ctx.new) }
    ensures config { ctx.new.solver_config ≡ ctx.old.solver_config }
    ensures fails { IfErr result (FailsStep tracer.old.proof tracer.new.proof ctx.old ctx.new) }
{
    ctx.solver_config.prove_in_range();
    let first = ctx.schedule.steps();
    'steps: loop {
        let steps = ctx.schedule.steps();
        if steps - first == max_steps || steps == u64::MAX {
            return Ok(None);
        }
        make_step(tracer, ctx, literals)?;
        match ctx.solver_state.sat_state {
            SatState::Unknown => {}
            SatState::Sat => return Ok(Some(true)),
            SatState::Unsat | SatState::UnsatUnderAssumptions => return Ok(Some(false)),
        }
    }
}
