//! The steps of a search by its schedule.
ghost use Rattle.std.specs.Prelude.{◌≡◌, ◌-◌, ◌^◌, ◌<◌, suc, ◌⊎◌, IsTrue, List, length, OnOk, IfErr};
ghost use Rattle.varisat_search.specs.Contexts.{view, IsReady};
ghost use Rattle.varisat_search.specs.Frames.{ChangesBegun, ChangesReduced, ChangesPlaces, ChangesStore, ChangesTiers, CountsStep};
ghost use Rattle.varisat_search.specs.Decisions.{SameDecidable};
ghost use Rattle.varisat_search.specs.Progress.{outcome_at};
ghost use Rattle.varisat_search.specs.FoundCores.{HasCoreIfFailed};
ghost use Rattle.varisat_search.specs.Restarts.{RestartsByPolicy, SavesUndone};
ghost use Rattle.varisat_search.specs.DueReductions.{ReducesLocalsIfDue, ReducesMidsIfDue, NoLines, Inprocesses, InprocessesIfDue, BeginsStep, MakesScheduledStep};
ghost use Rattle.varisat_search.specs.StepErrors.{HasNoRoom, step_faults};
ghost use Rattle.varisat_search.specs.Seen.{search_of};
ghost use Rattle.varisat_steps.specs.Traces.{TakesLines, TakesStep, BreaksOff, faults_of, AdmitsFor};

use crate::cdcl::conflict_step;
use crate::collect::collect_garbage;
use crate::context::Context;
use crate::error::StepError;
use crate::levels::restart;
use crate::reduce::{reduce_locals, reduce_mids};
use crate::state::SatState;
use std::alloc::{AllocError, Allocator};
pub use varisat_schedule::luby::LubySequence;
pub use varisat_schedule::schedule::Schedule;
use varisat_steps::{ProofTracer, TraceError};

// A restart is made in stable mode where the next one is as many steps away or more: seldom, but for the first conflicts.
// What a search decided before them knew nothing of the formula, and easy ones with many variables are decided by it anew.
const STABLE_INTERVAL: u64 = 1024;

const EARLY_INTERVAL: u64 = 32;

const EARLY_CONFLICTS: u64 = 1024;

// In focused mode as many conflicts pass from one restart to the next at least, so that the search gets somewhere.
const FOCUSED_INTERVAL: u64 = 2;

/// How many steps away the next restart is at least where one is made in stable mode.
fn stable_interval(conflicts: u64) -> u64 {
    if conflicts < EARLY_CONFLICTS {
        EARLY_INTERVAL
    } else {
        STABLE_INTERVAL
    }
}

/// The policy: whether the search restarts as a step begins, where a restart is due or not. The bound on steps needs no
/// restart, and stands wherever one is allowed, so that any answer would do that keeps to `allowed`. At the setting 0 each
/// that is due is made, and no other. Else those are made before a long interval, in stable mode, where few conflicts were
/// made also before a shorter one. In focused mode it
/// restarts at any step where it may and the glue of the last learned clauses is high, as where a search got stuck.
fn is_restart_wanted<A: Allocator + Copy>(ctx: &Context<A>, is_due: bool) -> bool
    ensures each { ctx.now.solver_config.restart_glue ≡ 0 → result ≡ is_due }
    ensures allowed { IsTrue result →
        IsTrue is_due ⊎ (ctx.now.schedule.next_restart < 2 ^ suc (length ctx.now.assignment.current)) }
{
    let hundredths = ctx.solver_config.restart_glue();
    if hundredths == 0 {
        return is_due;
    }
    if !ctx.counters.is_focused() {
        let interval = stable_interval(ctx.counters.conflicts);
        return is_due && ctx.schedule.steps_to_restart() >= interval;
    }
    let variables = ctx.assignment.assignment().len();
    (is_due || ctx.schedule.is_interval_short(variables))
        && ctx.counters.conflicts_since_restart() >= FOCUSED_INTERVAL
        && ctx.counters.is_glue_high(hundredths)
}

/// Begins a step of the schedule, which restarts the search where the policy wants it. Assumptions keep their levels.
fn restart_if_wanted<A: Allocator + Copy>(ctx: &mut Context<A>)
    requires ready { IsReady ctx.old }
    requires counted { ctx.old.schedule.steps < 2 ^ 64 - 1 }
    ensures ready { IsReady ctx.new }
    ensures restarted { RestartsByPolicy ctx.old.solver_config.restart_glue
        ctx.old.schedule ctx.old.assumptions.levels (view ctx.old) (view ctx.new) }
    ensures saved { SavesUndone ctx.old.assumptions.levels
        (view ctx.old) (view ctx.new) ctx.old.assignment.last ctx.new.assignment.last }
    ensures decidable { SameDecidable (view ctx.old) ctx.old.vsids (view ctx.new) ctx.new.vsids }
    ensures later { ctx.new.schedule.steps < ctx.new.schedule.next_restart }
    ensures frame { ChangesBegun ctx.old ctx.new }
{
    let scale = ctx.solver_config.luby_restart_interval_scale();
    let is_due = ctx.schedule.begin_step(scale);
    if !is_restart_wanted(ctx, is_due) {
        return;
    }
    ctx.counters.count_restart();
    restart(ctx);
}

/// Reduces the Local clauses where the number of steps made is a multiple of the interval for it.
fn reduce_locals_if_due<A: Allocator + Copy, P: ProofTracer>(
    ctx: &mut Context<A>,
    proof: &mut P,
) -> Result<(), TraceError>
    requires ready { IsReady ctx.old }
    requires holds { AdmitsFor (P.holds proof.old) (search_of (view ctx.old)) }
    ensures inprocesses { OnOk result (Inprocesses ReducesLocalsIfDue
        (λ lines. TakesLines P.takes proof.old lines proof.new) ctx.old ctx.new) }
    ensures frame { ChangesStore ctx.old ctx.new }
    ensures broken { IfErr result (λ error. BreaksOff P.breaks_off proof.old (faults_of error) proof.new) }
{
    if ctx.schedule.steps() % ctx.solver_config.reduce_locals_interval() == 0 {
        reduce_locals(ctx, proof)?;
    }
    Ok(())
}

/// Reduces the Mid clauses where the number of steps made is a multiple of the interval for it.
fn reduce_mids_if_due<A: Allocator + Copy>(ctx: &mut Context<A>) -> Result<(), AllocError>
    requires { IsReady ctx.old }
    ensures inprocesses { OnOk result (Inprocesses (λ lines x y. ReducesMidsIfDue x y) NoLines ctx.old ctx.new) }
    ensures frame { ChangesTiers ctx.old ctx.new }
{
    if ctx.schedule.steps() % ctx.solver_config.reduce_mids_interval() == 0 {
        reduce_mids(ctx)?;
    }
    Ok(())
}

/// All inprocessing, in this order. Each function decides whether it is due, and has the contract `Inprocesses`: more is
/// not asked of it. `InprocessesIfDue` is this list in contracts.
fn inprocess_if_due<A: Allocator + Copy, P: ProofTracer>(
    ctx: &mut Context<A>,
    proof: &mut P,
) -> Result<(), TraceError>
    requires ready { IsReady ctx.old }
    requires holds { AdmitsFor (P.holds proof.old) (search_of (view ctx.old)) }
    ensures inprocesses { OnOk result (Inprocesses InprocessesIfDue
        (λ lines. TakesLines P.takes proof.old lines proof.new) ctx.old ctx.new) }
    ensures frame { ChangesPlaces ctx.old ctx.new }
    ensures broken { IfErr result (λ error. BreaksOff P.breaks_off proof.old (faults_of error) proof.new) }
{
    reduce_locals_if_due(ctx, proof)?;
    reduce_mids_if_due(ctx)?;
    collect_garbage(ctx)?;
    Ok(())
}

/// Begins a step of the schedule: a restart where the policy wants it, and then inprocessing where it is due. Fails where
/// it is out of memory or the tracer fails.
pub fn begin_step<A: Allocator + Copy, P: ProofTracer>(
    ctx: &mut Context<A>,
    proof: &mut P,
) -> Result<(), TraceError>
    requires ready { IsReady ctx.old }
    requires holds { AdmitsFor (P.holds proof.old) (search_of (view ctx.old)) }
    requires counted { ctx.old.schedule.steps < 2 ^ 64 - 1 }
    // The tracer took the lines of inprocessing, and may hold what fits the search then.
    ensures begins { OnOk result (BeginsStep (λ lines. TakesLines P.takes proof.old lines proof.new) ctx.old ctx.new) }
    ensures holds { OnOk result (AdmitsFor (P.holds proof.new) (search_of (view ctx.new))) }
    ensures later { ctx.new.schedule.steps < ctx.new.schedule.next_restart }
    ensures frame { ChangesReduced ctx.old ctx.new }
    ensures broken { IfErr result (λ error. BreaksOff P.breaks_off proof.old (faults_of error) proof.new) }
{
    restart_if_wanted(ctx);
    inprocess_if_due(ctx, proof)?;
    Ok(())
}

/// Makes one step of the schedule: a restart, inprocessing where it is due, then a conflict step. The step is
/// counted, unless it fails. Fails where it is out of memory, the clause store is full or the tracer fails.
pub fn schedule_step<A: Allocator + Copy, P: ProofTracer>(
    ctx: &mut Context<A>,
    proof: &mut P,
) -> Result<(), StepError>
    requires ready { IsReady ctx.old }
    requires holds { AdmitsFor (P.holds proof.old) (search_of (view ctx.old)) }
    requires unknown { ctx.old.solver_state.sat_state ≡ SatState.Unknown }
    requires counted { ctx.old.schedule.steps < 2 ^ 64 - 1 }
    ensures ready { OnOk result (IsReady ctx.new) }
    // The tracer took the lines of the step, in the order of its parts, and then the core, where assumptions failed.
    ensures made { OnOk result
        (MakesScheduledStep (λ lines. TakesStep P.takes proof.old lines (outcome_at ctx.new) proof.new)
        ctx.old ctx.new) }
    ensures core { OnOk result (HasCoreIfFailed ctx.new) }
    ensures state { OnOk result
        (ctx.new.solver_state ≡ record ctx.old.solver_state { sat_state = ctx.new.solver_state.sat_state }) }
    ensures counts { CountsStep result ctx.old ctx.new }
    // The store is full only where it has no room for a clause of all variables.
    ensures full { IfErr result (λ error. error ≡ StepError.Full → HasNoRoom ctx.new) }
    ensures broken { IfErr result (λ error. BreaksOff P.breaks_off proof.old (step_faults error) proof.new) }
{
    begin_step(ctx, proof)?;
    conflict_step(ctx, proof)?;
    ctx.schedule.end_step();
    Ok(())
}
