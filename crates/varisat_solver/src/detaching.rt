//! Which variables leave the search as a step begins: those whose values are fixed, unless they are assumed,
//! and hidden ones that no kept clause names. Fixed values are kept for the model and for clauses to come, and what
//! stands for hidden variables may be used again.
ghost use Rattle.std.specs.Prelude.{◌≡◌, ◌≢◌, ℕ, ◌<◌, ◌≤◌, false, List, length, map, IsSome, OnOk, IfOk, IfErr};
ghost use Rattle.varisat_theory.specs.promises.Membership.{◌∈◌, IsDistinct};
ghost use Rattle.varisat_theory.specs.promises.Literals.{Literal, variable_of};
ghost use Rattle.varisat_literals.specs.promises.Numbers.{variable_limit};
ghost use Rattle.varisat_names.specs.promises.VarMap.{at};
ghost use Rattle.varisat_search.specs.Contexts.{view, KeepsSchedule};
ghost use Rattle.varisat_search.specs.RootSimplified.{IsRootSimplified};
ghost use Rattle.varisat_solver.specs.inside.Accepting.{AreBounded};
ghost use Rattle.varisat_solver.specs.inside.Searches.{CanSearch, DetachesFixed};
ghost use Rattle.varisat_tracer.specs.inside.Tracing.{tracer_state, open_parts, BreaksProof};
ghost use Rattle.varisat_search.specs.StepErrors.{step_faults};
ghost use Rattle.varisat_solver.specs.inside.Representations.{IsValidSolver};
ghost use Rattle.varisat_solver.specs.promises.Detaching.{leads_to_unassumed, AreOverAssumed};
ghost use Rattle.varisat_solver.specs.inside.Detached.{unassumed_among, FlagsVariables, LosesSolverVar, AreDetachedAlone, leads_to_hidden, ListsUnneeded, AreDetached, HasOnlyNeeded, DetachesFromTables, Detaches};

use std::alloc::{AllocError, Allocator};
use varisat_formula::io::ProofTarget;
use varisat_literals::{Lit, Var};
use varisat_names::variables::LinkedVariables;
use varisat_search::cdcl::{is_root_unpropagated, simplify_root};
use varisat_search::context::Context;
use varisat_search::error::StepError;
use varisat_search::forgetting::{detach_variables, flag_mentioned};
use varisat_tracer::SolverTracer;

/// Whether the solver variable is that of a global variable that is not assumed.
fn is_unassumed<A: Allocator + Copy>(variables: &LinkedVariables<A>, solver: Var) -> bool
    ensures { result ≡ leads_to_unassumed variables.now (at variables.now.solvers.backward solver) }
{
    variables.prove_linked();
    match variables.global_from_solver().get(solver) {
        Some(global) => !variables.var_data_global(global).assumed,
        None => false,
    }
}

/// Lists those of the literals that are over variables that are not assumed.
fn list_unassumed<A: Allocator + Copy>(
    variables: &LinkedVariables<A>,
    lits: &[Lit],
    unassumed: &mut Vec<Lit, A>,
) -> Result<(), AllocError>
    ensures { OnOk result (unassumed.new.items ≡ unassumed_among variables.now lits.now) }
{
    unassumed.clear();
    for lit in lits {
        if is_unassumed(variables, lit.var()) {
            unassumed.push(*lit)?;
        }
    }
    Ok(())
}

/// Says of each of so many variables whether a literal is over it.
fn flag_variables<A: Allocator + Copy>(
    alloc: A,
    count: usize,
    lits: &[Lit],
) -> Result<Vec<bool, A>, AllocError>
    requires { (l : Literal) → l ∈ lits.now → variable_of l < count }
    ensures { IfOk result (λ flags. FlagsVariables count lits.now flags.items) }
{
    let mut flags = Vec::new(alloc);
    flags.resize(count, false)?;
    for lit in lits {
        flags[lit.index()] = true;
    }
    Ok(flags)
}

/// Drops the solver variable. Its global variable is gone for good where it has no name and is isolated, and the proof
/// logs that.
fn detach_solver_var<W: ProofTarget, A: Allocator + Copy>(
    tracer: &mut SolverTracer<W, A>,
    solver: Var,
) -> Result<(), AllocError>
    requires { IsSome (at tracer.old.tables.solvers.backward solver) }
    ensures dropped { OnOk result
        ((x : ℕ) × LosesSolverVar x solver (tracer_state tracer.old) (tracer_state tracer.new)) }
    ensures opened { open_parts tracer.new.proof ≡ open_parts tracer.old.proof }
{
    tracer.tables.prove_linked();
    let global = tracer.tables.detach_solver_var(solver)?;
    tracer.retire_var_if_unused(global);
    Ok(())
}

/// Drops the solver variables of the literals, which are true for good. What is kept of their global variables says
/// the values from then on, and that they are isolated, so that those without a name may be used again.
fn detach_fixed_vars<W: ProofTarget, A: Allocator + Copy>(
    tracer: &mut SolverTracer<W, A>,
    lits: &[Lit],
) -> Result<(), AllocError>
    requires taken { (l : Literal) → l ∈ lits.now → IsSome (at tracer.old.tables.solvers.backward (variable_of l)) }
    requires distinct { IsDistinct (map variable_of lits.now) }
    ensures dropped { OnOk result (AreDetachedAlone lits.now (tracer_state tracer.old) (tracer_state tracer.new)) }
    ensures rest { OnOk result (DetachesFromTables lits.now tracer.old.tables tracer.new.tables) }
    ensures opened { open_parts tracer.new.proof ≡ open_parts tracer.old.proof }
{
    for lit in lits {
        tracer.tables.prove_linked();
        let solver = lit.var();
        let global = tracer.tables.global_from_solver().get(solver).unwrap();
        tracer.tables.set_unit(global, lit.is_positive());
        tracer.tables.set_isolated(global, true);
        detach_solver_var(tracer, solver)?;
    }
    Ok(())
}

/// Whether the solver variable is that of a global variable without a name.
fn is_hidden<A: Allocator + Copy>(variables: &LinkedVariables<A>, solver: Var) -> bool
    ensures { result ≡ leads_to_hidden variables.now (at variables.now.solvers.backward solver) }
{
    match variables.global_from_solver().get(solver) {
        Some(global) => variables.user_from_global().get(global).is_none(),
        None => false,
    }
}

/// Whether some solver variable is that of a global variable without a name.
fn has_hidden<A: Allocator + Copy>(variables: &LinkedVariables<A>) -> bool
    requires { AreBounded variables.now }
    ensures { result ≡ false → (v : ℕ) → leads_to_hidden variables.now (at variables.now.solvers.backward v) ≡ false }
{
    for index in 0..variables.solver_watermark() {
        if is_hidden(variables, Var::from_index(index)) {
            return true;
        }
    }
    false
}

/// Lists a literal of each hidden variable that no kept clause names.
fn list_unneeded<A: Allocator + Copy>(
    variables: &LinkedVariables<A>,
    mentioned: &[bool],
    unneeded: &mut Vec<Lit, A>,
) -> Result<(), AllocError>
    requires { length mentioned.now ≤ variable_limit }
    ensures { OnOk result (ListsUnneeded variables.now mentioned.now unneeded.new.items) }
{
    unneeded.clear();
    for index in 0..mentioned.len() {
        let is_mentioned = mentioned[index];
        if is_mentioned {
            continue;
        }
        let solver = Var::from_index(index);
        if !is_hidden(variables, solver) {
            continue;
        }
        unneeded.push(solver.positive())?;
    }
    Ok(())
}

/// Drops the solver variables of the literals, which have no values.
fn detach_unfixed_vars<W: ProofTarget, A: Allocator + Copy>(
    tracer: &mut SolverTracer<W, A>,
    lits: &[Lit],
) -> Result<(), AllocError>
    requires taken { (l : Literal) → l ∈ lits.now → IsSome (at tracer.old.tables.solvers.backward (variable_of l)) }
    requires distinct { IsDistinct (map variable_of lits.now) }
    ensures released { OnOk result (AreDetached lits.now (tracer_state tracer.old) (tracer_state tracer.new)) }
    ensures rest { OnOk result (DetachesFromTables lits.now tracer.old.tables tracer.new.tables) }
    ensures opened { open_parts tracer.new.proof ≡ open_parts tracer.old.proof }
{
    for lit in lits {
        tracer.tables.prove_linked();
        detach_solver_var(tracer, lit.var())?;
    }
    Ok(())
}

/// Lets the variables leave that have a value and are not assumed, where the search is at level 0 and all of it is
/// simplified. The proof logs which are gone for good. `literals` is overwritten.
fn detach_listed<W: ProofTarget, A: Allocator + Copy>(
    tracer: &mut SolverTracer<W, A>,
    ctx: &mut Context<A>,
    literals: &mut Vec<Lit, A>,
) -> Result<(), AllocError>
    requires valid { IsValidSolver tracer.old.tables ctx.old }
    requires settled { IsRootSimplified (view ctx.old) }
    ensures leave { OnOk result (Detaches (tracer_state tracer.old) ctx.old (tracer_state tracer.new) ctx.new) }
    ensures schedule { KeepsSchedule ctx.old ctx.new }
    ensures state { ctx.new.solver_state ≡ ctx.old.solver_state }
    ensures settled { OnOk result (IsRootSimplified (view ctx.new)) }
    ensures left { OnOk result (AreOverAssumed tracer.new.tables ctx.new.trail.literals) }
    ensures opened { open_parts tracer.new.proof ≡ open_parts tracer.old.proof }
{
    tracer.tables.prove_linked();
    list_unassumed(&tracer.tables, ctx.trail.trail(), literals)?;
    let alloc = *literals.allocator();
    let gone = flag_variables(alloc, ctx.assignment.assignment().len(), literals)?;
    detach_variables(ctx, &gone);
    detach_fixed_vars(tracer, literals)?;
    Ok(())
}

/// Lets the hidden variables leave that no kept clause names, where those with a value left that are not assumed. The
/// proof logs which are gone for good. Where the search has no hidden variable it passes over no clause. `literals` is
/// overwritten.
fn detach_unneeded<W: ProofTarget, A: Allocator + Copy>(
    tracer: &mut SolverTracer<W, A>,
    ctx: &mut Context<A>,
    literals: &mut Vec<Lit, A>,
) -> Result<(), AllocError>
    requires valid { IsValidSolver tracer.old.tables ctx.old }
    requires settled { IsRootSimplified (view ctx.old) }
    requires left { AreOverAssumed tracer.old.tables ctx.old.trail.literals }
    ensures leave { OnOk result (Detaches (tracer_state tracer.old) ctx.old (tracer_state tracer.new) ctx.new) }
    ensures schedule { KeepsSchedule ctx.old ctx.new }
    ensures state { ctx.new.solver_state ≡ ctx.old.solver_state }
    ensures settled { OnOk result (IsRootSimplified (view ctx.new)) }
    ensures left { OnOk result (HasOnlyNeeded tracer.new.tables (view ctx.new)) }
    ensures opened { open_parts tracer.new.proof ≡ open_parts tracer.old.proof }
{
    if !has_hidden(&tracer.tables) {
        return Ok(());
    }
    tracer.tables.prove_linked();
    let mentioned = flag_mentioned(ctx)?;
    list_unneeded(&tracer.tables, &mentioned, literals)?;
    let alloc = *literals.allocator();
    let gone = flag_variables(alloc, ctx.assignment.assignment().len(), literals)?;
    detach_variables(ctx, &gone);
    detach_unfixed_vars(tracer, literals)?;
    Ok(())
}

/// At level 0, where literals are still to be propagated, simplifies the root level and lets the variables leave the
/// search that have a value and are not assumed, and the hidden ones that no kept clause names. The tracer takes the
/// lines of simplifying, and the proof logs which variables are gone for good. Does nothing at another level, nor if
/// nothing is left to be propagated, so that a step passes over all clauses no more often than its conflict step would.
/// Lets none leave where a clause is false. `literals` is overwritten.
pub fn detach_fixed<W: ProofTarget, A: Allocator + Copy>(
    tracer: &mut SolverTracer<W, A>,
    ctx: &mut Context<A>,
    literals: &mut Vec<Lit, A>,
) -> Result<(), StepError>
    requires { CanSearch (tracer_state tracer.old) ctx.old }
    ensures detached { OnOk result
        (DetachesFixed (tracer_state tracer.old) (tracer_state tracer.new) ctx.old ctx.new) }
    ensures schedule { KeepsSchedule ctx.old ctx.new }
    ensures state { ctx.new.solver_state ≡ ctx.old.solver_state }
    // What the target of an open proof has after an error, which is never that the store is full.
    ensures broken { IfErr result (λ error. BreaksProof tracer.old.proof (step_faults error) tracer.new.proof) }
    ensures full { IfErr result (λ error. error ≢ StepError.Full) }
{
    if !is_root_unpropagated(ctx) {
        return Ok(());
    }
    let settled = match simplify_root(ctx, tracer) {
        Ok(settled) => settled,
        Err(error) => return Err(StepError::from(error)),
    };
    if settled.is_err() {
        return Ok(());
    }
    detach_listed(tracer, ctx, literals)?;
    detach_unneeded(tracer, ctx, literals)?;
    Ok(())
}
