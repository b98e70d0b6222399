//! What the calls that set the mode of a variable and hide it change.
ghost use Rattle.std.specs.Prelude.{◌≡◌, ◌≢◌, false, None, MatchBool, IfOk, OnOk, OnErr};
ghost use Rattle.varisat_names.specs.promises.VarData.{data_at};
ghost use Rattle.varisat_names.specs.promises.VarMap.{at};
ghost use Rattle.varisat_tracer.specs.inside.Tracing.{tracer_state};
ghost use Rattle.varisat_solver.specs.inside.Accepting.{AreBounded};
ghost use Rattle.varisat_names.specs.declared.variables.data.SamplingMode.TheVariants as sampling;
ghost use Rattle.varisat_solver.specs.inside.VariableChanges.{CanBeChanged, ChecksChange, IsMarkedName, SetsNamedMode, RetiresIfUnused, HidesNamed, ChangesNamed};

use crate::name_checks::{has_too_many_variables, is_past_limit};
use crate::solver::SolverError;
use std::alloc::{AllocError, Allocator};
use varisat_formula::io::ProofTarget;
use varisat_literals::Var;
use varisat_names::variables::LinkedVariables;
use varisat_names::variables::data::SamplingMode;
use varisat_names::variables::naming::{global_from_user, set_sampling_mode};
use varisat_search::state::SatState;
use varisat_tracer::SolverTracer;

/// Whether the variable of the name, if it is in use, is assumed.
fn is_assumed<A: Allocator + Copy>(variables: &LinkedVariables<A>, var: Var) -> bool
    ensures { MatchBool result (IsMarkedName variables.now var) (IsMarkedName variables.now var → ⊥) }
{
    variables.prove_linked();
    match variables.global_from_user().get(var) {
        Some(global) => variables.var_data_global(global).assumed,
        None => false,
    }
}

/// Refuses a change of the name's variable where the name is past the limit, where there is no room for the variables
/// that come into use with it, and where its variable is assumed.
pub fn check_change<A: Allocator + Copy>(
    variables: &LinkedVariables<A>,
    var: Var,
) -> Result<(), SolverError>
    requires { AreBounded variables.now }
    ensures { ChecksChange variables.now var result }
{
    let list = [var.positive()];
    if is_past_limit(&list) || has_too_many_variables(variables, &list) {
        return Err(SolverError::VariableLimit);
    }
    if is_assumed(variables, var) {
        return Err(SolverError::AssumedVar { var });
    }
    Ok(())
}

/// Names the name, and sets how its variable, which is returned, may be used: `Hide` frees the name.
fn set_named_mode<A: Allocator + Copy>(
    variables: &mut LinkedVariables<A>,
    var: Var,
    mode: SamplingMode,
) -> Result<Var, AllocError>
    requires { CanBeChanged var variables.old }
    ensures set { IfOk result (λ global. SetsNamedMode var mode variables.old global variables.new) }
    ensures free { OnErr result (mode ≢ sampling.Hide → at variables.old.users.forward var ≡ None) }
{
    variables.prove_linked();
    let global = global_from_user(variables, var)?;
    variables.prove_linked();
    set_sampling_mode(variables, global, mode)?;
    Ok(global)
}

/// Lets the hidden variable leave for good where it is unused: it has no solver variable, and clauses do not hold it.
/// The proof logs that.
fn retire_if_unused<W: ProofTarget, A: Allocator + Copy>(
    tracer: &mut SolverTracer<W, A>,
    global: Var,
) -> Result<(), AllocError>
    requires live { (data_at tracer.old.tables.kept global).deleted ≡ false }
    requires unnamed { at tracer.old.tables.users.backward global ≡ None }
    ensures leaves { OnOk result (RetiresIfUnused (tracer_state tracer.old) global (tracer_state tracer.new)) }
    ensures proof { OnErr result (tracer.new.proof ≡ tracer.old.proof) }
{
    tracer.tables.delete_global_if_unused(global)?;
    tracer.retire_var_if_unused(global);
    Ok(())
}

/// Names the name, frees it, and hides its variable, which leaves for good where it is unused. Once the clauses are
/// known to be unsatisfiable none leaves: the proof logs nothing more then, and what it logged stays a refutation.
fn hide_named<W: ProofTarget, A: Allocator + Copy>(
    tracer: &mut SolverTracer<W, A>,
    var: Var,
    verdict: SatState,
) -> Result<(), AllocError>
    requires { CanBeChanged var tracer.old.tables }
    ensures hides { OnOk result (HidesNamed var verdict (tracer_state tracer.old) (tracer_state tracer.new)) }
    ensures proof { OnErr result (tracer.new.proof ≡ tracer.old.proof) }
{
    let global = set_named_mode(&mut tracer.tables, var, SamplingMode::Hide)?;
    if let SatState::Unsat = verdict {
        return Ok(());
    }
    retire_if_unused(tracer, global)?;
    Ok(())
}

/// Names the name, and changes how its variable may be used.
pub fn change_mode<W: ProofTarget, A: Allocator + Copy>(
    tracer: &mut SolverTracer<W, A>,
    var: Var,
    mode: SamplingMode,
    verdict: SatState,
) -> Result<(), AllocError>
    requires { CanBeChanged var tracer.old.tables }
    ensures changes { OnOk result (ChangesNamed var mode verdict (tracer_state tracer.old) (tracer_state tracer.new)) }
    ensures free { OnErr result (mode ≢ sampling.Hide → at tracer.old.tables.users.forward var ≡ None) }
    ensures proof { OnErr result (tracer.new.proof ≡ tracer.old.proof) }
{
    if let SamplingMode::Hide = mode {
        return hide_named(tracer, var, verdict);
    }
    set_named_mode(&mut tracer.tables, var, mode)?;
    Ok(())
}
