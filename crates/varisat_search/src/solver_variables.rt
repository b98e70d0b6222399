//! Solver variables, which variables take once a clause or an assumption names them.
ghost use Rattle.std.specs.Prelude.{◌≡◌, ◌≢◌, ◌<◌, None, false, length, slice_index_or, IsSome, OnOk, IfOk, MatchOption};
ghost use Rattle.varisat_theory.specs.promises.Literals.{Literal, variable_of, literal_of};
ghost use Rattle.varisat_theory.specs.promises.Searches.{IsLiteralOf};
ghost use Rattle.varisat_literals.specs.promises.Numbers.{variable_limit};
ghost use Rattle.varisat_names.specs.promises.Maps.{chain};
ghost use Rattle.varisat_names.specs.promises.VarMap.{at};
ghost use Rattle.varisat_names.specs.promises.VarData.{data_at};
ghost use Rattle.varisat_names.specs.promises.Variables.{Tables, IsNamed};
ghost use Rattle.varisat_prop.specs.View.{kept};
ghost use Rattle.varisat_search.specs.Contexts.{view, IsReady, KeepsSchedule};
ghost use Rattle.varisat_search.specs.Decisions.{IsDecidable, SameDecidableBut};
ghost use Rattle.varisat_search.specs.Frames.{SameVariablesBut};
ghost use Rattle.varisat_search.specs.Forgotten.{AreNotOf, IsUnmentioned};
ghost use Rattle.varisat_search.specs.Seen.{search_of};
ghost use Rattle.varisat_search.specs.SolverVariables.{HasRoom, HasRoomFor, searched_with, HasVariables, KeepsSeen, HasUnitAgain, HasSolverVariable, NameHasSolver, RemovesSolver, HaveSolversInTurn, AreOver};

use crate::context::{Context, set_var_count};
use crate::decision::{make_available, remove_var};
use crate::load::resurrect_unit;
use std::alloc::{AllocError, Allocator};
use varisat_literals::{Lit, Var};
use varisat_names::variables::LinkedVariables;
use varisat_names::variables::naming::global_from_user;

/// Makes the solver variable, which was just taken, available for decisions. Where it stands for a variable that left
/// the search with a value, the unit clause for that value is held again.
#[cold]
#[inline(never)]
pub fn initialize_solver_var<A: Allocator + Copy>(
    ctx: &mut Context<A>,
    solver: Var,
    unit: Option<bool>,
) -> Result<(), AllocError>
    requires ready { IsReady ctx.old }
    requires known { solver < length ctx.old.assignment.current }
    requires unmentioned { (l : Literal) → IsLiteralOf (search_of (view ctx.old)) l → variable_of l ≢ solver }
    ensures ready { OnOk result (IsReady ctx.new) }
    ensures decidable { OnOk result (IsDecidable (view ctx.new) ctx.new.vsids solver) }
    ensures others { OnOk result (SameVariablesBut solver ctx.old ctx.new) }
    ensures unit { OnOk result
        (MatchOption unit (KeepsSeen ctx.old ctx.new)
        (λ value. HasUnitAgain (literal_of solver value) ctx.old ctx.new)) }
    ensures schedule { KeepsSchedule ctx.old ctx.new }
{
    make_available(ctx, solver);
    let Some(value) = unit else {
        return Ok(());
    };
    resurrect_unit(ctx, solver.lit(value))?;
    Ok(())
}

/// The solver variable of a live global variable. Where it has none it takes the least free one, and the search has
/// that and may decide it.
pub fn solver_from_global<A: Allocator + Copy>(
    ctx: &mut Context<A>,
    variables: &mut LinkedVariables<A>,
    global: Var,
) -> Result<Var, AllocError>
    requires variables { HasVariables (searched_with variables.old ctx.old) }
    requires live { (data_at variables.old.kept global).deleted ≡ false }
    ensures variables { OnOk result (HasVariables (searched_with variables.new ctx.new)) }
    ensures solver { IfOk result
        (HasSolverVariable global (searched_with variables.old ctx.old) (searched_with variables.new ctx.new)) }
    ensures schedule { KeepsSchedule ctx.old ctx.new }
{
    if let Some(solver) = variables.solver_from_global().get(global) {
        return Ok(solver);
    }
    let solver = variables.take_solver_var(global)?;
    variables.prove_linked();
    set_var_count(ctx, variables.solver_watermark())?;
    let unit = variables.var_data_global(global).unit;
    initialize_solver_var(ctx, solver, unit)?;
    Ok(solver)
}

/// The solver variable of the name, which comes into use where it is free.
pub fn solver_from_user<A: Allocator + Copy>(
    ctx: &mut Context<A>,
    variables: &mut LinkedVariables<A>,
    user: Var,
) -> Result<Var, AllocError>
    requires variables { HasVariables (searched_with variables.old ctx.old) }
    requires in_range { user < variable_limit }
    requires room { (mid : Tables) → IsNamed user variables.old mid → HasRoom mid }
    ensures solver { IfOk result
        (NameHasSolver user (searched_with variables.old ctx.old) (searched_with variables.new ctx.new)) }
    ensures schedule { KeepsSchedule ctx.old ctx.new }
{
    let global = global_from_user(variables, user)?;
    variables.prove_linked();
    let solver = solver_from_global(ctx, variables, global)?;
    variables.prove_linked();
    Ok(solver)
}

/// Lists the literals over solver variables, in the given order. `solver_lits` is overwritten.
pub fn solver_from_user_lits<A: Allocator + Copy>(
    ctx: &mut Context<A>,
    variables: &mut LinkedVariables<A>,
    solver_lits: &mut Vec<Lit, A>,
    user_lits: &[Lit],
) -> Result<(), AllocError>
    requires variables { HasVariables (searched_with variables.old ctx.old) }
    requires room { HasRoomFor user_lits.now variables.old }
    ensures variables { OnOk result (HasVariables (searched_with variables.new ctx.new)) }
    ensures in_turn { OnOk result
        (HaveSolversInTurn user_lits.now (searched_with variables.old ctx.old) (searched_with variables.new ctx.new)) }
    ensures literals { OnOk result
        (AreOver
        (chain (at variables.new.users.forward)
        (at variables.new.solvers.forward)) user_lits.now solver_lits.new.items) }
    ensures schedule { KeepsSchedule ctx.old ctx.new }
{
    solver_lits.clear();
    for lit in user_lits {
        let solver = solver_from_user(ctx, variables, lit.var())?;
        solver_lits.push(solver.lit(lit.is_positive()))?;
    }
    Ok(())
}

/// Takes the solver variable from its global variable, which is returned and may be used again where it has no name and
/// is isolated. The search does not decide the solver variable any more, and goes on where no kept clause and no
/// assumption names it. Where memory is refused nothing changes. For a caller that removes one variable: those that
/// leave in a step leave together, by `detach_variables`.
pub fn remove_solver_var<A: Allocator + Copy>(
    ctx: &mut Context<A>,
    variables: &mut LinkedVariables<A>,
    solver: Var,
) -> Result<Var, AllocError>
    requires ready { IsReady ctx.old }
    requires known { solver < length ctx.old.assignment.current }
    requires taken { IsSome (at variables.old.solvers.backward solver) }
    ensures removed { RemovesSolver solver (searched_with variables.old ctx.old)
        (searched_with variables.new ctx.new) result }
    ensures not_decidable { OnOk result
        (slice_index_or ctx.old.assignment.current solver None ≡ None →
        IsDecidable (view ctx.new) ctx.new.vsids solver → ⊥) }
    ensures others { OnOk result (SameDecidableBut solver (view ctx.old) ctx.old.vsids (view ctx.new) ctx.new.vsids) }
    ensures ready { OnOk result
        (IsUnmentioned (kept (view ctx.old)) solver → AreNotOf ctx.old.assumptions.working solver → IsReady ctx.new) }
{
    let global = variables.detach_solver_var(solver)?;
    remove_var(ctx, solver);
    Ok(global)
}
