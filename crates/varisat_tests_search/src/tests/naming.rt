//! Calls on names that no solver makes: the model of global variables, and a solver variable that is taken away.
ghost use Rattle.std.specs.Prelude.{◌≡◌, ◌≤◌, false, length, IsTrue};
ghost use Rattle.varisat_names.specs.promises.VarData.{data_at};
ghost use Rattle.varisat_search.specs.Contexts.{IsReady};

use super::searches::loaded;
use std::alloc::{AllocError, Global};
use varisat_literals::{Var, lit, var};
use varisat_names::variables::LinkedVariables;
use varisat_search::context::Context;
use varisat_search::error::StepError;
use varisat_search::model::{Model, reconstruct_global_model};
use varisat_search::solver_variables::remove_solver_var;

/// Whether the global variable is live.
fn is_live(variables: &LinkedVariables<Global>, global: Var) -> bool
    ensures { IsTrue result → (data_at variables.now.kept global).deleted ≡ false }
{
    global.index() < variables.global_watermark() && !variables.var_data_global(global).deleted
}

/// Whether there are at most a hundred names and variables.
fn are_few(variables: &LinkedVariables<Global>) -> bool
    ensures names { IsTrue result → length variables.now.users.forward ≤ 100 }
    ensures globals { IsTrue result → length variables.now.kept ≤ 100 }
{
    variables.user_watermark() <= 100 && variables.global_watermark() <= 100
}

/// Three names with their variables: that of 1 has a solver variable, that of 2 a unit, and that of 3 neither.
fn make_three(variables: &mut LinkedVariables<Global>) -> Result<(), AllocError> {
    if are_few(variables) {
        variables.name_user_var(var!(3))?;
    }
    let is_free = variables.solver_from_global().get(var!(1)).is_none();
    if is_free && is_live(variables, var!(1)) && variables.solver_watermark() <= 100 {
        variables.take_solver_var(var!(1))?;
    }
    if is_live(variables, var!(2)) {
        variables.set_unit(var!(2), true);
    }
    Ok(())
}

/// Whether the model has the value of the solver variable, the unit, and false.
fn is_right(model: &Model<Global>) -> bool {
    let values = [Some(true), Some(true), Some(false)];
    (model.assignment() == values.as_slice()) & (model.assignment().len() > 0)
        && model.lit_is_true(lit!(1))
}

/// Whether the three variables get the model that they should.
fn is_modelled(alloc: Global, variables: &mut LinkedVariables<Global>) -> Result<bool, AllocError> {
    make_three(variables)?;
    if !are_few(variables) {
        return Ok(false);
    }
    let model = reconstruct_global_model(alloc, variables, &[Some(true)])?;
    Ok(is_right(&model))
}

/// Takes the first solver variable away, if there is one. Says whether it was that of 1, which has none then.
fn is_removed(
    ctx: &mut Context<Global>,
    variables: &mut LinkedVariables<Global>,
) -> Result<bool, AllocError>
    requires { IsReady ctx.old }
{
    let is_taken = variables.global_from_solver().get(var!(1)).is_some();
    if !is_taken || ctx.assignment.assignment().is_empty() {
        return Ok(false);
    }
    let global = remove_solver_var(ctx, variables, var!(1))?;
    Ok((global == var!(1)) & variables.solver_from_global().get(var!(1)).is_none())
}

/// Whether both are right, of a search with one variable.
fn are_right(
    alloc: Global,
    ctx: &mut Context<Global>,
    variables: &mut LinkedVariables<Global>,
) -> Result<[bool; 2], AllocError>
    requires { IsReady ctx.old }
{
    let is_modelled = is_modelled(alloc, variables)?;
    let is_removed = is_removed(ctx, variables)?;
    Ok([is_modelled, is_removed])
}

fn are_right_in(alloc: Global) -> Result<[bool; 2], StepError> {
    let mut ctx = loaded(alloc, 1, &[])?;
    let mut variables = LinkedVariables::new_in(alloc);
    let are_right = are_right(alloc, &mut ctx, &mut variables);
    drop(ctx);
    drop(variables);
    Ok(are_right?)
}

#[test]
fn variables_have_models_and_are_removed(rt: HostRuntime) -> Result<(), StepError> {
    assert!(rt; are_right_in(rt.alloc())? == [true; 2]);
    Ok(())
}
