//! A model over the global variables.
ghost use Rattle.std.specs.Prelude.{◌≡◌, ◌<◌, ◌≤◌, ◌^◌, ◌↔◌, [], length, IfOk, IsTrue};
ghost use Rattle.varisat_theory.specs.promises.Literals.{variable_of};
ghost use Rattle.varisat_prop.specs.Parts.{IsMadeTrue};
ghost use Rattle.varisat_search.specs.GlobalModels as model;

use std::alloc::{AllocError, Allocator};
use std::marker;
use varisat_literals::{Lit, Var};
use varisat_names::variables::LinkedVariables;

/// The values of the global variables in a model.
#[derive(Drop)]
pub struct Model<A: Allocator + Copy> {
    assignment: Vec<Option<bool>, A>,
}

impl<A: Allocator + Copy> marker::Model for Model<A> {
    ghost use Rattle.std.specs.Prelude.{List, Option, Bool};

    ghost Value = { List (Option Bool) };

    ghost view = { λ m. m.assignment.items };
}

impl<A: Allocator + Copy> Model<A> {
    /// The model of no variables. It takes no memory.
    pub fn new_in(alloc: A) -> Model<A>
        ensures { result ≡ [] }
    {
        Model {
            assignment: Vec::new(alloc),
        }
    }

    /// For each global variable its value; None of one that is not live.
    pub fn assignment(&self) -> &[Option<bool>]
        ensures { result.now ≡ self.now }
    {
        &self.assignment
    }

    /// Whether the literal of a global variable is true.
    pub fn lit_is_true(&self, global_lit: Lit) -> bool
        requires { variable_of global_lit < length self.now }
        ensures { IsTrue result ↔ IsMadeTrue self.now global_lit }
    {
        self.assignment[global_lit.index()] == Some(global_lit.is_positive())
    }
}

/// The value of the global variable, where the solver variables have these values.
fn global_value<A: Allocator + Copy>(
    variables: &LinkedVariables<A>,
    values: &[Option<bool>],
    global: Var,
) -> Option<bool>
    requires { global < length variables.now.kept }
    ensures { result ≡ model.global_value variables.now values.now global }
{
    let kept = variables.var_data_global(global);
    if kept.deleted {
        return None;
    }
    match variables.solver_from_global().get(global) {
        Some(solver) if solver.index() < values.len() => values[solver.index()],
        Some(_) => None,
        None => Some(kept.unit.unwrap_or(false)),
    }
}

/// The model of the global variables, where the solver variables have these values: a live variable has the value of
/// its solver variable, without one the unit that is kept, and else false; one that is not live has none.
pub fn reconstruct_global_model<A: Allocator + Copy>(
    alloc: A,
    variables: &LinkedVariables<A>,
    values: &[Option<bool>],
) -> Result<Model<A>, AllocError>
    requires { length variables.now.kept ≤ 2 ^ 31 }
    ensures { IfOk result (model.IsGlobalModel variables.now values.now) }
{
    let mut assignment = Vec::new(alloc);
    for index in 0..variables.global_watermark() {
        assignment.push(global_value(variables, values, Var::from_index(index)))?;
    }
    Ok(Model { assignment })
}
