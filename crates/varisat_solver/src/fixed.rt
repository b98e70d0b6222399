//! Which values of variables are fixed.
ghost use Rattle.std.specs.Prelude.{◌≡◌, ◌<◌, ◌↔◌, ℕ, Some, IsTrue, length};
ghost use Rattle.varisat_names.specs.promises.VarMap.{at};
ghost use Rattle.varisat_search.specs.Contexts.{view};
ghost use Rattle.varisat_solver.specs.promises.Fixed.{IsFixedTo};

use std::alloc::Allocator;
use varisat_literals::Var;
use varisat_names::variables::LinkedVariables;
use varisat_search::context::Context;

/// Whether the value of the global variable is fixed to this one: at level 0 of the search, or as the variable left it.
pub fn is_fixed_to<A: Allocator + Copy>(
    variables: &LinkedVariables<A>,
    ctx: &Context<A>,
    global: Var,
    value: bool,
) -> bool
    requires live { global < length variables.now.kept }
    requires known { (v : ℕ) → at variables.now.solvers.forward global ≡ Some v →
        v < length ctx.now.assignment.current }
    requires nodes { length ctx.now.impl_graph.nodes.items ≡ length ctx.now.assignment.current }
    ensures { IsTrue result
        ↔ IsFixedTo variables.now (view ctx.now) global value (at variables.now.solvers.forward global) }
{
    match variables.solver_from_global().get(global) {
        Some(solver) => {
            ctx.impl_graph.level(solver) == 0 && ctx.assignment.var_value(solver) == Some(value)
        }
        None => variables.var_data_global(global).unit == Some(value),
    }
}
