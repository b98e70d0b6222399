//! Calls of literals, assignments, implication graphs and variables that no search makes.
ghost use Rattle.std.specs.Prelude.{◌≡◌, length};

use std::alloc::{AllocError, Global};
use varisat_literals::{Lit, Var, lit, var};
use varisat_names::variables::Variables;
use varisat_prop::prop::{Assignment, ImplGraph};

#[test]
fn literals_are_made_of_variables(rt: HostRuntime) {
    let made = [
        Lit::from_var(var!(2), false),
        Lit::from_var(var!(2), true),
        lit!(-2).map_var(|_| var!(5)),
    ];
    assert!(rt; made.map(|literal| literal.to_dimacs()) == [-2, 2, -5]);
    assert!(rt; Var::max_var().index() == 268435455);
}

// The values of literals before and after their variable has one.
fn literal_values(assignment: &mut Assignment<Global>) -> [Option<bool>; 3]
    requires { length assignment.old.current ≡ 2 }
{
    let none = assignment.lit_value(lit!(1));
    assignment.assign_lit(lit!(-1));
    [
        none,
        assignment.lit_value(lit!(1)),
        assignment.lit_value(lit!(-1)),
    ]
}

fn literal_values_in(alloc: Global) -> Result<[Option<bool>; 3], AllocError> {
    let mut assignment = Assignment::new_in(alloc);
    assignment.set_var_count(2)?;
    let values = literal_values(&mut assignment);
    drop(assignment);
    Ok(values)
}

// The depth of a variable, and whether it is a removed unit, before and after it is noted as one.
fn depths(graph: &mut ImplGraph<Global>) -> [(usize, bool); 2]
    requires { length graph.old.nodes.items ≡ 2 }
{
    let first = (graph.depth(var!(2)), graph.is_removed_unit(var!(2)));
    graph.update_removed_unit(var!(2));
    [
        first,
        (graph.depth(var!(2)), graph.is_removed_unit(var!(2))),
    ]
}

fn depths_in(alloc: Global) -> Result<[(usize, bool); 2], AllocError> {
    let mut graph = ImplGraph::new_in(alloc);
    graph.set_var_count(2)?;
    let depths = depths(&mut graph);
    drop(graph);
    Ok(depths)
}

#[test]
fn variables_have_values_and_depths(rt: HostRuntime) -> Result<(), AllocError> {
    let values = literal_values_in(rt.alloc())?;
    assert!(rt; values == [None, Some(false), Some(true)]);
    let depths = depths_in(rt.alloc())?;
    assert!(rt; depths == [(0, false), (0xffff_ffff, true)]);
    Ok(())
}

// What is kept of the first global variable, once it is not deleted any more; None where there is none.
fn kept(variables: &mut Variables<Global>) -> Option<[bool; 3]> {
    if variables.global_watermark() == 0 {
        return None;
    }
    let mut lent = variables.var_data_global_mut(var!(1));
    let mut data = lent.get();
    let was_deleted = data.deleted;
    data.deleted = false;
    lent.set(data);
    if variables.global_watermark() == 0 {
        return None;
    }
    let is_deleted = variables.var_data_global(var!(1)).deleted;
    Some([
        was_deleted,
        is_deleted,
        variables.solver_var_present(var!(1)),
    ])
}

fn kept_in(alloc: Global) -> Result<Option<[bool; 3]>, AllocError> {
    let mut variables = Variables::new_in(alloc);
    variables.reach_global(var!(1))?;
    let kept = kept(&mut variables);
    drop(variables);
    Ok(kept)
}

#[test]
fn data_of_a_variable_is_changed(rt: HostRuntime) -> Result<(), AllocError> {
    let kept = kept_in(rt.alloc())?;
    assert!(rt; kept == Some([true, false, false]));
    Ok(())
}
