//! Maps and data of variables that are lent, and what the iterators list.

use std::alloc::{AllocError, Global};
use varisat_literals::{Var, var};
use varisat_names::variables::Variables;

/// The number of the variable, and 0 where there is none.
fn number(var: Option<Var>) -> isize {
    match var {
        Some(var) => var.to_dimacs(),
        None => 0,
    }
}

/// The numbers of the first two names in use, and of the first two live global variables.
fn listed(variables: &Variables<Global>) -> [isize; 4] {
    let mut users = variables.user_var_iter();
    let mut globals = variables.global_var_iter();
    let first = [users.next(), users.next(), globals.next(), globals.next()];
    first.map(number)
}

/// Lets the second name lead to the third global variable, and that one to the first solver variable, where nothing of these is
/// mapped yet.
fn join(variables: &mut Variables<Global>) -> Result<(), AllocError> {
    let named = variables.user_from_global().get(var!(3));
    if named.is_none() & variables.global_from_user().get(var!(2)).is_none() {
        variables.global_from_user_mut().insert(var!(3), var!(2))?;
    }
    let taken = variables.global_from_solver().get(var!(1));
    if taken.is_none() & variables.solver_from_global().get(var!(3)).is_none() {
        variables.global_from_solver_mut().insert(var!(3), var!(1))?;
    }
    Ok(())
}

/// Changes what is kept of the global variable of the first solver variable, if there is one.
fn change(variables: &mut Variables<Global>) {
    if let Some(taken) = variables.global_from_solver().get(var!(1)) {
        if taken.index() < variables.global_watermark() {
            let mut lent = variables.var_data_solver_mut(var!(1));
            let mut kept = lent.get();
            kept.deleted = false;
            lent.set(kept);
        }
    }
}

/// Whether maps and data that are lent change, of four global variables, and nothing else does.
fn is_lent(variables: &mut Variables<Global>) -> Result<bool, AllocError> {
    variables.reach_global(var!(4))?;
    join(variables)?;
    change(variables);
    let were_listed = listed(variables) == [2, 0, 3, 0];
    let removed = [
        variables.user_from_global_mut().remove(var!(3)),
        variables.solver_from_global_mut().remove(var!(3)),
        variables.solver_from_global_mut().remove(var!(3)),
    ];
    let are_removed = removed.map(number) == [2, 1, 0];
    Ok(were_listed & are_removed & (listed(variables) == [0, 0, 3, 0]))
}

fn is_new_one_lent(alloc: Global) -> Result<bool, AllocError> {
    let mut variables = Variables::new_in(alloc);
    let is_right = is_lent(&mut variables);
    drop(variables);
    is_right
}

#[test]
fn lent_maps_are_changed(rt: HostRuntime) {
    assert!(rt; matches!(is_new_one_lent(rt.alloc()), Ok(true)));
}
