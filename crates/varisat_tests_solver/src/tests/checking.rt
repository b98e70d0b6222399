//! The checker that runs inside a solver.

use std::alloc::Global;
use varisat::solver::{Solver, SolverError};
use varisat_formula::formula::Lit;
use varisat_formula::io::MemoryTarget;
use varisat_literals::{lit, var};

// A solver that writes no proof.
type TestSolver = Solver<MemoryTarget<Global>, Global>;

// Whether a checker runs inside the solver that has so many clauses, and this one among them.
fn has(solver: &TestSolver, count: usize, clause: &[Lit]) -> bool {
    match solver.checker() {
        Some(checker) => (checker.len() == count) & checker.has_clause(clause),
        None => false,
    }
}

// Whether it has two clauses, each of one literal.
fn has_two_units(solver: &TestSolver) -> bool {
    match solver.checker() {
        Some(checker) if checker.len() == 2 => {
            (checker.clause(0).len() == 1) & (checker.clause(1).len() == 1)
        }
        _ => false,
    }
}

// A clause that is satisfied as it is loaded is deleted at once.
fn is_satisfied_deleted(solver: &mut TestSolver) -> Result<bool, SolverError> {
    solver.enable_self_checking()?;
    solver.add_clause(&[lit!(1)])?;
    solver.add_clause(&[lit!(2), lit!(1), lit!(2)])?;
    Ok(has(solver, 1, &[lit!(1)]))
}

// The clauses of a hidden variable leave with it. Its name comes back for another one.
fn is_hidden_gone(solver: &mut TestSolver) -> Result<bool, SolverError> {
    solver.enable_self_checking()?;
    solver.add_clause(&[lit!(1), lit!(2)])?;
    solver.hide_var(var!(1))?;
    solver.add_clause(&[lit!(-1)])?;
    solver.add_clause(&[lit!(-2)])?;
    let is_satisfiable = solver.solve()?;
    Ok(is_satisfiable & has(solver, 2, &[lit!(-2)]) & has_two_units(solver))
}

// A clause may be accepted twice.
fn is_taken_twice(solver: &mut TestSolver) -> Result<bool, SolverError> {
    solver.enable_self_checking()?;
    solver.add_clause(&[lit!(4)])?;
    solver.add_clause(&[lit!(4)])?;
    let is_satisfiable = solver.solve()?;
    Ok(is_satisfiable & has(solver, 2, &[lit!(4)]))
}

// Once a clause was accepted no checker begins.
fn is_too_late(solver: &mut TestSolver) -> Result<bool, SolverError> {
    solver.add_clause(&[lit!(1)])?;
    let is_refused = match solver.enable_self_checking() {
        Err(SolverError::ProofTooLate) => true,
        Err(_) | Ok(()) => false,
    };
    Ok(is_refused & solver.checker().is_none())
}

#[test]
fn the_checker_inside_has_the_clauses(rt: HostRuntime) -> Result<(), SolverError> {
    let alloc = rt.alloc();
    let mut solvers = [
        TestSolver::new_in(alloc),
        TestSolver::new_in(alloc),
        TestSolver::new_in(alloc),
        TestSolver::new_in(alloc),
    ];
    let are_right = [
        is_satisfied_deleted(&mut solvers[0])?,
        is_hidden_gone(&mut solvers[1])?,
        is_taken_twice(&mut solvers[2])?,
        is_too_late(&mut solvers[3])?,
    ];
    assert!(rt; are_right == [true; 4], "{are_right:?}");
    Ok(())
}
