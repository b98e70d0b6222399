//! Variables that are hidden, by calls of a solver: the variable that a refusal has, and many rounds. What sessions show stands
//! with them.
use std::alloc::Global;
use varisat::config::SolverConfigUpdate;
use varisat::solver::{Solver, SolverError};
use varisat_formula::formula::Lit;
use varisat_formula::io::MemoryTarget;
use varisat_literals::{lits, var};

// A solver that writes no proof.
type TestSolver = Solver<MemoryTarget<Global>, Global>;

// What a row of checks comes to, where no call is refused that isn't meant to be.
type Checked = Result<bool, SolverError>;

// Whether the clause is refused with this text.
fn refuses(alloc: Global, solver: &mut TestSolver, clause: &[Lit], wanted: &str) -> bool {
    match solver.add_clause(clause) {
        Ok(()) => false,
        Err(error) => match error.to_string(alloc) {
            Ok(text) => text.as_str() == wanted,
            Err(_) => false,
        },
    }
}

// The first witness of a clause is returned, and a name past the limit before it. Neither clause names anything.
fn tells_first_witness(alloc: Global, solver: &mut TestSolver) -> Checked {
    solver.witness_var(var!(1))?;
    solver.witness_var(var!(2))?;
    let refusal = "Variable 2 is a witness variable and cannot be constrained";
    let is_refused = refuses(alloc, solver, &lits![3, 2, 1], refusal);
    let limit = "The variable limit is passed";
    let is_past = refuses(alloc, solver, &lits![268435457, 1], limit);
    let var = solver.new_var()?;
    Ok(is_refused & is_past & (var == var!(3)))
}

// One name stands for a new variable twice in each round, and the search never has more than these two.
fn hides_often(solver: &mut TestSolver) -> Checked {
    let mut holds = true;
    for _ in 0..1000 {
        solver.add_clause(&lits![1])?;
        solver.hide_var(var!(1))?;
        solver.add_clause(&lits![-1])?;
        solver.hide_var(var!(1))?;
        let is_satisfiable = solver.solve()?;
        holds &= is_satisfiable & (solver.solver_watermark() <= 2);
    }
    Ok(holds)
}

// Each round hides one of two variables of a clause, makes the other true and hides it, so that no name is left that can
// speak of either. The search never has more variables than those of a round and the two of the round before.
fn hides_satisfied_clauses(solver: &mut TestSolver) -> Checked {
    let mut holds = true;
    for _ in 0..1000 {
        solver.add_clause(&lits![1, 2])?;
        solver.hide_var(var!(1))?;
        solver.add_clause(&lits![2])?;
        solver.hide_var(var!(2))?;
        let is_satisfiable = solver.solve()?;
        holds &= is_satisfiable & (solver.solver_watermark() <= 2);
    }
    Ok(holds)
}

// Settings of a solver, and whether a checker runs inside.
type Settings = (SolverConfigUpdate, bool);

// A new solver with the settings.
fn new_solver(alloc: Global, settings: &Settings) -> TestSolver {
    let mut solver = Solver::new_in(alloc);
    let (update, is_checked) = *settings;
    if is_checked {
        let _ = solver.enable_self_checking();
    }
    let _ = solver.config(&update);
    solver
}

// Each row has a solver of its own.
fn rows(alloc: Global, settings: &Settings) -> [bool; 3] {
    let mut first = new_solver(alloc, settings);
    let mut second = new_solver(alloc, settings);
    let mut third = new_solver(alloc, settings);
    let are_right = [
        matches!(tells_first_witness(alloc, &mut first), Ok(true)),
        matches!(hides_often(&mut second), Ok(true)),
        matches!(hides_satisfied_clauses(&mut third), Ok(true)),
    ];
    drop(first);
    drop(second);
    drop(third);
    are_right
}

#[test]
fn variables_are_hidden(rt: HostRuntime) {
    let mut frequent = SolverConfigUpdate::new();
    frequent.reduce_locals_interval = Some(1);
    frequent.reduce_mids_interval = Some(1);
    let rare = SolverConfigUpdate::new();
    // Learned clauses are reduced rarely, and at each step; and a checker runs inside.
    for settings in [(rare, false), (frequent, false), (rare, true)] {
        let rows = rows(rt.alloc(), &settings);
        assert!(rt; rows == [true; 3], "{rows:?}, {settings:?}");
    }
}
