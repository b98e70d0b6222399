//! What a solver counts.
use std::alloc::Global;
use std::io::Cursor;
use varisat::search::Counters;
use varisat::solver::{Solver, SolverError};
use varisat_formula::io::{MemoryTarget, ReadSource};
use varisat_literals::{Lit, Var};
use varisat_names::config::SolverConfigUpdate;

type TestSolver = Solver<MemoryTarget<Global>, Global>;

// What was counted once the text was decided, where restarts are due after few steps.
fn counted(
    solver: &mut TestSolver,
    restart_glue: u64,
    text: &'static str,
) -> Result<Counters, SolverError> {
    let mut update = SolverConfigUpdate::new();
    update.luby_restart_interval_scale = Some(1);
    update.restart_glue = Some(restart_glue);
    solver.config(&update)?;
    let mut source = ReadSource::new(Cursor::new(text));
    solver.add_dimacs_cnf(&mut source)?;
    let _ = solver.solve()?;
    Ok(solver.statistics())
}

// The same of a new solver.
fn counted_in_new(
    alloc: Global,
    restart_glue: u64,
    text: &'static str,
) -> Result<Counters, SolverError> {
    let mut solver = Solver::new_in(alloc);
    let counted = counted(&mut solver, restart_glue, text);
    drop(solver);
    counted
}

// The pigeon, of eight, sits in the hole, of seven.
fn sits(pigeon: usize, hole: usize) -> Lit {
    Var::from_index(pigeon % 8 * 7 + hole % 7).positive()
}

// Each pigeon sits in a hole, and no two in the same.
fn add_pigeons(solver: &mut TestSolver) -> Result<(), SolverError> {
    for pigeon in 0..8 {
        solver.add_clause(&[
            sits(pigeon, 0),
            sits(pigeon, 1),
            sits(pigeon, 2),
            sits(pigeon, 3),
            sits(pigeon, 4),
            sits(pigeon, 5),
            sits(pigeon, 6),
        ])?;
        for hole in 0..7 {
            for other in 0..pigeon {
                solver.add_clause(&[!sits(pigeon, hole), !sits(other, hole)])?;
            }
        }
    }
    Ok(())
}

// How many restarts a search of them makes within so many steps, where the second one is due at the step.
fn restarts_of_pigeons(
    solver: &mut TestSolver,
    second: u64,
    steps: u64,
) -> Result<u64, SolverError> {
    let mut update = SolverConfigUpdate::new();
    update.luby_restart_interval_scale = Some(second);
    update.restart_glue = Some(110);
    update.max_steps = Some(steps);
    solver.config(&update)?;
    add_pigeons(solver)?;
    let _ = solver.solve();
    Ok(solver.statistics().restarts)
}

fn restarts_in_new(alloc: Global, second: u64, steps: u64) -> Option<u64> {
    let mut solver = Solver::new_in(alloc);
    let restarts = restarts_of_pigeons(&mut solver, second, steps).ok();
    drop(solver);
    restarts
}

// They are 56 variables, so that an interval is short which ends before step 2^57. The first step begins with a restart, and the
// search takes more than 1,024 conflicts.
#[test]
fn restarts_come_between_points(rt: HostRuntime) {
    let short = restarts_in_new(rt.alloc(), (1 << 57) - 1, u64::MAX);
    assert!(rt; short.is_some_and(|restarts| restarts > 1));
    assert!(rt; restarts_in_new(rt.alloc(), 1 << 57, u64::MAX) == Some(1));
}

// A restart is due before each interval of 1, 1, 2, 1, 1, 2, 4 steps and so on, and that of 32 begins behind 160.
#[test]
fn restarts_come_among_first_conflicts(rt: HostRuntime) {
    assert!(rt; restarts_in_new(rt.alloc(), 1, 160) == Some(0));
    assert!(rt; restarts_in_new(rt.alloc(), 1, 161) == Some(1));
}

// By the first decision both clauses of two literals with it conflict, so that one unit clause is learned; it makes the
// others conflict at level 0.
#[test]
fn searches_are_counted(rt: HostRuntime) {
    let none = counted_in_new(rt.alloc(), 0, "1 2 0\n");
    let refuted = counted_in_new(rt.alloc(), 0, "1 2 0 -1 2 0 1 -2 0 -1 -2 0\n");
    let (Ok(none), Ok(refuted)) = (none, refuted) else {
        assert!(rt; false);
        return;
    };
    assert!(rt; (none.conflicts, none.restarts) == (0, 1));
    assert!(rt; none.decisions >= 1);
    assert!(rt; none.propagations == 2);
    assert!(rt;
        (
            refuted.conflicts,
            refuted.decisions,
            refuted.learned_literals
        ) == (2, 1, 1)
    );
}

// The next restart is due a step later.
#[test]
fn due_restarts_are_passed_over(rt: HostRuntime) {
    let Ok(counters) = counted_in_new(rt.alloc(), 100, "1 2 0\n") else {
        assert!(rt; false);
        return;
    };
    assert!(rt; (counters.conflicts, counters.restarts) == (0, 0));
}
