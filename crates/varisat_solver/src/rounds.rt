//! A search in rounds, behind each of which it is reported how far it is.
ghost use Rattle.std.specs.Prelude.{◌≡◌, ◌↔◌, ◌<◌, ◌≤◌, IsTrue, Err};
ghost use Rattle.varisat_solver.specs.promises.States.{State};
ghost use Rattle.varisat_solver.specs.inside.Representations.{Represents};
ghost use Rattle.varisat_solver.specs.promises.Represented.{LeadsRepresented};
ghost use Rattle.varisat_solver.specs.promises.Calls.{SearchesWithin, Solves, by_state};

use crate::progress::{write_head, write_row, write_summary};
use crate::solver::{Solver, SolverError};
use std::alloc::Allocator;
use std::io::Write;
use varisat_formula::io::ProofTarget;

/// Searches as `solve` does. Where there is an interval, `err` gets how far the search is: after so many steps each,
/// and at the end.
pub fn search<W: ProofTarget, A: Allocator + Copy, E: Write>(
    solver: &mut Solver<W, A>,
    interval: Option<u64>,
    err: &mut E,
) -> Result<bool, SolverError>
    ensures { (s : State) → Represents solver.old s →
        (t : State) × Solves by_state s result t × Represents solver.new t }
{
    match interval {
        Some(interval) => search_in_rounds(solver, interval, err),
        None => solver.solve(),
    }
}

/// Searches as `solve` does, and reports how far it is.
fn search_in_rounds<W: ProofTarget, A: Allocator + Copy, E: Write>(
    solver: &mut Solver<W, A>,
    interval: u64,
    err: &mut E,
) -> Result<bool, SolverError>
    ensures { (s : State) → Represents solver.old s →
        (t : State) × Solves by_state s result t × Represents solver.new t }
{
    let max_steps = solver.max_steps();
    // A writer that fails here leaves nothing to report.
    let _ = write_head(err);
    let found = seek_in_rounds(solver, max_steps, interval, err);
    solver.set_max_steps(max_steps);
    print_row(err, solver.steps(), solver);
    let _ = write_summary(err, solver.steps(), &solver.statistics());
    if !solver.is_valid() {
        return found;
    }
    solver.end_search()?;
    found
}

/// Makes at most so many steps, as `seek` does, but in rounds with a smaller limit each: they go on from one another,
/// and together they are as one.
fn seek_in_rounds<W: ProofTarget, A: Allocator + Copy, E: Write>(
    solver: &mut Solver<W, A>,
    max_steps: u64,
    interval: u64,
    err: &mut E,
) -> Result<bool, SolverError>
    ensures { LeadsRepresented solver.old (λ s t. SearchesWithin max_steps s result t) solver.new }
{
    let mut rest = max_steps;
    'rounds: loop {
        let round = round_of(rest, interval);
        solver.set_max_steps(round);
        let found = solver.seek();
        let steps = solver.steps();
        if !is_interrupted(&found) {
            return found;
        }
        rest -= round;
        if rest == 0 {
            return found;
        }
        print_row(err, steps, solver);
    }
}

/// Tells how far the search is.
fn print_row<W: ProofTarget, A: Allocator + Copy, E: Write>(
    err: &mut E,
    steps: u64,
    solver: &Solver<W, A>,
) {
    let _ = write_row(err, steps, &solver.statistics(), &solver.size());
}

/// Whether the steps were spent before a verdict was known.
fn is_interrupted(found: &Result<bool, SolverError>) -> bool
    ensures { IsTrue result ↔ (found.now ≡ Err SolverError.Interrupted) }
{
    matches!(found, Err(SolverError::Interrupted))
}

/// How many steps a round may make, where so many are left: the interval, or what is left, and one at least where any
/// is.
fn round_of(rest: u64, interval: u64) -> u64
    ensures within { result ≤ rest }
    ensures some { 0 < rest → 0 < result }
{
    if interval == 0 {
        return rest;
    }
    rest.min(interval)
}
