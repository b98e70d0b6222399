//! A search in rounds of steps, between which it is asked whether the time is spent.
ghost use Rattle.std.specs.Prelude.{◌≡◌, ◌≤◌, ◌<◌, true, IfOk, Ok};
ghost use Rattle.varisat_solver.specs.promises.States.{State};
ghost use Rattle.varisat_solver.specs.inside.Representations.{Represents};
ghost use Rattle.varisat_solver.specs.promises.Calls.{with_max_steps};
ghost use Rattle.varisat.specs.promises.Decided.{allowed_steps};
ghost use Rattle.varisat.specs.promises.Proven.{Reports};
ghost use Rattle.varisat_solve.specs.promises.Timing.{IsLimitInTime};

use crate::pace::Pace;
use crate::watch::Watch;
use std::alloc::Allocator;
use std::io::Write;
use std::time::{Clock, CpuClock};
use varisat::deciding::{Report, find_report};
use varisat::io::ProofTarget;
use varisat::solver::{Solver, SolverError};

/// Searches and lists the model that is found, as `find_report` does, in so many steps at most. If the time is limited, no
/// further step is made once it is spent, and the limit of steps is lowered to those that were allowed by then.
pub fn find_within<W: ProofTarget, A: Allocator + Copy, E: Write, C: Clock + CpuClock>(
    solver: &mut Solver<W, A>,
    max_steps: &mut Option<u64>,
    progress: Option<u64>,
    watch: &Watch<'_, C>,
    err: &mut E,
) -> Result<Report<A>, SolverError>
    ensures limit { IsLimitInTime watch.now.max_seconds max_steps.old max_steps.new }
    ensures found { (s : State) → Represents solver.old s →
        (t : State) × Reports (with_max_steps (allowed_steps max_steps.new) s) result t
        × IfOk result (λ _. Represents solver.new t) }
{
    let most = max_steps.unwrap_or(u64::MAX);
    if watch.max_seconds.is_none() {
        solver.set_max_steps(most);
        return find_report(solver, progress, err);
    }
    let (found, allowed) = find_in_rounds(solver, most, progress.is_some(), watch, err);
    *max_steps = Some(allowed);
    found
}

/// Searches in rounds of steps, none of them once the time is spent, and of so many steps at most together. They go on from
/// one another, and together they are as one search. Returns also how many steps they might make together, which is the limit
/// then. How far the search is goes on `err`, where that is wanted.
fn find_in_rounds<W: ProofTarget, A: Allocator + Copy, E: Write, C: Clock + CpuClock>(
    solver: &mut Solver<W, A>,
    most: u64,
    is_shown: bool,
    watch: &Watch<'_, C>,
    err: &mut E,
) -> (Result<Report<A>, SolverError>, u64)
    ensures within { result.1 ≤ most }
    ensures found { (s : State) → Represents solver.old s →
        (t : State) × Reports (with_max_steps result.1 s) result.0 t
        × IfOk result.0 (λ _. Represents solver.new t) }
{
    let mut pace = Pace::new(watch.cpu_time(), is_shown);
    let mut rest = most;
    'rounds: loop {
        let round = pace.next_round(watch, rest);
        solver.set_max_steps(round);
        let found = find_report(solver, None, err);
        let steps = solver.steps();
        rest -= round;
        if !goes_on(&found, round, rest) {
            let allowed = most - rest;
            solver.set_max_steps(allowed);
            pace.tell_end(err, steps, &solver.statistics());
            return (found, allowed);
        }
        pace.end_round(watch.cpu_time());
        pace.tell(err, steps, &solver.statistics());
    }
}

/// Whether a round comes after one of so many steps, where so many are left: these were spent before more was known.
fn goes_on<A: Allocator + Copy>(
    found: &Result<Report<A>, SolverError>,
    round: u64,
    rest: u64,
) -> bool
    ensures some { result ≡ true → 0 < round }
    ensures unknown { result ≡ true → found.now ≡ Ok Report.Unknown }
{
    round > 0 && rest > 0 && matches!(found, Ok(Report::Unknown))
}
