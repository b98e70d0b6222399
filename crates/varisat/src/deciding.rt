//! How a text is decided: by a new solver, which may write a proof.
ghost use Rattle.std.specs.Prelude.{◌≡◌, ◌-◌, ◌^◌, ◌<◌, true, Ok, Err, IfOk, IfErr, IsSome};
ghost use Rattle.varisat_proof.specs.promises.Proving.{IsClosed};
ghost use Rattle.varisat_solver.specs.promises.States.{State, new_state};
ghost use Rattle.varisat_solver.specs.inside.Representations.{Represents};
ghost use Rattle.varisat_solver.specs.promises.ProofCalls.{ClosesProof};
ghost use Rattle.varisat.specs.promises.Decided.{concluded};
ghost use Rattle.varisat.specs.promises.Proven.{CanCountFault, prepared, Reports, DecidesBy, SearchesText, FailsBy};

use std::alloc::Allocator;
use std::io::Write;
use std::mem::forget;
use varisat_formula::io::{ByteSource, ProofTarget};
use varisat_literals::Lit;
use varisat_names::config::SolverConfigUpdate;
use varisat_proof::proof::ProofFormat;
use varisat_solver::rounds::search;
use varisat_solver::solver::{Solver, SolverError};

// The settings by which a file is decided. Those of a new solver, 15000, 128 and 0, are the crate's. With the first of
// these a search took between half and three quarters of the time over forty formulas; a restart is due after few steps,
// so that the policy of `restart_glue` chooses, which took 0.8 of the time over formulas of some 200,000 conflicts.
const REDUCE_LOCALS_INTERVAL: u64 = 2000;

const LUBY_RESTART_INTERVAL_SCALE: u64 = 1;

const RESTART_GLUE: u64 = 110;

/// What `solve` keeps to.
#[derive(Clone, Copy, Debug)]
pub struct SolveOptions {
    /// Whether a checker runs inside the solver.
    pub check: bool,
    /// How many steps the search may make, where they are limited.
    pub max_steps: Option<u64>,
    /// After how many steps each it is reported how far the search is, if it is.
    pub progress: Option<u64>,
    /// How a proof is written, where there is one.
    pub format: ProofFormat,
}

/// What a text was found to be.
#[derive(Debug, Drop)]
pub enum Report<A: Allocator + Copy> {
    /// A model of its clauses, or None where there is none.
    Decided(Option<Vec<Lit, A>>),
    /// The steps were spent before that was known.
    Unknown,
}

/// Decides a DIMACS CNF text. A target takes the lines of the search as a proof, which is opened before a clause is
/// accepted and closed at the end; then the target is there again. After an error it is gone. How far the search is
/// goes on `err`, where that is wanted.
// The new solver has a function of its own: it is dropped in one place and in one step, not at each return of
// `decide_in` and part by part. Where all went well nothing but memory is left of it, and the program ends: a list for
// each literal is not given back one by one.
pub fn decide_text<W: ProofTarget, A: Allocator + Copy, S: ByteSource, E: Write>(
    alloc: A,
    cnf: &mut S,
    target: &mut Option<W>,
    options: SolveOptions,
    err: &mut E,
) -> Result<Report<A>, SolverError>
    requires faults { (S.input cnf.old).faults < 2 ^ 64 - 1 }
    requires room { CanCountFault W.taken target.old }
    ensures decided { IfOk result
        (λ report.
        DecidesBy W.taken options (S.input cnf.old) (S.input cnf.new) target.old target.new (concluded report)) }
    ensures searched { IfOk result
        (λ report.
        SearchesText W.taken options target.old (S.input cnf.old) (S.input cnf.new) (concluded report)) }
    ensures fails { IfErr result
        (λ error. FailsBy W.taken options target.old (S.input cnf.old) (S.input cnf.new) error) }
{
    let mut solver: Solver<W, A> = new_solver(alloc, options.check);
    let report = decide_in(&mut solver, cnf, target, options, err);
    match report {
        Ok(report) => {
            forget(solver);
            Ok(report)
        }
        Err(error) => {
            drop(solver);
            Err(error)
        }
    }
}

/// A new solver, inside which a checker runs where that is wanted. Before anything is accepted that is not refused.
pub fn new_solver<W: ProofTarget, A: Allocator + Copy>(alloc: A, is_checked: bool) -> Solver<W, A>
    ensures represents { Represents result (new_state is_checked) }
    ensures checks { is_checked ≡ true → IsSome result.checker }
{
    let mut solver = Solver::new_in(alloc);
    if is_checked {
        let _ = solver.enable_self_checking();
    }
    solver
}

/// The same in a new solver, inside which a checker runs where that is wanted.
fn decide_in<W: ProofTarget, A: Allocator + Copy, S: ByteSource, E: Write>(
    solver: &mut Solver<W, A>,
    cnf: &mut S,
    target: &mut Option<W>,
    options: SolveOptions,
    err: &mut E,
) -> Result<Report<A>, SolverError>
    requires new { Represents solver.old (new_state options.check) }
    requires checks { options.check ≡ true → IsSome solver.old.checker }
    requires faults { (S.input cnf.old).faults < 2 ^ 64 - 1 }
    requires room { CanCountFault W.taken target.old }
    ensures decided { IfOk result
        (λ report.
        DecidesBy W.taken options (S.input cnf.old) (S.input cnf.new) target.old target.new (concluded report)) }
    ensures searched { IfOk result
        (λ report.
        SearchesText W.taken options target.old (S.input cnf.old) (S.input cnf.new) (concluded report)) }
    ensures fails { IfErr result
        (λ error. FailsBy W.taken options target.old (S.input cnf.old) (S.input cnf.new) error) }
{
    prepare(solver, target.take(), options);
    solver.add_dimacs_cnf(cnf)?;
    let report = find_report(solver, options.progress, err)?;
    let back = close(solver)?;
    *target = back;
    Ok(report)
}

/// Gives a new solver the settings for a file, with the limit of steps, and opens a proof where there is a target. A
/// new solver refuses neither.
pub fn prepare<W: ProofTarget, A: Allocator + Copy>(
    solver: &mut Solver<W, A>,
    target: Option<W>,
    options: SolveOptions,
)
    requires new { Represents solver.old (new_state options.check) }
    requires room { CanCountFault W.taken target }
    ensures { Represents solver.new (prepared W.taken options.format options.check options.max_steps target) }
{
    let mut update = SolverConfigUpdate::new();
    update.reduce_locals_interval = Some(REDUCE_LOCALS_INTERVAL);
    update.luby_restart_interval_scale = Some(LUBY_RESTART_INTERVAL_SCALE);
    update.restart_glue = Some(RESTART_GLUE);
    update.max_steps = options.max_steps;
    let _ = solver.config(&update);
    if let Some(target) = target {
        let _ = solver.write_proof(target, options.format);
    }
}

/// Searches, and lists the model that is found.
pub fn find_report<W: ProofTarget, A: Allocator + Copy, E: Write>(
    solver: &mut Solver<W, A>,
    progress: Option<u64>,
    err: &mut E,
) -> Result<Report<A>, SolverError>
    ensures { (s : State) → Represents solver.old s → (t : State) × Reports s result t × Represents solver.new t }
{
    match search(solver, progress, err) {
        Ok(true) => match solver.model() {
            Ok(model) => Ok(Report::Decided(model)),
            Err(_) => Err(SolverError::OutOfMemory),
        },
        Ok(false) => Ok(Report::Decided(None)),
        Err(SolverError::Interrupted) => Ok(Report::Unknown),
        Err(error) => Err(error),
    }
}

/// Closes the proof, if one is open, and returns its target.
pub fn close<W: ProofTarget, A: Allocator + Copy>(
    solver: &mut Solver<W, A>,
) -> Result<Option<W>, SolverError>
    ensures handed { IfOk result (λ back. IsClosed {E = SolverError} W.taken solver.old.opened (Ok back)) }
    ensures fails { (s : State) → Represents solver.old s →
        IfErr result (λ error. (back : W) × (t : State) × ClosesProof W.taken s (Err (error, back)) t) }
{
    match solver.close_proof() {
        Ok(target) => Ok(target),
        Err((error, _target)) => Err(error),
    }
}
