//! How the program decides a text, whose formula it may simplify before it searches.
ghost use Rattle.std.specs.Prelude.{◌≡◌, ◌-◌, ◌^◌, ◌<◌, ◌≤◌, ℕ, List, length, true, false, Some, Ok, Err, IfOk, IfErr, IsSome};
ghost use Rattle.varisat_lines.specs.promises.Lines.{has_marks};
ghost use Rattle.varisat_simplify.specs.promises.Simplified.{IsMadeOf};
ghost use Rattle.varisat_solver.specs.promises.States.{new_state};
ghost use Rattle.varisat_solver.specs.inside.Representations.{Represents};
ghost use Rattle.varisat.specs.promises.Decided.{Decided, concluded, allowed_steps};
ghost use Rattle.varisat.specs.promises.Proven.{CanCountFault, prepared, DecidesBy};
ghost use Rattle.varisat_solve.specs.promises.Extending.{conclusion_of_all};
ghost use Rattle.varisat_solve.specs.promises.Timing.{IsLimitInTime, IsInTime};
ghost use Rattle.varisat_solve.specs.promises.Solving.{AreLow, Concluded, line_refusal, TakesLead, SearchesOver, SearchesSimplified, SearchesFirst, FailsOver, FailsSimplified, FailsFirst};

use crate::lines::write_history;
use crate::models::{extend_model, named_count};
use crate::options::{ProgramOptions, is_parsed_first, is_simplified, options_left};
use crate::rounds::find_within;
use crate::watch::Watch;
use std::alloc::Allocator;
use std::io::Write;
use std::mem::forget;
use std::time::{Clock, CpuClock};
use varisat::CnfFormula;
use varisat::deciding::{Report, SolveOptions, close, decide_text, new_solver, prepare};
use varisat::dimacs::DimacsParser;
use varisat::io::{ByteSource, ProofTarget};
use varisat::proof::{ProofFormat, WriteError};
use varisat::solver::{Solver, SolverError};
use varisat_simplify::clauses::ClauseList;
use varisat_simplify::history::History;
use varisat_simplify::simplify::{Simplified, simplify};

/// Decides a DIMACS CNF text. Its formula may be simplified before it is searched: the options say which formulas are. Where
/// the work is to be counted and timed, or the time is limited, the formula is read before the solver takes it. Once the time
/// is spent nothing is simplified and no step is made: the options become those to which the work was kept.
pub fn decide<W: ProofTarget, A: Allocator + Copy, S: ByteSource, E: Write, C: Clock + CpuClock>(
    alloc: A,
    cnf: &mut S,
    target: &mut Option<W>,
    options: &mut ProgramOptions,
    watch: &Watch<'_, C>,
    err: &mut E,
) -> Result<Report<A>, SolverError>
    requires faults { (S.input cnf.old).faults < 2 ^ 64 - 1 }
    requires room { CanCountFault W.taken target.old }
    requires timed { watch.now.max_seconds ≡ options.old.max_seconds }
    ensures kept { IsInTime options.old options.new }
    ensures decided { IfOk result
        (λ report.
        DecidesBy W.taken options.new.search (S.input cnf.old) (S.input cnf.new) target.old target.new (concluded report)) }
    ensures searched { IfOk result
        (λ report.
        SearchesFirst W.taken options.new target.old (S.input cnf.old) (S.input cnf.new) (concluded report)) }
    ensures fails { IfErr result
        (λ error. FailsFirst W.taken options.new target.old (S.input cnf.old) (S.input cnf.new) error) }
{
    if !is_parsed_first(*options) {
        return decide_text(alloc, cnf, target, options.search, err);
    }
    let start = watch.start();
    let formula = match DimacsParser::parse(alloc, cnf) {
        Ok(formula) => formula,
        Err(fault) => return Err(SolverError::from_text(fault)),
    };
    watch.tell(err, "read_milliseconds", start);
    *options = options_left(*options, watch.is_spent());
    let is_long = is_simplified(*options, &formula);
    let search = options.search;
    let max_steps = &mut options.search.max_steps;
    if is_long {
        decide_simplified(alloc, formula, target, search, max_steps, watch, err)
    } else {
        decide_formula(alloc, formula, target, search, max_steps, watch, err)
    }
}

/// The refusal for a line that is not written.
fn refuse_line(fault: WriteError) -> SolverError
    ensures { result ≡ line_refusal fault }
{
    match fault {
        WriteError::Memory => SolverError::OutOfMemory,
        WriteError::Target(cause) => SolverError::ProofIoError { cause },
    }
}

/// Decides a text's formula, which is simplified first. The lines that lead to what it is made into come before those of the
/// search. The limit of steps is lowered to those that were allowed when the time was spent.
fn decide_simplified<W: ProofTarget, A: Allocator + Copy, E: Write, C: Clock + CpuClock>(
    alloc: A,
    formula: CnfFormula<A>,
    target: &mut Option<W>,
    options: SolveOptions,
    max_steps: &mut Option<u64>,
    watch: &Watch<'_, C>,
    err: &mut E,
) -> Result<Report<A>, SolverError>
    requires room { CanCountFault W.taken target.old }
    requires plain { has_marks options.format ≡ false }
    requires low { AreLow formula.clauses }
    ensures limit { IsLimitInTime watch.now.max_seconds max_steps.old max_steps.new }
    ensures decided { IfOk result
        (λ report.
        Concluded W.taken options.format (allowed_steps max_steps.new) formula.clauses target.old target.new
        (concluded report)) }
    ensures searched { IfOk result
        (λ report.
        SearchesSimplified W.taken (record options { max_steps = max_steps.new }) target.old formula (concluded report)) }
    ensures fails { IfErr result (λ error.
        FailsSimplified W.taken (record options { max_steps = max_steps.new }) target.old formula error) }
{
    let count = named_count(&formula);
    let made = simplify_reporting(alloc, formula, options.progress.is_some(), watch, err)?;
    let Simplified {
        formula,
        stack,
        history,
    } = made;
    write_lead(alloc, history, target, options.format)?;
    let report = decide_formula(alloc, formula, target, options, max_steps, watch, err)?;
    let report = extend_report(alloc, &stack, report, count)?;
    Ok(report)
}

/// Simplifies a formula, of which no variable is frozen. What is left of it is reported on `err`, if that is wanted.
fn simplify_reporting<A: Allocator + Copy, E: Write, C: Clock + CpuClock>(
    alloc: A,
    formula: CnfFormula<A>,
    is_reported: bool,
    watch: &Watch<'_, C>,
    err: &mut E,
) -> Result<Simplified<A>, SolverError>
    ensures made { IfOk result (λ s. IsMadeOf formula s.formula s.stack s.history.lines) }
    ensures memory { IfErr result (λ error. error ≡ SolverError.OutOfMemory) }
{
    let clauses = formula.len();
    let start = watch.start();
    match simplify(alloc, formula, &[]) {
        Ok(made) => {
            let left = made.formula.len();
            let milliseconds = watch.milliseconds_since(start);
            if is_reported {
                print_simplified(err, clauses, left, made.stack.len(), milliseconds);
            }
            watch.tell_milliseconds(err, "simplify_milliseconds", milliseconds);
            Ok(made)
        }
        Err(_) => Err(SolverError::OutOfMemory),
    }
}

/// Tells how many of so many clauses are left, how many are saved, by which models are extended, and how long that took.
fn print_simplified<E: Write>(
    err: &mut E,
    clauses: usize,
    left: usize,
    saved: usize,
    milliseconds: u128,
) {
    // A writer that fails here leaves nothing to report.
    let _ = writeln!(
        err,
        "c simplified: {left} of {clauses} clauses left, {saved} saved for models, {milliseconds} ms"
    );
}

/// Writes the lines that lead to what was made, if there is a target for a proof.
fn write_lead<W: ProofTarget, A: Allocator + Copy>(
    alloc: A,
    history: History<A>,
    target: &mut Option<W>,
    format: ProofFormat,
) -> Result<(), SolverError>
    requires room { CanCountFault W.taken target.old }
    requires plain { has_marks format ≡ false }
    ensures led { IfOk result (λ _. TakesLead W.taken format target.old history.lines (Ok tt) target.new) }
    ensures room { IfOk result (λ _. CanCountFault W.taken target.new) }
    ensures fails { IfErr result
        (λ error. (fault : WriteError) × TakesLead W.taken format target.old history.lines (Err fault) target.new
        × (error ≡ line_refusal fault)) }
{
    let Some(target) = target else {
        return Ok(());
    };
    let mut buffer = Vec::new(alloc);
    match write_history(target, &mut buffer, format, &history) {
        Ok(()) => Ok(()),
        Err(fault) => Err(refuse_line(fault)),
    }
}

/// Counts nothing when it runs. Its contract says that a formula has fewer than 2^64 clauses.
fn prove_few<A: Allocator + Copy>(formula: &CnfFormula<A>)
    ensures { length formula.now.clauses < 2 ^ 64 }
{
    let _count = formula.len();
}

/// Decides a formula as it is, by a new solver. The limit of steps is lowered to those that were allowed when the time was
/// spent. If all went well the solver's memory is kept, as by `decide_text`.
fn decide_formula<W: ProofTarget, A: Allocator + Copy, E: Write, C: Clock + CpuClock>(
    alloc: A,
    formula: CnfFormula<A>,
    target: &mut Option<W>,
    options: SolveOptions,
    max_steps: &mut Option<u64>,
    watch: &Watch<'_, C>,
    err: &mut E,
) -> Result<Report<A>, SolverError>
    requires room { CanCountFault W.taken target.old }
    requires low { AreLow formula.clauses }
    ensures limit { IsLimitInTime watch.now.max_seconds max_steps.old max_steps.new }
    ensures decided { IfOk result
        (λ report.
        Concluded W.taken options.format (allowed_steps max_steps.new) formula.clauses target.old target.new
        (concluded report)) }
    ensures searched { IfOk result
        (λ report.
        SearchesOver
        (prepared W.taken options.format options.check max_steps.new target.old) formula.clauses (concluded report)) }
    ensures fails { IfErr result
        (λ error.
        FailsOver W.taken
        (prepared W.taken options.format options.check max_steps.new target.old) formula.clauses error) }
{
    prove_few(&formula);
    let mut solver: Solver<W, A> = new_solver(alloc, options.check);
    let report = decide_in(&mut solver, formula, target, options, max_steps, watch, err);
    match report {
        Ok(report) => {
            forget(solver);
            Ok(report)
        }
        Err(error) => {
            drop(solver);
            Err(error)
        }
    }
}

/// Decides a formula by the solver, which is new, and inside which a checker runs if the options ask for one, with a limit
/// of steps in place of that of the options. It is lowered to those that were allowed when the time was spent.
fn decide_in<W: ProofTarget, A: Allocator + Copy, E: Write, C: Clock + CpuClock>(
    solver: &mut Solver<W, A>,
    formula: CnfFormula<A>,
    target: &mut Option<W>,
    options: SolveOptions,
    max_steps: &mut Option<u64>,
    watch: &Watch<'_, C>,
    err: &mut E,
) -> Result<Report<A>, SolverError>
    requires new { Represents solver.old (new_state options.check) }
    requires checks { options.check ≡ true → IsSome solver.old.checker }
    requires room { CanCountFault W.taken target.old }
    requires low { AreLow formula.clauses }
    requires few { length formula.clauses < 2 ^ 64 }
    ensures limit { IsLimitInTime watch.now.max_seconds max_steps.old max_steps.new }
    ensures decided { IfOk result
        (λ report.
        Concluded W.taken options.format (allowed_steps max_steps.new) formula.clauses target.old target.new
        (concluded report)) }
    ensures searched { IfOk result
        (λ report.
        SearchesOver
        (prepared W.taken options.format options.check max_steps.new target.old) formula.clauses (concluded report)) }
    ensures fails { IfErr result
        (λ error.
        FailsOver W.taken
        (prepared W.taken options.format options.check max_steps.new target.old) formula.clauses error) }
{
    let asked = SolveOptions {
        max_steps: *max_steps,
        ..options
    };
    prepare(solver, target.take(), asked);
    solver.add_formula(&formula)?;
    drop(formula);
    let search_start = watch.start();
    let report = find_within(solver, max_steps, options.progress, watch, err)?;
    watch.tell(err, "search_milliseconds", search_start);
    watch.tell_counts(err, solver.steps(), &solver.statistics());
    let proof_start = watch.start();
    let back = close(solver)?;
    watch.tell(err, "proof_milliseconds", proof_start);
    *target = back;
    Ok(report)
}

/// Extends the model of what was made, if there is one, to one of a formula that names so many variables.
fn extend_report<A: Allocator + Copy>(
    alloc: A,
    stack: &ClauseList<A>,
    report: Report<A>,
    count: usize,
) -> Result<Report<A>, SolverError>
    requires { count ≤ 2 ^ 31 }
    ensures extended { IfOk result (λ all. concluded all ≡ conclusion_of_all stack.now count (concluded report)) }
    ensures memory { IfErr result
        (λ error. (error ≡ SolverError.OutOfMemory) × ((model : List ℕ) × (concluded report ≡ Decided (Some model)))) }
{
    match report {
        Report::Decided(Some(model)) => match extend_model(alloc, stack, &model, count) {
            Ok(all) => Ok(Report::Decided(Some(all))),
            Err(_) => Err(SolverError::OutOfMemory),
        },
        Report::Decided(None) => Ok(Report::Decided(None)),
        Report::Unknown => Ok(Report::Unknown),
    }
}
