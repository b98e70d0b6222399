//! The solver, and the calls that a user makes.
ghost use Rattle.std.specs.Prelude.{◌≡◌, ◌<◌, length, IfOk};
ghost use Rattle.varisat_solver.specs.inside.Accepting.{AreBounded};
ghost use Rattle.varisat_solver.specs.inside.Changes.{RefusesInvalid, invalidated, EndsChange};
ghost use Rattle.varisat_solver.specs.inside.Representations.{model_value, list_tables};

use crate::accept::{accept_user_clause, assume_list};
use crate::fixed::is_fixed_to;
use crate::name_checks::check_names;
use crate::phases::{Phases, remember_phases};
use crate::progress::{SearchSize, count_mapped};
use crate::solving::find_verdict;
use crate::usage::{change_mode, check_change};
use std::alloc::{AllocError, Allocator};
use std::io;
use std::marker::Model;
use thiserror::Error;
use varisat_clause::header::Tier;
use varisat_formula::dimacs::{ClauseSink, DimacsError, DimacsErrorKind, read_clauses};
use varisat_formula::formula::{CnfFormula, ExtendFormula};
use varisat_formula::io::{ByteSource, ProofTarget};
use varisat_literals::{Lit, Var};
use varisat_names::config::{ConfigField, SolverConfigUpdate};
use varisat_names::variables::LinkedVariables;
use varisat_names::variables::data::SamplingMode;
use varisat_names::variables::naming::{new_user_var, observe_internal_vars};
use varisat_proof::checker::Checker;
pub use varisat_proof::proof::ProofFormat;
use varisat_proof::proof::{close_proof, solve_finished, take_target};
use varisat_schedule::counters::Counters;
use varisat_search::context::Context;
use varisat_search::error::StepError;
use varisat_search::literals::copied;
use varisat_search::state::SatState;
use varisat_tracer::SolverTracer;

/// Why a call was refused.
#[derive(Debug, Drop, Error)]
pub enum SolverError {
    #[error("The solver was interrupted")]
    Interrupted,
    #[error("Error writing proof file: {cause}")]
    ProofIoError { cause: io::Error },
    #[error("Out of memory")]
    OutOfMemory,
    #[error("The solver is invalid after an unrecoverable error")]
    Invalid,
    #[error("The clause store is full")]
    ClauseStoreFull,
    #[error("Variable {var} is a witness variable and cannot be constrained")]
    WitnessVar { var: Var },
    #[error("The variable limit is passed")]
    VariableLimit,
    #[error("Variable {var} is assumed and its mode cannot change")]
    AssumedVar { var: Var },
    #[error("A clause cannot be added after solve under an open proof")]
    ClauseAfterSolve,
    #[error("A proof is open")]
    ProofOpen,
    #[error("A proof must begin before any clause, variable or assumption")]
    ProofTooLate,
    #[error("Configuration value out of range: {field}")]
    ConfigOutOfRange { field: ConfigField },
    #[error("Error in DIMACS input: {cause}")]
    Dimacs { cause: DimacsError },
}

impl From<StepError> for SolverError {
    ghost use Rattle.std.specs.Prelude.{◌≡◌};
    ghost use Rattle.varisat_solver.specs.promises.Refusals.{step_refusal};

    ghost from_gives = { λ error result. result ≡ step_refusal error };

    fn from(error: StepError) -> SolverError {
        match error {
            StepError::Full => SolverError::ClauseStoreFull,
            StepError::Memory => SolverError::OutOfMemory,
            StepError::Target(cause) => SolverError::ProofIoError { cause },
        }
    }
}

impl From<AllocError> for SolverError {
    ghost use Rattle.std.specs.Prelude.{◌≡◌};
    ghost use Rattle.varisat_solver.specs.declared.solver.SolverError.TheVariants.{OutOfMemory};

    ghost from_gives = { λ _ result. result ≡ OutOfMemory };

    fn from(_error: AllocError) -> SolverError {
        SolverError::OutOfMemory
    }
}

impl SolverError {
    ghost use Rattle.std.specs.Prelude.{◌↔◌, ◌≡◌, ◌<◌, ◌⊎◌, IsTrue};
    ghost use Rattle.varisat_solver.specs.promises.Refusals.{IsRefusedText, refusal_number};

    /// The number under which a session prints the refusal.
    pub fn number(&self) -> u8
        ensures { result ≡ refusal_number self.now }
    {
        match self {
            SolverError::Interrupted => 1,
            SolverError::ProofIoError { .. } => 2,
            SolverError::OutOfMemory => 3,
            SolverError::Invalid => 4,
            SolverError::ClauseStoreFull => 5,
            SolverError::WitnessVar { .. } => 6,
            SolverError::VariableLimit => 7,
            SolverError::AssumedVar { .. } => 8,
            SolverError::ClauseAfterSolve => 9,
            SolverError::ProofOpen => 10,
            SolverError::ProofTooLate => 11,
            SolverError::ConfigOutOfRange { .. } => 12,
            SolverError::Dimacs { .. } => 13,
        }
    }

    /// The refusal for a fault of a text: memory that ran out in the reader is returned as in any call.
    pub fn from_text(fault: DimacsError) -> SolverError
        ensures { IsRefusedText fault result }
    {
        if let DimacsErrorKind::OutOfMemory = fault.kind {
            return SolverError::OutOfMemory;
        }
        SolverError::Dimacs { cause: fault }
    }

    /// Whether the solver can be used as before.
    pub fn is_recoverable(&self) -> bool
        ensures { IsTrue result ↔ ((refusal_number self.now < 2) ⊎ (5 < refusal_number self.now)) }
    {
        match self {
            SolverError::ProofIoError { .. }
            | SolverError::OutOfMemory
            | SolverError::Invalid
            | SolverError::ClauseStoreFull => false,
            SolverError::Interrupted
            | SolverError::WitnessVar { .. }
            | SolverError::VariableLimit
            | SolverError::AssumedVar { .. }
            | SolverError::ClauseAfterSolve
            | SolverError::ProofOpen
            | SolverError::ProofTooLate
            | SolverError::ConfigOutOfRange { .. }
            | SolverError::Dimacs { .. } => true,
        }
    }
}

/// Refuses a call in an invalid solver.
fn ensure_valid<A: Allocator + Copy>(ctx: &Context<A>) -> Result<(), SolverError>
    ensures { RefusesInvalid ctx.now.solver_state.state_is_invalid result }
{
    if ctx.solver_state.state_is_invalid {
        return Err(SolverError::Invalid);
    }
    Ok(())
}

/// Makes the solver invalid, and returns the refusal for an error from which there is no way back.
fn invalidate<E: Into<SolverError>, A: Allocator + Copy>(
    ctx: &mut Context<A>,
    error: E,
) -> SolverError
    ensures logged { E.converts error result }
    ensures invalid { ctx.new ≡ invalidated ctx.old }
{
    ctx.solver_state.state_is_invalid = true;
    error.into()
}

/// Ends a change: steps are counted anew from here on, or, where it failed, the solver is invalid.
fn end_change<T, E: Into<SolverError>, A: Allocator + Copy>(
    ctx: &mut Context<A>,
    changed_at: &mut u64,
    outcome: Result<T, E>,
) -> Result<T, SolverError>
    ensures { EndsChange E.converts outcome ctx.old changed_at.old result ctx.new changed_at.new }
{
    match outcome {
        Ok(value) => {
            *changed_at = ctx.schedule.steps();
            Ok(value)
        }
        Err(error) => Err(invalidate(ctx, error)),
    }
}

/// Whether the global variable is true in the model of the solver variables.
fn is_true_in_model<A: Allocator + Copy>(
    variables: &LinkedVariables<A>,
    values: &[Option<bool>],
    global: Var,
) -> bool
    requires { global < length variables.now.kept }
    ensures { result ≡ model_value variables.now values.now global }
{
    match variables.solver_from_global().get(global) {
        Some(solver) => matches!(values.get(solver.index()), Some(Some(true))),
        None => matches!(variables.var_data_global(global).unit, Some(true)),
    }
}

/// The names in use in increasing order, with the values of their variables in the model.
fn list_model<A: Allocator + Copy>(
    alloc: A,
    variables: &LinkedVariables<A>,
    values: &[Option<bool>],
) -> Result<Vec<Lit, A>, AllocError>
    requires { AreBounded variables.now }
    ensures { IfOk result
        (λ list. list.items ≡ list_tables variables.now values.now 0 (length variables.now.users.forward)) }
{
    variables.prove_linked();
    let mut list = Vec::new(alloc);
    for index in 0..variables.user_watermark() {
        let user = Var::from_index(index);
        if let Some(global) = variables.global_from_user().get(user) {
            list.push(user.lit(is_true_in_model(variables, values, global)))?;
        }
    }
    Ok(list)
}

/// A solver of one growing formula. `W` is the type of the targets that proofs are written to.
#[derive(Drop)]
pub struct Solver<W: ProofTarget, A: Allocator + Copy> {
    alloc: A,
    ctx: Context<A>,
    // The names and variables, and the proof that is open, if any.
    tracer: SolverTracer<W, A>,
    // The clause or the assumptions that are being accepted, over solver variables, and a core over names.
    literals: Vec<Lit, A>,
    // The phases that are set, by names. No call returns them.
    phases: Phases<A>,
    // Whether a clause, a variable or a list of assumptions was accepted. From then on no proof can be opened; no other
    // call reads it.
    started: bool,
    // How many steps were made before the last change: a call but `solve` and those that only return something, which
    // was not refused, or accepted a clause before it was.
    changed_at: u64,
}

impl<W: ProofTarget, A: Allocator + Copy> Model for Solver<W, A> {
    ghost use Rattle.std.specs.Prelude.{◌≡◌, ◌-◌, not, false, length};
    ghost use Rattle.varisat_search.specs.Contexts as contexts;
    ghost use Rattle.varisat_proof.specs.promises.Proving.{is_there};
    ghost use Rattle.varisat_solver.specs.promises.Summaries.{Summary};
    ghost use Rattle.varisat_solver.specs.inside.Representations.{IsValidSince};

    ghost Value = { Summary };

    ghost view = { λ c. record {
      tables = c.tracer.tables;
      opened = c.tracer.proof.opened;
      checker = c.tracer.proof.checker;
      search = contexts.view c.ctx;
      assumed = c.ctx.assumptions;
      sat_state = c.ctx.solver_state.sat_state;
      words = length c.ctx.clause_alloc.words;
      ledger = record {
        valid = not c.ctx.solver_state.state_is_invalid;
        started = c.started;
        steps = c.ctx.schedule.steps;
        since = c.ctx.schedule.steps - c.changed_at;
        settings = c.ctx.solver_config;
        checking = is_there c.tracer.proof.checker;
      };
    } };

    ghost invariant = { λ c. c.ctx.solver_state.state_is_invalid ≡ false → IsValidSince c.tracer.tables c.tracer.proof c.ctx c.started c.changed_at };
}

impl<W: ProofTarget, A: Allocator + Copy> Solver<W, A> {
    ghost use Rattle.std.specs.Prelude.{◌≡◌, ◌≢◌, ◌-◌, ◌<◌, ◌^◌, Ok, Err, Some, None, true, false, List, ℕ};
    ghost use Rattle.std.specs.Prelude.{IsSome, IsTrue, ◌↔◌, option_copied};
    ghost use Rattle.varisat_theory.specs.promises.Literals.{IsSatisfiableWith};
    ghost use Rattle.varisat_theory.specs.promises.CallBounds.{AreFew};
    ghost use Rattle.std.specs.declared.io.Error.{Error};
    ghost use Rattle.varisat_solver.specs.promises.States.{State, empty_state};
    ghost use Rattle.varisat_solver.specs.promises.Models.{IsCompletableIn, HasModel, HasCore, IsNamedCore};
    ghost use Rattle.varisat_solver.specs.promises.Calls.{IsValid, count_anew, with_max_steps, AddsClause, MakesVar, Assumes, Searches, Solves, ReturnsList, Configures, ReturnsSteps, ReturnsSince, ReturnsValid, ReturnsFixed, SetsPhase, answer_of, by_state};
    ghost use Rattle.varisat_solver.specs.promises.ClauseCalls.{AddsFormula, AddsDimacs};
    ghost use Rattle.varisat_solver.specs.promises.Additions.{AddsAll, ReturnsFault};
    ghost use Rattle.varisat_solver.specs.promises.ReturnedLists.{returned_list, lent_list};
    ghost use Rattle.varisat_solver.specs.promises.Summaries.{HasFullStore};
    ghost use Rattle.varisat_solver.specs.promises.Fixed.{HasFixed};
    ghost use Rattle.varisat_solver.specs.inside.Representations.{Represents};
    ghost use Rattle.varisat_solver.specs.promises.Represented.{LeadsRepresented};
    ghost use Rattle.varisat_solver.specs.inside.Changes.{EndsSearch};
    ghost use Rattle.varisat_solver.specs.promises.Targets.{WritesOn, WritesAll};
    ghost use Rattle.varisat_proof.specs.promises.Proving.{marked_searched};
    ghost use Rattle.varisat_solver.specs.promises.Journals.{IsJournal};
    ghost use Rattle.varisat_solver.specs.promises.Refusals.{returned_faults};
    ghost use Rattle.varisat_solver.specs.promises.Detaching.{GoesOnDetaching};
    ghost use Rattle.varisat_proof.specs.promises.Proving.{IsClosed};
    ghost use Rattle.varisat_solver.specs.promises.ProofCalls.{OpensProof, EnablesChecking, ClosesProof};
    ghost use Rattle.varisat_solver.specs.promises.ReturnedLists.{returned_variables};
    ghost use Rattle.varisat_solver.specs.promises.Usage.{ChangesMode, SamplesVar, WitnessesVar, HidesVar, Observes};

    /// A solver with no clause. It takes no memory.
    pub fn new_in(alloc: A) -> Self
        ensures { Represents result empty_state }
    {
        Solver {
            alloc,
            ctx: Context::new_in(alloc),
            tracer: SolverTracer::new_in(alloc),
            literals: Vec::new(alloc),
            phases: Phases::new_in(alloc),
            started: false,
            changed_at: 0,
        }
    }

    // ---- Problem specification ----

    /// Accepts a clause, and brings its names into use. Once the clauses are known to be unsatisfiable a clause is
    /// accepted without a change, but that steps are counted anew. Refused in an invalid solver; where `solve` was
    /// called since the open proof was opened, unless that is a marked one; where a name is past the limit of 2^28
    /// names or there is no room for its variables; and where a name is a witness: then nothing changes. Where memory
    /// runs out, the clause store is full or the target of an open proof fails, the solver is invalid.
    pub fn add_clause(&mut self, clause: &[Lit]) -> Result<(), SolverError>
        ensures target { WritesOn self.old.opened result self.new.opened }
        ensures full { result ≡ Err SolverError.ClauseStoreFull → HasFullStore self.new }
        ensures call { LeadsRepresented self.old (λ s t. AddsClause s clause.now result t) self.new }
    {
        ensure_valid(&self.ctx)?;
        if let SatState::Unsat = self.ctx.solver_state.sat_state {
            self.begin_count();
            return Ok(());
        }
        if self.tracer.proof.bars_clauses() {
            return Err(SolverError::ClauseAfterSolve);
        }
        check_names(&self.tracer.tables, clause)?;
        let accepted = accept_user_clause(
            &mut self.tracer,
            &mut self.ctx,
            &mut self.literals,
            clause,
        );
        end_change(&mut self.ctx, &mut self.changed_at, accepted)?;
        self.started = true;
        Ok(())
    }

    /// Accepts the clauses in turn, up to the first that is refused. Those before it stay. Steps are counted anew only
    /// as each clause is accepted, so that a text which accepts none before its fault changes nothing.
    fn add_clauses<B: Allocator + Copy>(
        &mut self,
        formula: &CnfFormula<B>,
    ) -> Result<(), SolverError>
        ensures target { WritesOn self.old.opened result self.new.opened }
        ensures full { result ≡ Err SolverError.ClauseStoreFull → HasFullStore self.new }
        ensures call { LeadsRepresented self.old (λ s t. AddsAll by_state s formula.now.clauses result t) self.new }
    {
        for clause in formula.iter() {
            self.add_clause(clause)?;
        }
        Ok(())
    }

    /// Accepts the clauses of a formula in turn, up to the first that is refused. Those before it stay. Refused as a
    /// clause is.
    pub fn add_formula<B: Allocator + Copy>(
        &mut self,
        formula: &CnfFormula<B>,
    ) -> Result<(), SolverError>
        ensures target { WritesOn self.old.opened result self.new.opened }
        ensures full { result ≡ Err SolverError.ClauseStoreFull → HasFullStore self.new }
        ensures call { LeadsRepresented self.old (λ s t. AddsFormula s formula.now.clauses result t) self.new }
    {
        ensure_valid(&self.ctx)?;
        self.add_clauses(formula)?;
        self.begin_count();
        Ok(())
    }

    /// Accepts the clauses of a DIMACS CNF text in turn, up to the first that is refused or the text's first fault,
    /// which is then returned, whatever the pieces in which the source gives the text. The clauses before it stay. Out
    /// of memory in the reader is returned as in any call.
    pub fn add_dimacs_cnf<S: ByteSource>(&mut self, source: &mut S) -> Result<(), SolverError>
        requires { (S.input source.old).faults < 2 ^ 64 - 1 }
        ensures target { WritesOn self.old.opened result self.new.opened }
        ensures full { result ≡ Err SolverError.ClauseStoreFull → HasFullStore self.new }
        ensures call { LeadsRepresented self.old
            (λ s t. AddsDimacs s (S.input source.old) result (S.input source.new) t) self.new }
    {
        ensure_valid(&self.ctx)?;
        match read_clauses(self.alloc, source, self) {
            Ok(None) => {
                self.begin_count();
                Ok(())
            }
            Ok(Some(fault)) => Err(self.refuse_text(fault)),
            Err(error) => Err(error),
        }
    }

    /// The refusal for a fault of a text. Where memory ran out in the reader the solver is invalid then.
    fn refuse_text(&mut self, fault: DimacsError) -> SolverError
        ensures same { self.new.opened ≡ self.old.opened }
        ensures faults { returned_faults result ≡ 0 }
        ensures full { result ≢ SolverError.ClauseStoreFull }
        ensures call { (s : State) → Represents self.old s → IsValid s →
            (t : State) × ReturnsFault by_state (Some fault) s (Err result) t × Represents self.new t }
    {
        if let DimacsErrorKind::OutOfMemory = fault.kind {
            return invalidate(&mut self.ctx, SolverError::OutOfMemory);
        }
        SolverError::Dimacs { cause: fault }
    }

    // ---- Solving ----

    /// Assumes that these literals are true, in place of the assumptions before, and brings their names into use.
    /// Refused in an invalid solver, where a proof is open that is no marked one, and for its names as a clause is:
    /// then nothing changes, and the assumptions before stay. Where memory runs out or the target of an open proof
    /// fails, the solver is invalid.
    pub fn assume(&mut self, lits: &[Lit]) -> Result<(), SolverError>
        ensures target { WritesOn self.old.opened result self.new.opened }
        ensures call { LeadsRepresented self.old (λ s t. Assumes s lits.now result t) self.new }
        // The target is asked last: where it fails the list is assumed already, so that there was memory for it.
        ensures last { (cause : Error) → result ≡ Err (SolverError.ProofIoError cause) →
            self.new.assumed.user ≡ lits.now }
    {
        ensure_valid(&self.ctx)?;
        if self.tracer.proof.bars_assumptions() {
            return Err(SolverError::ProofOpen);
        }
        check_names(&self.tracer.tables, lits)?;
        let assumed = assume_list(&mut self.tracer, &mut self.ctx, &mut self.literals, lits);
        end_change(&mut self.ctx, &mut self.changed_at, assumed)?;
        self.started = true;
        Ok(())
    }

    /// Whether some assignment satisfies the accepted clauses and makes the assumptions true. A call makes fewer than
    /// (n+2)*2^(n+2) steps, and so than 2^(2n+3), where the clauses and all assumptions so far name n variables. The
    /// lines of the steps are written to an open proof, which is then flushed, also where nothing is left to search.
    /// Refused in an invalid solver, and where the steps are spent before it is known: `max_steps` of the settings, or
    /// 2^64-1 in all. The next call then goes on. Where memory runs out, the clause store is full or the target of an
    /// open proof fails, the solver is invalid; a proof that cannot be flushed is returned in place of spent steps.
    pub fn solve(&mut self) -> Result<bool, SolverError>
        ensures call { LeadsRepresented self.old (λ s t. Solves by_state s result t) self.new }
        ensures satisfiable { result ≡ Ok true → (s : State) → Represents self.old s →
            IsSatisfiableWith s.clauses s.assumptions }
        ensures unsatisfiable { result ≡ Ok false → (s : State) → Represents self.old s →
            IsSatisfiableWith s.clauses s.assumptions → ⊥ }
        ensures model { result ≡ Ok true → (s : State) → Represents self.new s → HasModel s }
        ensures core { result ≡ Ok false → (s : State) → Represents self.new s → HasCore s }
        // The target is as after the steps, but that a search is noted to have run under the proof.
        ensures target { WritesOn (marked_searched self.old.opened) result (marked_searched self.new.opened) }
        ensures full { result ≡ Err SolverError.ClauseStoreFull → HasFullStore self.new }
        // Variables go on to leave in time: those whose values are fixed, unless they are assumed.
        ensures leaves { GoesOnDetaching self.old self.new }
    {
        self.begin_search();
        let found = self.seek();
        if self.ctx.solver_state.state_is_invalid {
            return found;
        }
        self.end_search()?;
        found
    }

    /// Notes that a search was begun, which no call returns, and has it heed the phases that are set.
    fn begin_search(&mut self)
        ensures { self.new ≡ self.old }
    {
        self.ctx.solver_state.solver_invoked = true;
        self.heed_phases();
    }

    /// Has each variable without a value as if it had had its phase last, if one is set, so that the search decides it
    /// so first. No clause and no verdict depends on it.
    fn heed_phases(&mut self)
        ensures { self.new ≡ self.old }
    {
        if self.ctx.solver_state.state_is_invalid {
            return;
        }
        remember_phases(&self.phases, &self.tracer.tables, &mut self.ctx.assignment);
    }

    /// Makes steps until it is known whether some assignment satisfies the accepted clauses and makes the assumptions
    /// true; none where that is known. Errors are those of `solve`, but for that of a flush.
    pub(crate) fn seek(&mut self) -> Result<bool, SolverError>
        ensures call { LeadsRepresented self.old (λ s t. Searches s result t) self.new }
        ensures satisfiable { result ≡ Ok true → (s : State) → Represents self.old s →
            IsSatisfiableWith s.clauses s.assumptions }
        ensures unsatisfiable { result ≡ Ok false → (s : State) → Represents self.old s →
            IsSatisfiableWith s.clauses s.assumptions → ⊥ }
        ensures model { result ≡ Ok true → (s : State) → Represents self.new s → HasModel s }
        ensures core { result ≡ Ok false → (s : State) → Represents self.new s → HasCore s }
        ensures target { WritesOn self.old.opened result self.new.opened }
        // In a valid solver it has all lines.
        ensures whole { self.new.ledger.valid ≡ true → WritesAll self.old.opened self.new.opened }
        ensures full { result ≡ Err SolverError.ClauseStoreFull → HasFullStore self.new }
        ensures leaves { GoesOnDetaching self.old self.new }
    {
        ensure_valid(&self.ctx)?;
        match self.ctx.solver_state.sat_state {
            SatState::Sat => Ok(true),
            SatState::Unsat | SatState::UnsatUnderAssumptions => Ok(false),
            SatState::Unknown => {
                let max_steps = self.ctx.solver_config.max_steps();
                match find_verdict(
                    &mut self.tracer,
                    &mut self.ctx,
                    &mut self.literals,
                    max_steps,
                ) {
                    Ok(Some(found)) => Ok(found),
                    Ok(None) => Err(SolverError::Interrupted),
                    Err(error) => Err(invalidate(&mut self.ctx, error)),
                }
            }
        }
    }

    /// Marks an open proof as one under which `solve` was called, and flushes it. Where that fails the solver is
    /// invalid.
    pub(crate) fn end_search(&mut self) -> Result<(), SolverError>
        requires { self.old.ledger.valid ≡ true }
        ensures { EndsSearch self.old result self.new }
    {
        match solve_finished(&mut self.tracer.proof) {
            Ok(()) => Ok(()),
            Err(cause) => Err(invalidate(&mut self.ctx, SolverError::ProofIoError { cause })),
        }
    }

    // ---- Variables ----

    /// Brings the least free name into use. Refused in an invalid solver, where all 2^28 names are in use or so many
    /// variables were made, and then nothing changes; and where memory runs out, which makes the solver invalid.
    pub fn new_var(&mut self) -> Result<Var, SolverError>
        ensures { LeadsRepresented self.old (λ s t. MakesVar s result t) self.new }
    {
        ensure_valid(&self.ctx)?;
        let next = self.tracer.tables.next_unmapped_user();
        if next.index() >= Var::max_count()
            || self.tracer.tables.global_watermark() >= Var::max_count()
        {
            return Err(SolverError::VariableLimit);
        }
        self.tracer.tables.prove_linked();
        let made = new_user_var(&mut self.tracer.tables);
        let user = end_change(&mut self.ctx, &mut self.changed_at, made)?;
        self.started = true;
        Ok(user)
    }

    /// Lets clauses and assumptions name the variable, as they may from the first. A free name comes into use. Refused
    /// as a clause is for its name, and where the variable is assumed; then nothing changes.
    pub fn sample_var(&mut self, var: Var) -> Result<(), SolverError>
        ensures { LeadsRepresented self.old (λ s t. SamplesVar s var result t) self.new }
    {
        self.set_mode(var, SamplingMode::Sample)
    }

    /// Makes the variable a witness: from then on no clause and no assumption may name it, and models list it as
    /// before. A free name comes into use. Refused as `sample_var` is.
    pub fn witness_var(&mut self, var: Var) -> Result<(), SolverError>
        ensures { LeadsRepresented self.old (λ s t. WitnessesVar s var result t) self.new }
    {
        self.set_mode(var, SamplingMode::Witness)
    }

    /// Frees the name of the variable, which lives on in the clauses, hidden. The name may come back for another
    /// variable, and has no phase that is set any more. A free name comes into use first. The variable may leave for good, as one does that no clause holds,
    /// unless the clauses are known to be unsatisfiable; the clause permits it. Refused as `sample_var` is.
    pub fn hide_var(&mut self, var: Var) -> Result<(), SolverError>
        ensures { LeadsRepresented self.old (λ s t. HidesVar s var result t) self.new }
    {
        let hidden = self.set_mode(var, SamplingMode::Hide);
        self.unset_phase_if(var, hidden.is_ok());
        hidden
    }

    /// The phase of the variable is set no longer, if so.
    fn unset_phase_if(&mut self, var: Var, is_unset: bool)
        ensures { self.new ≡ self.old }
    {
        if is_unset {
            self.phases.unset(var);
        }
    }

    /// Sets the phase of the literal's variable: as a call of `solve` begins, a variable without a value is as if the
    /// literal had been true last, so that the search decides it so first. It holds until another phase is set or
    /// `unset_phase` is called, and goes with the name of a variable that is hidden; a name that is not in use keeps it
    /// for the variable that it is given to. No answer depends on it but which model is found. Refused in an invalid
    /// solver, and where the name is past the limit: then nothing changes. Where memory runs out the solver is invalid.
    pub fn set_phase(&mut self, lit: Lit) -> Result<(), SolverError>
        ensures { LeadsRepresented self.old (λ s t. SetsPhase s lit result t) self.new }
    {
        ensure_valid(&self.ctx)?;
        if lit.index() >= Var::max_count() {
            return Err(SolverError::VariableLimit);
        }
        match self.phases.set(lit) {
            Ok(()) => Ok(()),
            Err(_) => Err(invalidate(&mut self.ctx, SolverError::OutOfMemory)),
        }
    }

    /// The variable has no phase that is set any more: it is decided as it was last assigned.
    pub fn unset_phase(&mut self, var: Var)
        ensures { self.new ≡ self.old }
    {
        self.phases.unset(var);
    }

    /// Names the variable, and changes its mode. Refused as `sample_var` is.
    fn set_mode(&mut self, var: Var, mode: SamplingMode) -> Result<(), SolverError>
        ensures { LeadsRepresented self.old (λ s t. ChangesMode mode s var result t) self.new }
    {
        ensure_valid(&self.ctx)?;
        check_change(&self.tracer.tables, var)?;
        let verdict = self.ctx.solver_state.sat_state;
        let changed = change_mode(&mut self.tracer, var, mode, verdict);
        end_change(&mut self.ctx, &mut self.changed_at, changed)?;
        Ok(())
    }

    /// Brings hidden variables back as witnesses, each under the least free name, and returns these names in increasing
    /// order. One stays hidden only if no accepted clause of two or more different literals, which is no tautology,
    /// names it, or if the clauses force its value. Refused in an invalid solver, and then nothing changes, and where
    /// memory runs out. There are no more variables than names below the limit.
    pub fn observe_internal_vars(&mut self) -> Result<Vec<Var, A>, SolverError>
        ensures { LeadsRepresented self.old (λ s t. Observes s (returned_variables result) t) self.new }
    {
        ensure_valid(&self.ctx)?;
        self.tracer.tables.prove_linked();
        let shown = observe_internal_vars(&mut self.tracer.tables, self.alloc);
        let names = end_change(&mut self.ctx, &mut self.changed_at, shown)?;
        Ok(names)
    }

    /// One above the highest variable that the search ever had. As a step of `solve` begins at level 0 with literals
    /// that are not propagated yet, variables leave the search whose values are fixed, unless they are assumed, and
    /// hidden ones that no clause names that it still keeps. The next variable that clauses or assumptions name takes
    /// the place of one of them.
    pub fn solver_watermark(&self) -> usize
        ensures { result ≡ length self.now.tables.solvers.backward }
    {
        self.tracer.tables.solver_watermark()
    }

    // ---- Reading the state ----

    /// The names in use in increasing order with the values that were found, if the last thing that was found out is
    /// that the clauses are satisfiable; else None, as in an invalid solver. Where memory runs out nothing changes.
    pub fn model(&self) -> Result<Option<Vec<Lit, A>>, AllocError>
        ensures call { LeadsRepresented self.now
            (λ s t. ReturnsList (by_state.model s) s (returned_list result) t) self.now }
        ensures completable { (m : List ℕ) → returned_list result ≡ Ok (Some m) → (s : State) → Represents self.now s →
            IsCompletableIn s m }
        ensures absent { returned_list result ≡ Ok None → (s : State) → Represents self.now s → IsValid s →
            answer_of s.verdict ≡ Some true → ⊥ }
    {
        if self.ctx.solver_state.state_is_invalid {
            return Ok(None);
        }
        match self.ctx.solver_state.sat_state {
            SatState::Sat => {
                let values = self.ctx.assignment.assignment();
                let list = list_model(self.alloc, &self.tracer.tables, values)?;
                Ok(Some(list))
            }
            SatState::Unknown | SatState::Unsat | SatState::UnsatUnderAssumptions => Ok(None),
        }
    }

    /// Some of the assumptions, which no assignment makes true together with the accepted clauses, if the last thing
    /// that was found out is that these are unsatisfiable under the assumptions; an empty list where the clauses alone
    /// are; else None, as in an invalid solver.
    pub fn failed_core(&self) -> Option<&[Lit]>
        ensures call { LeadsRepresented self.now
            (λ s t. ReturnsList (by_state.core s) s (Ok (lent_list result)) t) self.now }
        ensures fails { (core : List ℕ) → lent_list result ≡ Some core → (s : State) → Represents self.now s →
            IsNamedCore s core }
        ensures absent { lent_list result ≡ None → (s : State) → Represents self.now s → IsValid s →
            answer_of s.verdict ≡ Some false → ⊥ }
    {
        if self.ctx.solver_state.state_is_invalid {
            return None;
        }
        let core = self.ctx.assumptions.user_failed_core();
        match self.ctx.solver_state.sat_state {
            SatState::UnsatUnderAssumptions => Some(core),
            SatState::Unsat => Some(&core[..0]),
            SatState::Unknown | SatState::Sat => None,
        }
    }

    /// A copy of the failed core. Where memory runs out nothing changes.
    pub fn copy_core(&self) -> Result<Option<Vec<Lit, A>>, AllocError>
        ensures { LeadsRepresented self.now (λ s t. ReturnsList (by_state.core s) s (returned_list result) t) self.now }
    {
        match self.failed_core() {
            Some(core) => {
                let copy = copied(self.alloc, core)?;
                Ok(Some(copy))
            }
            None => Ok(None),
        }
    }

    /// Whether the literal is fixed: its variable has the value that makes it true at level 0 of the search, or left the
    /// search with that value. Then the accepted clauses entail it. False of what no search and no unit clause has fixed
    /// yet, of a name that is not in use, and in an invalid solver. It makes no step and changes nothing.
    pub fn is_fixed(&self, lit: Lit) -> bool
        ensures exact { IsTrue result ↔ HasFixed self.now lit }
        ensures call { LeadsRepresented self.now (λ s t. ReturnsFixed s lit result t) self.now }
    {
        if self.ctx.solver_state.state_is_invalid {
            return false;
        }
        self.tracer.tables.prove_linked();
        match self.tracer.tables.global_from_user().get(lit.var()) {
            Some(global) => {
                is_fixed_to(&self.tracer.tables, &self.ctx, global, lit.is_positive())
            }
            None => false,
        }
    }

    /// False once a call that changes the solver failed with an error from which there is no way back: out of memory, a
    /// full clause store, or the target of a proof. From then on the calls that change it are refused, `model` and
    /// `failed_core` return None, and `close_proof` hands back the target as it is.
    pub fn is_valid(&self) -> bool
        ensures now { result ≡ self.now.ledger.valid }
        ensures call { LeadsRepresented self.now (λ s t. ReturnsValid s result t) self.now }
    {
        !self.ctx.solver_state.state_is_invalid
    }

    /// What was counted of the search so far. It only reads, and no contract says what the numbers are: no call
    /// relation knows of them.
    pub fn statistics(&self) -> Counters {
        self.ctx.counters
    }

    /// How large the search is.
    pub(crate) fn size(&self) -> SearchSize {
        let db = &self.ctx.clause_db;
        let present = count_mapped(self.tracer.tables.global_from_solver());
        SearchSize {
            variables: present.saturating_sub(self.ctx.trail.top_level_assignment_count()),
            binary: self.ctx.binary_clauses.count(),
            irred: db.count_by_tier(Tier::Irred),
            core: db.count_by_tier(Tier::Core),
            mid: db.count_by_tier(Tier::Mid),
            local: db.count_by_tier(Tier::Local),
        }
    }

    /// Does nothing when it runs. Its contract says of a valid solver that what a proof would have logged so far is
    /// right, and that an open proof has just its lines. Where no variable was ever hidden these are a derivation from
    /// the accepted clauses, which refutes them once they are known to be unsatisfiable. And few steps were made since
    /// the last change.
    pub fn prove_journal(&self)
        ensures journal { (s : State) → Represents self.now s → IsValid s → IsJournal s }
        ensures few { (s : State) → Represents self.now s → IsValid s → AreFew (length s.counted) s.ledger.since }
    {
        let _is_valid = !self.ctx.solver_state.state_is_invalid;
    }

    // ---- Limits and proofs ----

    /// Changes the settings for which the update has values. Refused in an invalid solver, and where a value is out of
    /// its range: then nothing changes, and the first such setting is returned.
    pub fn config(&mut self, update: &SolverConfigUpdate) -> Result<(), SolverError>
        ensures { LeadsRepresented self.old (λ s t. Configures s update.now result t) self.new }
    {
        ensure_valid(&self.ctx)?;
        match self.ctx.config_changed(update) {
            Ok(()) => {}
            Err(error) => return Err(SolverError::ConfigOutOfRange { field: error.field }),
        }
        self.changed_at = self.ctx.schedule.steps();
        Ok(())
    }

    /// How many steps a call of `solve` may make.
    pub(crate) fn max_steps(&self) -> u64
        ensures { result ≡ self.now.ledger.settings.max_steps }
    {
        self.ctx.solver_config.max_steps()
    }

    /// Sets how many steps a call of `solve` may make. Unlike `config` this is no change, so that the steps since the
    /// last change are counted on: a search can be made in rounds of steps.
    pub fn set_max_steps(&mut self, max_steps: u64)
        ensures { (s : State) → Represents self.old s → Represents self.new (with_max_steps max_steps s) }
    {
        let mut update = SolverConfigUpdate::new();
        update.max_steps = Some(max_steps);
        let _ = self.ctx.config_changed(&update);
    }

    /// How many steps all calls of `solve` made together.
    pub fn steps(&self) -> u64
        ensures { LeadsRepresented self.now (λ s t. ReturnsSteps s result t) self.now }
    {
        self.ctx.schedule.steps()
    }

    /// How many steps calls of `solve` made together since the last change. A change is any call but `solve` and those
    /// that only return something, unless it was refused; and one that accepted a clause before it was refused. In a
    /// valid solver they are fewer than (n+2)*2^(n+2), and so than 2^(2n+3), where the clauses and all assumptions so
    /// far name n variables, however often a call was interrupted.
    pub fn steps_since_change(&self) -> u64
        ensures { LeadsRepresented self.now (λ s t. ReturnsSince s result t) self.now }
    {
        self.ctx.schedule.steps().saturating_sub(self.changed_at)
    }

    /// Counts steps anew from here on.
    fn begin_count(&mut self)
        ensures frame { self.new ≡ record self.old { ledger = self.new.ledger } }
        ensures call { (s : State) → Represents self.old s → Represents self.new (count_anew s) }
    {
        self.changed_at = self.ctx.schedule.steps();
    }

    /// Opens a proof, to which the lines of the search are written from here on, and to a marked one also the clauses,
    /// the assumptions and the cores. `solve` and `close_proof` flush them. Refused in an invalid solver; where a proof
    /// is open; and where a clause, a variable or a list of assumptions was accepted before: then nothing changes, and
    /// the target is handed back. The target has to have counted fewer than 2^64-1 faults.
    pub fn write_proof(&mut self, target: W, format: ProofFormat) -> Result<(), (SolverError, W)>
        requires { (W.taken target).faults < 2 ^ 64 - 1 }
        ensures { LeadsRepresented self.old (λ s t. OpensProof W.taken target format s result t) self.new }
    {
        match ensure_valid(&self.ctx) {
            Ok(()) => {}
            Err(error) => return Err((error, target)),
        }
        if self.tracer.proof.is_open() {
            return Err((SolverError::ProofOpen, target));
        }
        if self.started {
            return Err((SolverError::ProofTooLate, target));
        }
        self.tracer.proof.write_proof(target, format);
        self.begin_count();
        Ok(())
    }

    /// Has a checker run inside the solver from here on: it takes each accepted clause and each step, and checks it.
    /// That it finds a step wrong can't happen, so there is no such error; out of memory in it makes the solver
    /// invalid. It takes no memory itself. Refused in an invalid solver, and once a clause, a variable or a list of
    /// assumptions was accepted: then nothing changes. Where a checker runs already, that one goes on.
    pub fn enable_self_checking(&mut self) -> Result<(), SolverError>
        ensures call { LeadsRepresented self.old (λ s t. EnablesChecking s result t) self.new }
        ensures runs { result ≡ Ok tt → IsSome self.new.checker }
    {
        ensure_valid(&self.ctx)?;
        let is_late = self.started;
        if is_late {
            return Err(SolverError::ProofTooLate);
        }
        self.tracer.proof.begin_checking(self.alloc);
        self.begin_count();
        Ok(())
    }

    /// The checker that runs inside, to be looked at.
    pub fn checker(&self) -> Option<&Checker<A>>
        ensures { option_copied result ≡ self.now.checker }
    {
        self.tracer.proof.checker()
    }

    /// Closes the proof, if one is open: flushes its target and hands it back, also where that fails, which makes the
    /// solver invalid. An invalid solver hands the target back without a flush. None where no proof is open.
    pub fn close_proof(&mut self) -> Result<Option<W>, (SolverError, W)>
        ensures call { LeadsRepresented self.old (λ s t. ClosesProof W.taken s result t) self.new }
        // Also an invalid solver hands back just the target that it has, with what this took.
        ensures handed { IsClosed W.taken self.old.opened result }
        ensures closed { self.new.opened ≡ None }
    {
        if self.ctx.solver_state.state_is_invalid {
            let target = take_target(&mut self.tracer.proof);
            self.begin_count();
            return Ok(target);
        }
        match close_proof(&mut self.tracer.proof) {
            Ok(target) => {
                self.begin_count();
                Ok(target)
            }
            Err((cause, target)) => Err((
                invalidate(&mut self.ctx, SolverError::ProofIoError { cause }),
                target,
            )),
        }
    }
}

impl<W: ProofTarget, A: Allocator + Copy> ExtendFormula for Solver<W, A> {
    ghost use Rattle.varisat_solver.specs.promises.Calls.{AddsClause, MakesVar};
    ghost use Rattle.varisat_solver.specs.promises.Represented.{LeadsRepresented};

    type Error = SolverError;

    ghost adds_clause = { λ g c r h. LeadsRepresented g (λ s t. AddsClause s c r t) h };

    ghost makes_var = { λ g r h. LeadsRepresented g (λ s t. MakesVar s r t) h };

    fn add_clause(&mut self, literals: &[Lit]) -> Result<(), SolverError> {
        Solver::add_clause(self, literals)
    }

    fn new_var(&mut self) -> Result<Var, SolverError> {
        Solver::new_var(self)
    }
}

impl<W: ProofTarget, A: Allocator + Copy> ClauseSink for Solver<W, A> {
    ghost use Rattle.varisat_solver.specs.inside.TextCalls.{TakesClauses};

    type Error = SolverError;

    ghost takes = { TakesClauses };

    fn take_clauses<B: Allocator + Copy>(
        &mut self,
        clauses: &CnfFormula<B>,
    ) -> Result<(), SolverError> {
        self.add_clauses(clauses)
    }
}
