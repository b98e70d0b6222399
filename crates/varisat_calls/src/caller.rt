//! A solver, and what is kept for its caller between calls.
ghost use Rattle.std.specs.Prelude.{◌≡◌, pos, ◌≤ℤ◌, [], None};
ghost use Rattle.varisat_literals.specs.promises.Numbers.{variable_numbered};
ghost use Rattle.varisat_solver.specs.promises.Refusals.{refusal_number};
ghost use Rattle.varisat_calls.specs.Codes.{answer_number};

use crate::codes::{DONE, NOTHING, WRONG, field_of, format_of, mode_of};
use crate::lookups::Lookups;
use crate::numbers::{list_names, list_numbers, read_numbers};
use crate::stream::{self, Lines, StreamTarget};
use std::alloc::Allocator;
use std::marker::Model;
use std::string::String;
use varisat_client::numbers::{literal_of, put_number};
use varisat_formula::dimacs::DimacsParser;
use varisat_literals::{Lit, Var};
use varisat_names::config::SolverConfigUpdate;
use varisat_names::variables::SamplingMode;
use varisat_solver::Solver;
use varisat_solver::solver::SolverError;

/// The variable of the number.
fn variable_of(number: i32) -> Var
    requires { pos 1 ≤ℤ number }
    ensures { result ≡ variable_numbered number }
{
    Var::from_dimacs(number as isize)
}

/// A solver, and what is kept for its caller between calls.
#[derive(Drop)]
pub struct Caller<A: Allocator + Copy> {
    alloc: A,
    solver: Solver<StreamTarget<A>, A>,
    // The clause that is given a literal at a time, and whether one of its literals found no memory.
    clause: Vec<Lit, A>,
    is_lost: bool,
    // The literals of the clause or the assumptions that are given at once.
    given: Vec<Lit, A>,
    lookups: Lookups<A>,
    // The list that was returned last.
    returned: Vec<i32, A>,
    // The DIMACS text that is being given, if one is.
    text: Option<DimacsParser<A>>,
    // What an open proof wrote and was not taken out yet.
    lines: Option<Lines<A>>,
    written: Vec<u8, A>,
    // The last refusal.
    refusal: Option<SolverError>,
}

impl<A: Allocator + Copy> Model for Caller<A> {
    ghost use Rattle.varisat_calls.specs.Callers as callers;
    ghost use Rattle.varisat_calls.specs.Lookups.{IsCurrent};

    ghost Value = { callers.Caller };

    ghost view = { λ c. record {
      solver = c.solver;
      clause = callers.clause_unless_lost c.is_lost c.clause.items;
      returned = c.returned.items;
      text = c.text;
      written = c.written.items;
    } };

    ghost invariant = { λ c. IsCurrent c.lookups c.solver };
}

impl<A: Allocator + Copy> Caller<A> {
    ghost use Rattle.varisat_solver.specs.promises.Calls.{AddsClause, Assumes};
    ghost use Rattle.varisat_solver.specs.promises.ProofCalls.{EnablesChecking};
    ghost use Rattle.varisat_solver.specs.promises.Usage.{ChangesMode};
    ghost use Rattle.varisat_calls.specs.Codes.{field_numbered, format_numbered, mode_numbered};
    ghost use Rattle.varisat_calls.specs.Callers.{IsNewCaller, SolverMakes, MakesNumbered, MakesOver, PutsNumber, SetsMaxSteps, SolvesNumbered, IsSatisfiableNow, IsUnsatisfiableNow, TellsSteps, TellsValid, TellsFixed, NamesNew, SetsField, SetsModeNumbered, SetsPhaseNumbered, UnsetsPhaseNumbered, ReturnsModel, ReturnsCore, ReturnsListOf, ShowsHidden, OpensFormat, ClosesNumbered, TakesWritten};
    ghost use Rattle.varisat_calls.specs.Lookups.{LooksUpValue, LooksUpFailed};
    ghost use Rattle.varisat_calls.specs.Texts.{text_of, without_clauses, AddsClauses, Feeds, EndsGivenText};

    /// A caller with a new solver. It takes no memory.
    pub fn new_in(alloc: A) -> Caller<A>
        ensures { IsNewCaller result }
    {
        Caller {
            alloc,
            solver: Solver::new_in(alloc),
            clause: Vec::new(alloc),
            is_lost: false,
            given: Vec::new(alloc),
            lookups: Lookups::new_in(alloc),
            returned: Vec::new(alloc),
            text: None,
            lines: None,
            written: Vec::new(alloc),
            refusal: None,
        }
    }

    /// The number of a refusal, which is kept.
    fn refuse(&mut self, error: SolverError) -> u8
        ensures number { result ≡ refusal_number error }
        ensures frame { self.new ≡ self.old }
    {
        let number = error.number();
        self.refusal = Some(error);
        number
    }

    /// The number of an answer.
    fn answer(&mut self, answer: Result<(), SolverError>) -> u8
        ensures number { result ≡ answer_number answer }
        ensures frame { self.new ≡ self.old }
    {
        match answer {
            Ok(()) => DONE,
            Err(error) => self.refuse(error),
        }
    }

    /// Accepts the clause of these numbers.
    pub fn add_clause(&mut self, numbers: &[i32]) -> u8
        ensures { MakesOver numbers.now AddsClause self.old result self.new }
    {
        match read_numbers(&mut self.given, numbers) {
            Ok(true) => {
                self.lookups.forget();
                let added = self.solver.add_clause(&self.given);
                self.answer(added)
            }
            Ok(false) => WRONG,
            Err(_) => self.refuse(SolverError::OutOfMemory),
        }
    }

    /// Accepts the clause that was given a literal at a time.
    fn end_clause(&mut self) -> u8
        ensures { PutsNumber (pos 0) self.old result self.new }
    {
        if self.is_lost {
            self.is_lost = false;
            self.clause.clear();
            return self.refuse(SolverError::OutOfMemory);
        }
        self.lookups.forget();
        let added = self.solver.add_clause(&self.clause);
        self.clause.clear();
        self.answer(added)
    }

    /// Puts the literal of the number behind the clause that is being given, or accepts that clause where it is 0.
    /// One of which a literal found no memory is refused as a whole.
    pub fn add(&mut self, number: i32) -> u8
        ensures { PutsNumber number self.old result self.new }
    {
        if number == 0 {
            return self.end_clause();
        }
        if self.is_lost {
            return self.refuse(SolverError::OutOfMemory);
        }
        match put_number(&mut self.clause, number) {
            Ok(()) => DONE,
            Err(_) => {
                self.is_lost = true;
                self.refuse(SolverError::OutOfMemory)
            }
        }
    }

    /// Replaces the assumptions by the literals of these numbers.
    pub fn assume(&mut self, numbers: &[i32]) -> u8
        ensures { MakesOver numbers.now Assumes self.old result self.new }
    {
        match read_numbers(&mut self.given, numbers) {
            Ok(true) => {
                self.lookups.forget();
                let assumed = self.solver.assume(&self.given);
                self.answer(assumed)
            }
            Ok(false) => WRONG,
            Err(_) => self.refuse(SolverError::OutOfMemory),
        }
    }

    /// How many steps each call of `solve` may make.
    pub fn limit_steps(&mut self, steps: u64)
        ensures { SetsMaxSteps steps self.old self.new }
    {
        self.lookups.forget();
        self.solver.set_max_steps(steps);
    }

    /// 10 where the clauses are satisfiable under the assumptions, 20 where they are not, or the number of a refusal.
    pub fn solve(&mut self) -> u8
        ensures call { SolvesNumbered self.old result self.new }
        ensures satisfiable { result ≡ 10 → IsSatisfiableNow self.old }
        ensures unsatisfiable { result ≡ 20 → IsUnsatisfiableNow self.old }
    {
        self.lookups.forget();
        match self.solver.solve() {
            Ok(true) => 10,
            Ok(false) => 20,
            Err(error) => self.refuse(error),
        }
    }

    /// Brings the least free variable into use, or returns the number of a refusal.
    pub fn new_var(&mut self) -> Result<Var, u8>
        ensures { NamesNew self.old result self.new }
    {
        self.lookups.forget();
        match self.solver.new_var() {
            Ok(var) => Ok(var),
            Err(error) => Err(self.refuse(error)),
        }
    }

    /// Changes the mode of the variable.
    fn change_mode(&mut self, var: Var, mode: SamplingMode) -> Result<(), SolverError>
        ensures { SolverMakes (λ s r t. ChangesMode mode s var r t) self.old result self.new }
    {
        self.lookups.forget();
        match mode {
            SamplingMode::Sample => self.solver.sample_var(var),
            SamplingMode::Witness => self.solver.witness_var(var),
            SamplingMode::Hide => self.solver.hide_var(var),
        }
    }

    /// Lets clauses and assumptions name the variable (0), lets none name it (1), or hides it (2).
    pub fn set_mode(&mut self, variable: i32, mode: u8) -> u8
        ensures { SetsModeNumbered variable (mode_numbered mode) self.old result self.new }
    {
        let Some(mode) = mode_of(mode) else {
            return WRONG;
        };
        if variable < 1 {
            return WRONG;
        }
        let set = self.change_mode(variable_of(variable), mode);
        self.answer(set)
    }

    /// Sets the phase of the literal of the number.
    pub fn set_phase(&mut self, number: i32) -> u8
        ensures { SetsPhaseNumbered number self.old result self.new }
    {
        if number == 0 {
            return WRONG;
        }
        self.lookups.forget();
        let set = self.solver.set_phase(literal_of(number));
        self.answer(set)
    }

    /// The variable has no phase that is set any more.
    pub fn unset_phase(&mut self, variable: i32) -> u8
        ensures { UnsetsPhaseNumbered variable self.old result self.new }
    {
        if variable < 1 {
            return WRONG;
        }
        self.solver.unset_phase(variable_of(variable));
        DONE
    }

    /// No list is returned, since memory ran out.
    fn run_out(&mut self) -> u8
        ensures number { result ≡ 3 }
        ensures frame { self.new ≡ record self.old { returned = [] } }
    {
        self.returned.clear();
        self.refuse(SolverError::OutOfMemory)
    }

    /// Tells the model, or 15 where there is none.
    pub fn model(&mut self) -> u8
        ensures { ReturnsListOf ReturnsModel self.old result self.new }
    {
        match self.solver.model() {
            Ok(Some(lits)) => match list_numbers(&mut self.returned, &lits) {
                Ok(()) => DONE,
                Err(_) => self.run_out(),
            },
            Ok(None) => NOTHING,
            Err(_) => self.run_out(),
        }
    }

    /// Tells the core, or 15 where there is none.
    pub fn core(&mut self) -> u8
        ensures { ReturnsListOf ReturnsCore self.old result self.new }
    {
        match self.solver.failed_core() {
            Some(core) => match list_numbers(&mut self.returned, core) {
                Ok(()) => DONE,
                Err(_) => self.run_out(),
            },
            None => NOTHING,
        }
    }

    /// 1 where the literal of the number is true in the model, 0 where it is false, 15 where there is no model or it
    /// has no such variable.
    pub fn value(&mut self, number: i32) -> u8
        ensures { LooksUpValue number self.old result self.new }
    {
        if number == 0 {
            return WRONG;
        }
        match self.lookups.find_model(&self.solver) {
            Ok(true) => self.lookups.value(literal_of(number)),
            Ok(false) => NOTHING,
            Err(_) => self.refuse(SolverError::OutOfMemory),
        }
    }

    /// 1 where the literal of the number is one of the core, 0 where it is not, 15 where there is no core.
    pub fn is_failed(&mut self, number: i32) -> u8
        ensures { LooksUpFailed number self.old result self.new }
    {
        if number == 0 {
            return WRONG;
        }
        match self.lookups.find_core(&self.solver) {
            Ok(true) => self.lookups.is_kept(literal_of(number)),
            Ok(false) => NOTHING,
            Err(_) => self.refuse(SolverError::OutOfMemory),
        }
    }

    /// Brings the hidden variables back as witnesses, and returns their names.
    pub fn observe(&mut self) -> u8
        ensures { ShowsHidden self.old result self.new }
    {
        self.lookups.forget();
        match self.solver.observe_internal_vars() {
            Ok(vars) => match list_names(&mut self.returned, &vars) {
                Ok(()) => DONE,
                Err(_) => self.run_out(),
            },
            Err(error) => self.refuse(error),
        }
    }

    /// The list that was returned last.
    pub fn returned(&self) -> &[i32]
        ensures { result.now ≡ self.now.returned }
    {
        &self.returned
    }

    /// Sets the setting of this number.
    pub fn config(&mut self, field: u8, value: u64) -> u8
        ensures { SetsField (field_numbered field) value self.old result self.new }
    {
        let Some(field) = field_of(field) else {
            return WRONG;
        };
        self.lookups.forget();
        let set = self.solver.config(&SolverConfigUpdate::one(field, value));
        self.answer(set)
    }

    /// All steps made.
    pub fn steps(&self) -> u64
        ensures { TellsSteps result self.now }
    {
        self.solver.steps()
    }

    /// The counter of this number, 0 where there is none. No contract says what the counters are.
    pub fn counter(&self, number: u8) -> u64 {
        let counters = self.solver.statistics();
        match number {
            0 => counters.conflicts,
            1 => counters.decisions,
            2 => counters.propagations,
            3 => counters.restarts,
            4 => counters.learned_literals,
            5 => counters.deleted_clauses,
            6 => counters.collections,
            _ => 0,
        }
    }

    /// Whether no refusal came from which there is no way back.
    pub fn is_valid(&self) -> bool
        ensures { TellsValid result self.now }
    {
        self.solver.is_valid()
    }

    /// 1 where the literal of the number is fixed, 0 where it is not.
    pub fn is_fixed(&self, number: i32) -> u8
        ensures { TellsFixed number self.now result }
    {
        if number == 0 {
            return WRONG;
        }
        if self.solver.is_fixed(literal_of(number)) {
            1
        } else {
            0
        }
    }

    /// The text that is being given, or a new one.
    fn take_text(&mut self) -> DimacsParser<A>
        ensures text { result ≡ text_of self.old.text }
        ensures taken { self.new ≡ record self.old { text = None } }
    {
        match self.text.take() {
            Some(parser) => parser,
            None => DimacsParser::new_in(self.alloc),
        }
    }

    /// Adds the clauses that were read, which the parser has no more then.
    fn add_read(&mut self, parser: &mut DimacsParser<A>) -> Result<(), SolverError>
        ensures added { AddsClauses parser.old result self.old.text self.old self.new }
        ensures taken { parser.new ≡ without_clauses parser.old }
    {
        self.lookups.forget();
        self.solver.add_formula(&parser.take_formula())
    }

    /// Accepts the clauses that end in the next piece of a DIMACS text. A text that is refused is over.
    pub fn feed(&mut self, piece: &[u8]) -> u8
        ensures { Feeds piece.now self.old result self.new }
    {
        let mut parser = self.take_text();
        let read = parser.feed(piece);
        if let Err(error) = self.add_read(&mut parser) {
            return self.refuse(error);
        }
        match read {
            Ok(()) => {
                self.text = Some(parser);
                DONE
            }
            Err(fault) => self.refuse(SolverError::from_text(fault)),
        }
    }

    /// Ends the DIMACS text: the highest number of its header and its literals, or the number of a refusal.
    pub fn end_text(&mut self) -> Result<usize, u8>
        ensures { EndsGivenText self.old result self.new }
    {
        let mut parser = self.take_text();
        let read = parser.finish();
        if let Err(error) = self.add_read(&mut parser) {
            return Err(self.refuse(error));
        }
        match read {
            Ok(()) => Ok(parser.var_count()),
            Err(fault) => Err(self.refuse(SolverError::from_text(fault))),
        }
    }

    /// Opens a proof in the format of this number.
    pub fn open_proof(&mut self, format: u8) -> u8
        ensures { OpensFormat (format_numbered format) self.old result self.new }
    {
        let Some(format) = format_of(format) else {
            return WRONG;
        };
        let Ok((lines, target)) = stream::stream_in(self.alloc) else {
            return self.refuse(SolverError::OutOfMemory);
        };
        self.lookups.forget();
        match self.solver.write_proof(target, format) {
            Ok(()) => {
                self.lines = Some(lines);
                DONE
            }
            Err((error, target)) => {
                drop(target);
                self.refuse(error)
            }
        }
    }

    /// Closes the proof, of which the last bytes are still to be taken out. 15 where none is open.
    pub fn close_proof(&mut self) -> u8
        ensures { ClosesNumbered self.old result self.new }
    {
        self.lookups.forget();
        match self.solver.close_proof() {
            Ok(Some(target)) => {
                drop(target);
                DONE
            }
            Ok(None) => NOTHING,
            Err((error, target)) => {
                drop(target);
                self.refuse(error)
            }
        }
    }

    /// Takes out what a proof wrote since the last call: from now on that is `written`. No contract says what bytes
    /// these are, since they pass through a cell; what the target took is returned by `close_proof`.
    pub fn take_written(&mut self)
        ensures { TakesWritten self.old self.new }
    {
        self.written = match &self.lines {
            Some(lines) => lines.take(self.alloc),
            None => Vec::new(self.alloc),
        };
    }

    /// What was taken out last.
    pub fn written(&self) -> &[u8]
        ensures { result.now ≡ self.now.written }
    {
        &self.written
    }

    /// Has a checker run inside.
    pub fn self_check(&mut self) -> u8
        ensures { MakesNumbered EnablesChecking self.old result self.new }
    {
        self.lookups.forget();
        let enabled = self.solver.enable_self_checking();
        self.answer(enabled)
    }

    /// The text of the last refusal, empty where there was none or memory runs out.
    pub fn refusal_text(&self) -> String<A> {
        let Some(refusal) = &self.refusal else {
            return String::new(self.alloc);
        };
        match refusal.to_string(self.alloc) {
            Ok(text) => text,
            Err(_) => String::new(self.alloc),
        }
    }
}
