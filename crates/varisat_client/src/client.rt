//! A client of the solver that takes clauses and assumptions a literal at a time, and returns values one at a time.
ghost use Rattle.std.specs.Prelude.{◌≡◌, None, pos, true, false, IfOk};
ghost use Rattle.varisat_solver.specs.inside.Representations.{Represents};
ghost use Rattle.varisat_client.specs.inside.Clients.{first_state};

use crate::literal_set::LitSet;
use crate::numbers::{count_with, literal_of, put_number};
use crate::refusal::{Refusal, refusal_for, store_refusal_for};
use std::alloc::{AllocError, Allocator};
use std::marker::Model;
use std::mem::{replace, swap};
use varisat::config::{ConfigField, SolverConfigUpdate};
use varisat::io::MemoryTarget;
use varisat::solver::SolverError;
use varisat::{CnfFormula, Lit, Solver};
use varisat_formula::values::{literals_of, values_of};
use varisat_incremental::batches::Batches;

// The settings of a client's solver. Where calls come to many conflicts they took 0.7 of the time of a new solver's
// settings, and else the same. Restarts that glue chooses, as the program has for a file, were not tried on calls.
const REDUCE_LOCALS_INTERVAL: u64 = 2000;

const LUBY_RESTART_INTERVAL_SCALE: u64 = 64;

/// How many variables there may be.
const MOST_VARIABLES: usize = 0x1000_0000;

/// How a search ended.
#[derive(Clone, Copy)]
pub enum SearchEnd {
    /// Some assignment satisfies the clauses and makes the assumptions true.
    Satisfiable,
    /// None does.
    Unsatisfiable,
    /// The steps of one call are spent. The next call goes on.
    Interrupted,
    /// The call was refused.
    Refused,
}

/// The literal of a hint. None if no clause may name it.
fn hint_for(number: i32) -> Option<Lit> {
    if number == 0 {
        return None;
    }
    let lit = literal_of(number);
    if lit.index() >= MOST_VARIABLES {
        return None;
    }
    Some(lit)
}

/// A new solver with the settings of a client. It takes no memory.
fn new_solver<A: Allocator + Copy>(alloc: A) -> Solver<MemoryTarget<A>, A>
    ensures { Represents result first_state }
{
    let mut solver = Solver::new_in(alloc);
    let mut update = SolverConfigUpdate::new();
    update.reduce_locals_interval = Some(REDUCE_LOCALS_INTERVAL);
    update.luby_restart_interval_scale = Some(LUBY_RESTART_INTERVAL_SCALE);
    // A new solver refuses no setting in its range.
    let _ = solver.config(&update);
    solver
}

/// A client with its solver. From the first call on that is refused, all are.
#[derive(Drop)]
pub struct Client<A: Allocator + Copy> {
    alloc: A,
    // No proof is ever written, so that the type of targets does not matter.
    solver: Solver<MemoryTarget<A>, A>,
    // The clauses that the solver was not given yet, and by which models are extended to those that it never gets.
    pending: CnfFormula<A>,
    batches: Batches<A>,
    // Whether a clause ended or a search was begun since the solver was given the clauses.
    is_changed: bool,
    // How many variables there are up to the highest that is counted.
    var_count: usize,
    clause: Vec<Lit, A>,
    assumptions: Vec<Lit, A>,
    // The assumptions of the search that was begun last.
    assumed: Vec<Lit, A>,
    model: LitSet<A>,
    core: LitSet<A>,
    refusal: Option<Refusal>,
}

impl<A: Allocator + Copy> Model for Client<A> {
    ghost use Rattle.std.specs.Prelude.{◌≤◌, ◌^◌};
    ghost use Rattle.varisat_client.specs.inside.Clients as clients;

    ghost Value = { clients.Client };

    ghost view = { λ c. record {
      solver = c.solver;
      pending = c.pending.clauses;
      batches = c.batches;
      is_changed = c.is_changed;
      var_count = c.var_count;
      clause = c.clause.items;
      assumptions = c.assumptions.items;
      assumed = c.assumed.items;
      model = c.model;
      core = c.core;
      refusal = c.refusal;
    } };

    ghost invariant = { λ c. c.var_count ≤ 2 ^ 31 };
}

impl<A: Allocator + Copy> Client<A> {
    ghost use Rattle.varisat_client.specs.promises.Pasts.{empty_client_past, AddsNumber, AssumesNumber, Begins, LimitsSteps, Prepares, IsSearchEnd, ReturnsValue, ReturnsFailed};
    ghost use Rattle.varisat_client.specs.inside.Clients.{RepresentsPast, IsTrueOfPast, Moves, GivesPending, model_of_all, RunsOutOfMemory, KeepsModel, KeepsCore};

    /// A client with a new solver. It takes no memory.
    pub fn new_in(alloc: A) -> Client<A>
        ensures { RepresentsPast result empty_client_past }
    {
        Client {
            alloc,
            solver: new_solver(alloc),
            pending: CnfFormula::new_in(alloc),
            batches: Batches::new_in(alloc),
            is_changed: false,
            var_count: 0,
            clause: Vec::new(alloc),
            assumptions: Vec::new(alloc),
            assumed: Vec::new(alloc),
            model: LitSet::new_in(alloc),
            core: LitSet::new_in(alloc),
            refusal: None,
        }
    }

    /// Adds the literal of the number to the clause that is being given, or ends that clause where the number is 0.
    pub fn add(&mut self, number: i32)
        ensures { Moves (AddsNumber number) self.old self.new }
    {
        if self.refusal.is_some() {
            return;
        }
        if number == 0 {
            self.end_clause();
            return;
        }
        if let Err(AllocError) = put_number(&mut self.clause, number) {
            self.refusal = Some(Refusal::OutOfMemory);
        }
    }

    /// Keeps the clause that was given until the next search.
    fn end_clause(&mut self)
        ensures { self.old.refusal ≡ None → Moves (AddsNumber (pos 0)) self.old self.new }
    {
        let count = count_with(self.var_count, &self.clause);
        if count > MOST_VARIABLES {
            self.refusal = Some(Refusal::VariableLimit);
            return;
        }
        match self.pending.add_clause(&self.clause) {
            Ok(()) => {
                self.clause.clear();
                self.var_count = count;
                self.is_changed = true;
            }
            Err(_) => self.refusal = Some(Refusal::OutOfMemory),
        }
    }

    /// Adds the literal of the number to the assumptions for the next search. 0 adds none.
    pub fn assume(&mut self, number: i32)
        ensures { Moves (AssumesNumber number) self.old self.new }
    {
        if number == 0 {
            return;
        }
        if self.refusal.is_some() {
            return;
        }
        if let Err(AllocError) = put_number(&mut self.assumptions, number) {
            self.refusal = Some(Refusal::OutOfMemory);
        }
    }

    /// Begins a search under the assumptions that were given.
    pub fn begin(&mut self)
        ensures { Moves Begins self.old self.new }
    {
        if self.refusal.is_some() {
            return;
        }
        match self.solver.assume(&self.assumptions) {
            Ok(()) => {
                self.var_count = count_with(self.var_count, &self.assumptions);
                swap(&mut self.assumed, &mut self.assumptions);
                self.assumptions.clear();
                self.is_changed = true;
            }
            Err(error) => self.refusal = Some(refusal_for(&error)),
        }
    }

    /// How many steps one call of `search` may make.
    pub fn limit_steps(&mut self, steps: u64)
        ensures { Moves (LimitsSteps steps) self.old self.new }
    {
        if self.refusal.is_some() {
            return;
        }
        let update = SolverConfigUpdate::one(ConfigField::MaxSteps, steps);
        if let Err(error) = self.solver.config(&update) {
            self.refusal = Some(refusal_for(&error));
        }
    }

    /// Sets how many literals the clauses have at least that were given since the last search, for the next one to
    /// simplify them first: 1,000 at first. The greatest number simplifies none. No answer depends on it.
    pub fn simplify_from(&mut self, literals: usize)
        ensures { self.new ≡ self.old }
    {
        self.batches.simplify_from(literals);
    }

    /// Hints that later clauses or assumptions name the variable of the number: until `melt` it is not eliminated, which
    /// saves restoring it. No answer depends on it. A number past the limit of variables changes nothing.
    pub fn freeze(&mut self, number: i32)
        ensures { self.new ≡ self.old }
    {
        let Some(lit) = hint_for(number) else {
            return;
        };
        self.batches.freeze(lit);
    }

    /// Takes back the hint of `freeze`. A variable stays if the solver has it already.
    pub fn melt(&mut self, number: i32)
        ensures { self.new ≡ self.old }
    {
        let Some(lit) = hint_for(number) else {
            return;
        };
        self.batches.melt(lit);
    }

    /// How many variables simplifications eliminated so far.
    pub fn eliminations(&self) -> u64 {
        self.batches.eliminations()
    }

    /// How many of them were restored so far.
    pub fn restorations(&self) -> u64 {
        self.batches.restorations()
    }

    /// Does a part of the simplification that a search begins with, once `begin` was called: it takes some milliseconds, or
    /// as long as a few passes over the clauses that were given since the last search. Returns whether it did one: false
    /// comes once nothing is left to be simplified. The next search takes what is there, whether or not parts are left.
    /// After a refused call it does nothing.
    pub fn prepare(&mut self) -> bool
        ensures { Moves Prepares self.old self.new }
    {
        if self.refusal.is_some() {
            return false;
        }
        if !self.is_changed {
            return false;
        }
        match self.batches.go_on(&mut self.pending, &self.assumed) {
            Ok(is_part) => is_part,
            Err(_) => {
                self.refusal = Some(Refusal::OutOfMemory);
                false
            }
        }
    }

    /// How many steps all searches made together, as long as no call was refused.
    pub fn steps(&self) -> u64
        ensures { IsTrueOfPast (λ p. p.refusal ≡ None → result ≡ p.steps) self.now }
    {
        self.solver.steps()
    }

    /// Searches until it is known whether some assignment satisfies the clauses and makes the assumptions true, or the
    /// steps of one call are spent.
    pub fn search(&mut self) -> SearchEnd
        ensures { Moves (IsSearchEnd result) self.old self.new }
    {
        if self.refusal.is_some() {
            return SearchEnd::Refused;
        }
        if self.is_changed {
            self.give_pending();
            if self.refusal.is_some() {
                return SearchEnd::Refused;
            }
        }
        self.seek()
    }

    /// Searches, where the solver was given all clauses.
    fn seek(&mut self) -> SearchEnd
        ensures { self.old.refusal ≡ None → self.old.is_changed ≡ false →
            Moves (IsSearchEnd result) self.old self.new }
    {
        match self.solver.solve() {
            Ok(true) => self.keep_model(),
            Ok(false) => self.keep_core(),
            Err(SolverError::Interrupted) => SearchEnd::Interrupted,
            Err(error) => {
                self.refusal = Some(refusal_for(&error));
                SearchEnd::Refused
            }
        }
    }

    /// Gives the solver the clauses that it is to have for the next search.
    fn give_pending(&mut self)
        ensures { self.old.is_changed ≡ true → self.old.refusal ≡ None → GivesPending self.old self.new }
    {
        let pending = replace(&mut self.pending, CnfFormula::new_in(self.alloc));
        let Ok(formula) = self.batches.take(pending, &self.assumed) else {
            self.refusal = Some(Refusal::OutOfMemory);
            return;
        };
        match self.solver.add_formula(&formula) {
            Ok(()) => self.is_changed = false,
            Err(error) => self.refusal = Some(store_refusal_for(&error)),
        }
    }

    /// Refuses, since memory ran out.
    fn run_out(&mut self) -> SearchEnd
        ensures { RunsOutOfMemory result self.new }
    {
        self.refusal = Some(Refusal::OutOfMemory);
        SearchEnd::Refused
    }

    /// Keeps the model that was found.
    fn keep_model(&mut self) -> SearchEnd
        ensures { KeepsModel result self.old self.new }
    {
        let Ok(Some(list)) = self.solver.model() else {
            return self.run_out();
        };
        match self.extended(&list) {
            Ok(all) => match self.model.replace(&all) {
                Ok(()) => SearchEnd::Satisfiable,
                Err(_) => self.run_out(),
            },
            Err(_) => self.run_out(),
        }
    }

    /// The model of the solver's clauses, extended to one of all.
    fn extended(&self, list: &[Lit]) -> Result<Vec<Lit, A>, AllocError>
        ensures { IfOk result (λ all. all.items ≡ model_of_all self.now list.now) }
    {
        let mut values = values_of(self.alloc, self.var_count, list)?;
        self.batches.extend_model(&mut values);
        let all = literals_of(self.alloc, &values)?;
        Ok(all)
    }

    /// Keeps the core that was found.
    fn keep_core(&mut self) -> SearchEnd
        ensures { KeepsCore result self.old self.new }
    {
        let Some(list) = self.solver.failed_core() else {
            return self.run_out();
        };
        match self.core.replace(list) {
            Ok(()) => SearchEnd::Unsatisfiable,
            Err(_) => self.run_out(),
        }
    }

    /// The number where its literal is true in the last model that was found, its opposite where that is, else 0.
    pub fn value(&self, number: i32) -> i32
        ensures { IsTrueOfPast (ReturnsValue number result) self.now }
    {
        if self.refusal.is_some() {
            return 0;
        }
        if number == 0 || number == i32::MIN {
            return 0;
        }
        let lit = literal_of(number);
        if self.model.contains(lit) {
            return number;
        }
        if self.model.contains(!lit) {
            return -number;
        }
        0
    }

    /// Whether the literal of the number is in the core that was found last.
    pub fn has_failed(&self, number: i32) -> bool
        ensures { IsTrueOfPast (ReturnsFailed number result) self.now }
    {
        if self.refusal.is_some() {
            return false;
        }
        if number == 0 {
            return false;
        }
        self.core.contains(literal_of(number))
    }

    /// Why calls are refused, if they are.
    pub fn refusal(&self) -> Option<Refusal>
        ensures { IsTrueOfPast (λ p. result ≡ p.refusal) self.now }
    {
        self.refusal
    }
}
