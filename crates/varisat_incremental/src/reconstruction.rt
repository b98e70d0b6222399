//! Variables that are eliminated from clauses that go on growing, and what brings them back.
ghost use Rattle.std.specs.Prelude.{◌≡◌, ◌++◌, [], false, IsTrue, OnOk, IfOk};
ghost use Rattle.varisat_rules.specs.promises.Stacks.{extended};
ghost use Rattle.varisat_incremental.specs.Flags.{AreAmong};
ghost use Rattle.varisat_incremental.specs.Batches.{BeginsBatch, EndsBatch};
ghost use Rattle.varisat_incremental.specs.Reconstructions.{no_clauses, IsLedBy, AreLedBy, Takes, Restores, RestoresSome, BringsBack, Reduces, Saves, TakesRest};

use crate::flags::{
    clear_all_flags, clear_flag, clear_flags, has_flag, set_all_flags, set_flag, set_flags,
    set_hinted_flags,
};
use crate::forecast::Forecast;
use std::alloc::{AllocError, Allocator};
use std::marker::Model;
use varisat_database::database::literals_in;
use varisat_formula::formula::cnf::{CnfFormula, FormulaError};
use varisat_literals::Lit;
use varisat_simplify::clauses::ClauseList;
use varisat_simplify::simplify::{Limits, Simplification, simplify_with};
use varisat_simplify::stack::extend;

/// A batch of fewer literals is not simplified, unless another count is set.
const LEAST_LITERALS: usize = 1000;

/// A batch is simplified if its literals are at least this share of those that are there: a simplification goes through
/// the flags of all variables, so that all simplifications together are linear in the literals that were ever taken.
const SHARE: usize = 256;

/// About how many literals a part of a simplification looks at: some milliseconds' work.
const PART: u64 = 200_000;

/// How often all literals that are there are read to restore variables, before all variables are restored at once.
const MOST_READS: u64 = 256;

/// The clauses of eliminated variables, by which models are extended, and which variables may not be eliminated.
#[derive(Drop)]
pub struct Reconstruction<A: Allocator + Copy> {
    alloc: A,
    // The clauses of each eliminated variable, with its literal in front, in the order of elimination.
    stack: ClauseList<A>,
    eliminated: Vec<bool, A>,
    frozen: Vec<bool, A>,
    // The variables that are not to be eliminated from the next batches. It is only a hint.
    hinted: Vec<bool, A>,
    // Which variables later calls may name. It is only a guess.
    forecast: Forecast<A>,
    // How many literals a batch has at least that is simplified.
    least: usize,
    // How many literals the clauses have that were returned.
    given: usize,
    // How many literals of the stack were read to restore variables.
    read: u64,
    // How many variables were eliminated.
    eliminations: u64,
}

impl<A: Allocator + Copy> Model for Reconstruction<A> {
    ghost use Rattle.varisat_incremental.specs.Reconstructions as reconstructions;

    ghost Value = { reconstructions.Reconstruction };

    ghost view = { λ r. record {
      stack = r.stack;
      eliminated = r.eliminated.items;
      frozen = r.frozen.items;
    } };
}

/// A batch that is being simplified in parts.
#[derive(Drop)]
pub struct Batch<A: Allocator + Copy> {
    // The clauses that were restored as it was begun.
    restored: CnfFormula<A>,
    simplification: Simplification<A>,
}

impl<A: Allocator + Copy> Model for Batch<A> {
    ghost use Rattle.varisat_incremental.specs.Batches as batches;

    ghost Value = { batches.Batch };

    ghost view = { λ b. record { restored = b.restored.clauses; simplification = b.simplification } };
}

impl<A: Allocator + Copy> Batch<A> {
    ghost use Rattle.varisat_incremental.specs.Batches.{ContinuesBatch};

    /// Does a part of the simplification. Returns whether a part is left to do.
    pub fn go_on(&mut self) -> Result<bool, AllocError>
        ensures { OnOk result (ContinuesBatch self.old self.new) }
    {
        let is_more = self.simplification.go_on(PART)?;
        Ok(is_more)
    }
}

/// Whether the first literal of the clause is of a flagged variable. An empty clause counts as such.
fn is_led_by(flags: &[bool], clause: &[Lit]) -> bool
    ensures { IsTrue result → IsLedBy flags.now clause.now }
{
    match clause.first() {
        Some(lit) => has_flag(flags, *lit),
        None => true,
    }
}

/// Whether the first literal of each clause is of a flagged variable.
fn are_led_by<A: Allocator + Copy>(flags: &[bool], stack: &ClauseList<A>) -> bool
    ensures { IsTrue result → AreLedBy flags.now stack.now }
{
    for place in 0..stack.len() {
        if !is_led_by(flags, stack.clause(place)) {
            return false;
        }
    }
    true
}

/// How many variables clauses of the stack begin with. Those of one variable are next to each other.
fn count_leads<A: Allocator + Copy>(stack: &ClauseList<A>) -> u64 {
    let mut count: u64 = 0;
    let mut last = usize::MAX;
    for place in 0..stack.len() {
        if let Some(lit) = stack.clause(place).first() {
            if lit.index() != last {
                count = count.saturating_add(1);
            }
            last = lit.index();
        }
    }
    count
}

/// Adds the clauses after the others.
pub(crate) fn append<A: Allocator + Copy>(
    formula: &mut CnfFormula<A>,
    more: &CnfFormula<A>,
) -> Result<(), FormulaError>
    ensures { OnOk result (formula.new.clauses ≡ formula.old.clauses ++ more.now.clauses) }
{
    for clause in more.iter() {
        formula.add_clause(clause)?;
    }
    Ok(())
}

/// Flags the variable of the clause's first literal.
fn flag_first<A: Allocator + Copy>(
    flags: &mut Vec<bool, A>,
    clause: &[Lit],
) -> Result<(), AllocError>
    ensures keeps { OnOk result (AreAmong flags.old.items flags.new.items) }
    ensures led { OnOk result (IsLedBy flags.new.items clause.now) }
{
    if let Some(lit) = clause.first() {
        set_flag(flags, *lit)?;
    }
    Ok(())
}

/// Adds to the restored clauses those of the stack whose first literal is of a variable that is not flagged, or all if
/// none is to be kept, and clears the flags of their variables. Returns the others.
fn restore_from<A: Allocator + Copy>(
    alloc: A,
    stack: &ClauseList<A>,
    flags: &mut Vec<bool, A>,
    restored: &mut CnfFormula<A>,
    keeps: bool,
) -> Result<ClauseList<A>, FormulaError>
    ensures restores { IfOk result (λ kept.
        RestoresSome stack.now flags.old.items restored.old.clauses kept flags.new.items restored.new.clauses) }
    ensures all { IfOk result (λ kept. keeps ≡ false → kept ≡ []) }
{
    let mut kept = ClauseList::new_in(alloc);
    kept.reserve(stack.len(), stack.literal_count())?;
    for place in 0..stack.len() {
        let clause = stack.clause(place);
        if keeps && is_led_by(flags, clause) {
            kept.push(clause)?;
        } else {
            restored.add_clause(clause)?;
            clear_flags(flags, clause);
        }
    }
    Ok(kept)
}

impl<A: Allocator + Copy> Reconstruction<A> {
    /// No variable is eliminated or frozen. It takes no memory.
    pub fn new_in(alloc: A) -> Reconstruction<A>
        ensures { result ≡ no_clauses }
    {
        Reconstruction {
            alloc,
            stack: ClauseList::new_in(alloc),
            eliminated: Vec::new(alloc),
            frozen: Vec::new(alloc),
            hinted: Vec::new(alloc),
            forecast: Forecast::new_in(alloc),
            least: LEAST_LITERALS,
            given: 0,
            read: 0,
            eliminations: 0,
        }
    }

    /// Sets how many literals a batch has at least that is simplified. The greatest number simplifies none.
    pub fn simplify_from(&mut self, literals: usize)
        ensures { self.new ≡ self.old }
    {
        self.least = literals;
    }

    /// Hints that later calls name the literal's variable: it is not eliminated from the next batches. No answer depends
    /// on it. The hint is dropped if memory runs out.
    pub fn freeze(&mut self, lit: Lit)
        ensures { self.new ≡ self.old }
    {
        let _ = set_flag(&mut self.hinted, lit);
    }

    /// Takes the hint back.
    pub fn melt(&mut self, lit: Lit)
        ensures { self.new ≡ self.old }
    {
        clear_flag(&mut self.hinted, lit);
    }

    /// How many variables were eliminated so far.
    pub fn eliminations(&self) -> u64 {
        self.eliminations
    }

    /// How many variables were restored so far.
    pub fn restorations(&self) -> u64 {
        self.eliminations.saturating_sub(count_leads(&self.stack))
    }

    /// Whether a batch of so many literals is worth a simplification.
    fn is_worth(&self, literals: usize) -> bool {
        let present = self.given.saturating_add(self.stack.literal_count());
        literals >= self.least && literals >= present / SHARE
    }

    /// Whether reading the stack for each variable that is restored has come to cost more than restoring all.
    fn is_worn(&self) -> bool {
        let present = self.given.saturating_add(self.stack.literal_count()) as u64;
        self.read > present.saturating_mul(MOST_READS)
    }

    /// Whether variables that no call names stay eliminated. If not, restoring all costs less from now on.
    fn keeps_stack(&mut self) -> bool
        ensures { self.new ≡ self.old }
    {
        if self.is_worn() {
            self.read = 0;
            return false;
        }
        true
    }

    /// Restores each variable that has clauses on the stack and is not flagged as eliminated, and those that are
    /// eliminated and that these clauses name; or all, if none is to be kept. Returns the clauses. One pass does, since
    /// the clauses are in the order in which their variables were eliminated; if they were not, all would be restored.
    fn restore(&mut self, keeps: bool) -> Result<CnfFormula<A>, FormulaError>
        ensures restores { IfOk result (λ f. Restores self.old [] self.new f.clauses) }
        ensures led { IfOk result (λ f. AreLedBy self.new.eliminated self.new.stack) }
    {
        self.read = self.read.saturating_add(self.stack.literal_count() as u64);
        let mut restored = CnfFormula::new_in(self.alloc);
        let kept = restore_from(
            self.alloc,
            &self.stack,
            &mut self.eliminated,
            &mut restored,
            keeps,
        )?;
        self.stack = kept;
        if are_led_by(&self.eliminated, &self.stack) {
            return Ok(restored);
        }
        let none = restore_from(
            self.alloc,
            &self.stack,
            &mut self.eliminated,
            &mut restored,
            false,
        )?;
        self.stack = none;
        Ok(restored)
    }

    /// Restores what the clauses and the literals name, or all variables if none is to be kept. Returns their clauses.
    /// The variables of these, the literals, and what is hinted or expected of the clauses' variables are not eliminated
    /// from now on.
    fn bring_back(
        &mut self,
        formula: &CnfFormula<A>,
        assumed: &[Lit],
        keeps: bool,
    ) -> Result<CnfFormula<A>, FormulaError>
        ensures { IfOk result (λ f. BringsBack formula.now.clauses assumed.now f.clauses self.old self.new) }
    {
        set_hinted_flags(&mut self.frozen, &self.hinted, &self.forecast, formula)?;
        set_flags(&mut self.frozen, assumed)?;
        let is_assumed = clear_flags(&mut self.eliminated, assumed);
        let is_named = clear_all_flags(&mut self.eliminated, formula);
        if keeps && !is_assumed && !is_named {
            return Ok(CnfFormula::new_in(self.alloc));
        }
        let restored = self.restore(keeps)?;
        set_all_flags(&mut self.frozen, &restored)?;
        Ok(restored)
    }

    /// Puts the clauses on the stack, and flags the variables of their first literals.
    fn save(&mut self, saved: &ClauseList<A>) -> Result<(), AllocError>
        ensures { OnOk result (Saves saved.now self.old self.new) }
    {
        self.eliminations = self.eliminations.saturating_add(count_leads(saved));
        self.stack.reserve(saved.len(), saved.literal_count())?;
        for place in 0..saved.len() {
            let clause = saved.clause(place);
            flag_first(&mut self.eliminated, clause)?;
            self.stack.push(clause)?;
        }
        Ok(())
    }

    /// Returns what is left of the clauses once variables are eliminated that are not frozen. Few clauses stay as they
    /// are.
    fn reduce(&mut self, formula: CnfFormula<A>) -> Result<CnfFormula<A>, FormulaError>
        ensures { IfOk result (λ f. Reduces formula.clauses f.clauses self.old self.new) }
    {
        let literals = literals_in(&formula);
        if !self.is_worth(literals) {
            return Ok(formula);
        }
        let limits = Limits::of_batch(literals);
        let made = simplify_with(self.alloc, formula, &self.frozen, limits, true)?;
        drop(made.history);
        self.save(&made.stack)?;
        Ok(made.formula)
    }

    /// Returns what is left of the clauses once variables are eliminated that are not frozen. The variables of what is
    /// left are not eliminated from now on.
    fn take_rest(&mut self, formula: CnfFormula<A>) -> Result<CnfFormula<A>, FormulaError>
        ensures { IfOk result (λ f. TakesRest formula.clauses f.clauses self.old self.new) }
    {
        let left = self.reduce(formula)?;
        set_all_flags(&mut self.frozen, &left)?;
        Ok(left)
    }

    /// Counts the literals that the solver is given.
    fn count_given(&mut self, given: &CnfFormula<A>)
        ensures { self.new ≡ self.old }
    {
        self.given = self.given.saturating_add(literals_in(given));
    }

    /// Notes which variables the clauses and the literals name.
    fn note_named(&mut self, formula: &CnfFormula<A>, assumed: &[Lit])
        ensures { self.new ≡ self.old }
    {
        let is_batch = self.is_worth(literals_in(formula));
        self.forecast.note(assumed);
        self.forecast.note_clauses(formula, is_batch);
    }

    /// Takes more clauses, and literals that are to be assumed. Returns the clauses that a solver is to be given: those
    /// of eliminated variables that are named again, and what is left of the others.
    pub fn take(
        &mut self,
        formula: CnfFormula<A>,
        assumed: &[Lit],
    ) -> Result<CnfFormula<A>, FormulaError>
        ensures { IfOk result (λ f. Takes formula.clauses assumed.now f.clauses self.old self.new) }
    {
        let keeps = self.keeps_stack();
        self.note_named(&formula, assumed);
        let mut given = self.bring_back(&formula, assumed, keeps)?;
        let left = self.take_rest(formula)?;
        append(&mut given, &left)?;
        drop(left);
        self.count_given(&given);
        Ok(given)
    }

    /// Whether the clauses are a batch that is worth a simplification.
    pub fn is_batch(&self, formula: &CnfFormula<A>) -> bool {
        self.is_worth(literals_in(formula))
    }

    /// Begins to simplify more clauses in parts, with literals that are to be assumed. Until the batch ends nothing else may be
    /// taken.
    pub fn begin(
        &mut self,
        formula: CnfFormula<A>,
        assumed: &[Lit],
    ) -> Result<Batch<A>, FormulaError>
        ensures { IfOk result (λ o. BeginsBatch formula o self.old self.new) }
    {
        let keeps = self.keeps_stack();
        self.note_named(&formula, assumed);
        let restored = self.bring_back(&formula, assumed, keeps)?;
        let limits = Limits::of_batch(literals_in(&formula));
        let simplification = Simplification::begin(
            self.alloc,
            formula,
            &self.frozen,
            limits,
            true,
        )?;
        Ok(Batch {
            restored,
            simplification,
        })
    }

    /// Ends the simplification of a batch. Adds to the others the clauses that a solver is to be given: those that were
    /// restored as it was begun, and what is left of its own.
    pub fn end(&mut self, batch: Batch<A>, given: &mut CnfFormula<A>) -> Result<(), FormulaError>
        ensures { OnOk result (EndsBatch batch given.old.clauses given.new.clauses self.old self.new) }
    {
        let Batch {
            restored,
            simplification,
        } = batch;
        let made = simplification.end()?;
        drop(made.history);
        self.save(&made.stack)?;
        set_all_flags(&mut self.frozen, &made.formula)?;
        append(given, &restored)?;
        append(given, &made.formula)?;
        self.count_given(&restored);
        self.count_given(&made.formula);
        Ok(())
    }

    /// Makes of values that satisfy the clauses that were returned values that satisfy those that were taken.
    pub fn extend_model(&self, values: &mut [bool])
        ensures { values.new ≡ extended self.now.stack values.old }
    {
        extend(&self.stack, values);
    }
}
