//! The simplification of a formula.
ghost use Rattle.varisat_theory.specs.promises.Literals.{Assignment, SatisfiesAll};
ghost use Rattle.std.specs.Prelude.{◌≡◌, ◌⊎◌, ℕ, Bool, List, ◌-◌, ◌/◌, ◌<◌, ◌≤◌, ◌^◌, true, min, length, take, OnOk, IfOk, IfErr, IsTrue};
ghost use Rattle.varisat_formula.specs.declared.formula.cnf.FormulaError.TheVariants.{Memory};
ghost use Rattle.varisat_formula.specs.promises.Formulas.{Formula, AllBelow, AreBelow};
ghost use Rattle.varisat_database.specs.Databases.{no_clauses};
ghost use Rattle.varisat_rules.specs.inside.States.{live_clauses, IsLaterState};
ghost use Rattle.varisat_simplify.specs.inside.Loading.{IsLoaded};
ghost use Rattle.varisat_rules.specs.promises.Stacks.{extended, KeepsFrozen};
ghost use Rattle.varisat_simplify.specs.promises.Simplified.{formula_over, literal_count, IsShorter, Finishes, IsReduced, IsMadeOf};
ghost use Rattle.varisat_theory.specs.promises.Held.{SameClauses};

use crate::eliminate::{Scratch, eliminate};
use crate::equate::equate;
pub use crate::limits::Limits;
use crate::normal::{MOST_SHORT, is_normal, normalize};
use crate::propagate::propagate;
use crate::subsume::subsume_from;
use std::alloc::{AllocError, Allocator};
use std::marker::Model;
use varisat_database::clauses::ClauseList;
use varisat_database::database::{Database, filled, literals_in};
use varisat_database::history::History;
use varisat_database::names::ShortNames;
use varisat_formula::formula::cnf::{CnfFormula, FormulaError};
use varisat_literals::{Lit, Var};
use varisat_rules::stack::extend;

/// How often the variables are gone through at most.
const MOST_ROUNDS: usize = 20;

/// Into how many parts the variables of a round are cut, each of at least `LEAST_PART` variables.
const MOST_PARTS: usize = 16;

const LEAST_PART: usize = 512;

/// A simplified formula, with what extends its models.
#[derive(Drop)]
pub struct Simplified<A: Allocator + Copy> {
    /// The formula.
    pub formula: CnfFormula<A>,
    /// By which its models are extended.
    pub stack: ClauseList<A>,
    /// The lines of a proof that leads to the formula: no longer needed where none is wanted.
    pub history: History<A>,
}

impl<A: Allocator + Copy> Simplified<A> {
    /// Makes of values that satisfy this formula values that satisfy the one that it was made of.
    pub fn extend_model(&self, values: &mut [bool])
        ensures { values.new ≡ extended self.now.stack values.old }
    {
        extend(&self.stack, values);
    }
}

/// The count, or one that has the literal's variable too.
fn raised_by(count: usize, lit: Lit) -> usize
    requires { count ≤ 2 ^ 31 }
    ensures below { (lit / 2 < result) × (count ≤ result) }
    ensures least { (n : ℕ) → lit / 2 < n → count ≤ n → result ≤ n }
    ensures small { result ≤ 2 ^ 31 }
{
    if lit.index() >= count {
        lit.index() + 1
    } else {
        count
    }
}

/// The same of each literal of a clause.
fn raised(count: usize, clause: &[Lit]) -> usize
    requires { count ≤ 2 ^ 31 }
    ensures below { AllBelow result clause.now × (count ≤ result) }
    ensures least { (n : ℕ) → AllBelow n clause.now → count ≤ n → result ≤ n }
    ensures small { result ≤ 2 ^ 31 }
{
    let mut most = count;
    for lit in clause {
        most = raised_by(most, *lit);
    }
    most
}

/// How many variables there are up to the highest that the clauses name. A text's head may name many more.
fn named_count<A: Allocator + Copy>(formula: &CnfFormula<A>) -> usize
    ensures below { AreBelow result formula.now.clauses }
    ensures least { (n : ℕ) → AreBelow n formula.now.clauses → result ≤ n }
    ensures small { result ≤ 2 ^ 31 }
{
    let mut most: usize = 0;
    for clause in formula.iter() {
        most = raised(most, clause);
    }
    most
}

/// Loads the clauses of a formula, and removes tautologies.
fn load<A: Allocator + Copy>(
    db: &mut Database<A>,
    formula: &CnfFormula<A>,
    scratch: &mut Scratch<A>,
) -> Result<(), AllocError>
    requires { db.old ≡ no_clauses db.old.var_count db.old.frozen db.old.saves_both }
    ensures { OnOk result (IsLoaded formula.now.clauses db.old.var_count db.old.frozen db.old.saves_both db.new) }
{
    db.reserve_for(formula)?;
    for clause in formula.iter() {
        if is_normal(clause, db.names(), &mut scratch.positions) {
            db.give(clause)?;
        } else if normalize(
            clause,
            db.names(),
            &mut scratch.positions,
            &mut scratch.literals,
        )? {
            db.give(&scratch.literals)?;
        } else {
            let place = db.len();
            db.give(clause)?;
            db.remove(place)?;
        }
    }
    Ok(())
}

/// The cost of the variable, in front of it.
fn key_of<A: Allocator + Copy>(db: &Database<A>, var: Var) -> u64 {
    let cost = db
        .count(var.positive())
        .saturating_mul(db.count(var.negative()))
        .min(0xffff_ffff);
    (cost as u64) * 0x1_0000_0000 + (var.index() as u64)
}

/// Whether a live clause has the variable.
fn is_in_clause<A: Allocator + Copy>(db: &Database<A>, var: Var) -> bool {
    db.count(var.positive()) != 0 || db.count(var.negative()) != 0
}

/// The variables whose clauses changed, by their costs, but for those that are gone or may not go.
fn candidates<A: Allocator + Copy>(
    db: &mut Database<A>,
    out: &mut Vec<u64, A>,
) -> Result<(), AllocError>
    ensures { db.new ≡ db.old }
{
    out.clear();
    let most = db.var_count();
    for _ in 0..most {
        let Some(var) = db.take_touched() else {
            break;
        };
        if is_in_clause(db, var) && !db.is_frozen(var.positive()) {
            out.push(key_of(db, var))?;
        }
    }
    out.as_mut_slice().sort_unstable();
    Ok(())
}

/// Tries the variables in turn until the part's work is done. Returns how many it tried, and the place of the first clause
/// that was not used on others.
fn eliminate_all<A: Allocator + Copy>(
    db: &mut Database<A>,
    order: &[u64],
    first: usize,
    limits: &mut Limits,
    scratch: &mut Scratch<A>,
) -> Result<(usize, usize), AllocError>
    ensures { OnOk result (IsLaterState db.old db.new) }
{
    let mut place = first;
    let mut tried: usize = 0;
    for key in order {
        if limits.is_part_done() {
            return Ok((tried, place));
        }
        let var = Var::from_index((*key % 0x8000_0000) as usize);
        if eliminate(db, var, limits, scratch)? {
            place = subsume_from(db, place, limits, scratch)?;
        }
        tried = tried.saturating_add(1);
    }
    Ok((tried, place))
}

/// How far the rounds came in which variables are eliminated.
#[derive(Drop)]
struct Rounds<A: Allocator + Copy> {
    // The variables of this round, by their costs, how many of them were tried, and how many are to be tried before the
    // literals are counted again.
    order: Vec<u64, A>,
    tried: usize,
    end: usize,
    // How many rounds may still begin.
    left: usize,
    // The place of the first clause that was not used on others.
    place: usize,
    // How many literals there were when they were counted last.
    literals: usize,
}

impl<A: Allocator + Copy> Rounds<A> {
    /// No round was begun. It takes no memory.
    fn new_in(alloc: A) -> Rounds<A> {
        Rounds {
            order: Vec::new(alloc),
            tried: 0,
            end: 0,
            left: MOST_ROUNDS,
            place: 0,
            literals: 0,
        }
    }

    /// Sets after how many variables the literals are counted again.
    fn move_end(&mut self) {
        let length = (self.order.len() / MOST_PARTS).max(LEAST_PART);
        self.end = self.tried.saturating_add(length).min(self.order.len());
    }

    /// Counts the literals, if the limits say that a simplification ends without gain. Returns whether they became fewer, or were
    /// not counted.
    fn is_gain(&mut self, db: &Database<A>, limits: &Limits) -> bool {
        if !limits.ends_without_gain {
            return true;
        }
        let before = self.literals;
        self.literals = live_literals(db);
        self.literals < before
    }

    /// Begins a round with the variables whose clauses changed. Returns whether there is one.
    fn begin_round(&mut self, db: &mut Database<A>, limits: &Limits) -> Result<bool, AllocError>
        ensures { db.new ≡ db.old }
    {
        if self.left == 0 {
            return Ok(false);
        }
        self.left -= 1;
        candidates(db, &mut self.order)?;
        self.is_gain(db, limits);
        self.tried = 0;
        self.move_end();
        Ok(!self.order.is_empty())
    }

    /// Tries variables until the part's work is done, or the literals are to be counted again.
    fn try_some(
        &mut self,
        db: &mut Database<A>,
        limits: &mut Limits,
        scratch: &mut Scratch<A>,
    ) -> Result<(), AllocError>
        ensures { OnOk result (IsLaterState db.old db.new) }
    {
        let end = self.end.min(self.order.len());
        let start = self.tried.min(end);
        let (tried, place) = eliminate_all(
            db,
            &self.order[start..end],
            self.place,
            limits,
            scratch,
        )?;
        self.tried = start.saturating_add(tried);
        self.place = place;
        Ok(())
    }

    /// Goes on until the part's work is done, a round begins, or the literals were counted again. Returns whether more is left
    /// to do: nothing is once no variable is left whose clauses changed, as many rounds began as may, or a part of the variables
    /// was no gain.
    fn go_on(
        &mut self,
        db: &mut Database<A>,
        limits: &mut Limits,
        scratch: &mut Scratch<A>,
    ) -> Result<bool, AllocError>
        ensures { OnOk result (IsLaterState db.old db.new) }
    {
        self.place = subsume_from(db, self.place, limits, scratch)?;
        if limits.is_part_done() {
            return Ok(true);
        }
        if self.tried >= self.order.len() {
            let is_begun = self.begin_round(db, limits)?;
            return Ok(is_begun);
        }
        self.try_some(db, limits, scratch)?;
        if self.tried < self.end {
            return Ok(true);
        }
        self.move_end();
        Ok(self.is_gain(db, limits))
    }
}

/// Finds equal and failed literals, if the limits say so, and then lets eliminations add literals as long as the
/// formula is one of 20 shorter than the given literals. Returns the place of the first clause that was not used on
/// others.
fn find_equal<A: Allocator + Copy>(
    db: &mut Database<A>,
    alloc: A,
    given: usize,
    first: usize,
    limits: &mut Limits,
    scratch: &mut Scratch<A>,
) -> Result<usize, AllocError>
    ensures { OnOk result (IsLaterState db.old db.new) }
{
    if limits.visits == 0 {
        return Ok(first);
    }
    limits.begin_part(u64::MAX);
    let place = equate(db, alloc, first, limits, scratch)?;
    limits.room = (given - given / 20).saturating_sub(live_literals(db)) as u64;
    Ok(place)
}

/// The live clauses.
fn unload<A: Allocator + Copy>(db: &Database<A>, alloc: A) -> Result<CnfFormula<A>, FormulaError>
    ensures lists { IfOk result (λ f. f ≡ formula_over db.now.var_count (live_clauses db.now)) }
    ensures memory { IfErr result (λ e. e ≡ Memory) }
{
    let mut formula = CnfFormula::new_in(alloc);
    formula.set_var_count(db.var_count());
    for place in 0..db.len() {
        if db.is_live(place) {
            formula.add_clause(db.clause(place))?;
        }
    }
    Ok(formula)
}

/// The clauses at the first places, live or not.
fn unload_first<A: Allocator + Copy>(
    db: &Database<A>,
    alloc: A,
    count: usize,
) -> Result<CnfFormula<A>, FormulaError>
    requires { count ≤ length db.now.clauses }
    ensures first { IfOk result (λ f. f ≡ formula_over db.now.var_count (take count db.now.clauses)) }
    ensures memory { IfErr result (λ e. e ≡ Memory) }
{
    let mut formula = CnfFormula::new_in(alloc);
    formula.set_var_count(db.var_count());
    for place in 0..count {
        formula.add_clause(db.clause(place))?;
    }
    Ok(formula)
}

/// How many literals the clauses at the first places have, live or not.
fn first_literals<A: Allocator + Copy>(db: &Database<A>, count: usize) -> usize
    requires { count ≤ length db.now.clauses }
    ensures { result ≡ min (literal_count (take count db.now.clauses)) (2 ^ 64 - 1) }
{
    let mut sum: usize = 0;
    for place in 0..count {
        sum = sum.saturating_add(db.clause(place).len());
    }
    sum
}

/// How many literals the live clauses have.
fn live_literals<A: Allocator + Copy>(db: &Database<A>) -> usize
    ensures { result ≡ min (literal_count (live_clauses db.now)) (2 ^ 64 - 1) }
{
    let mut sum: usize = 0;
    for place in 0..db.len() {
        if db.is_live(place) {
            sum = sum.saturating_add(db.clause(place).len());
        }
    }
    sum
}

/// Whether the live clauses have at least one of 20 literals fewer, rounded down, than the clauses at the first places.
fn is_shorter<A: Allocator + Copy>(db: &Database<A>, count: usize) -> bool
    requires { count ≤ length db.now.clauses }
    ensures { IsTrue result → IsShorter (live_clauses db.now) (take count db.now.clauses) }
{
    let before = first_literals(db, count);
    live_literals(db) <= before - before / 20
}

/// What was loaded, as it is.
fn stay<A: Allocator + Copy>(
    alloc: A,
    db: &Database<A>,
    count: usize,
) -> Result<Simplified<A>, FormulaError>
    requires { count ≤ length db.now.clauses }
    ensures made { IfOk result (λ s. Finishes db.now count s.formula s.stack s.history.lines) }
    ensures memory { IfErr result (λ e. e ≡ Memory) }
{
    let formula = unload_first(db, alloc, count)?;
    Ok(Simplified {
        formula,
        stack: ClauseList::new_in(alloc),
        history: History::new_in(alloc),
    })
}

/// What is left. Only the stack and the history live on, so that no error has more to give back.
fn hand_out<A: Allocator + Copy>(
    alloc: A,
    db: Database<A>,
    count: usize,
) -> Result<Simplified<A>, FormulaError>
    requires { IsShorter (live_clauses db) (take count db.clauses) }
    ensures made { IfOk result (λ s. Finishes db count s.formula s.stack s.history.lines) }
    ensures memory { IfErr result (λ e. e ≡ Memory) }
{
    let formula = unload(&db, alloc);
    let (stack, history) = db.into_parts();
    let formula = formula?;
    Ok(Simplified {
        formula,
        stack,
        history,
    })
}

/// What is left, or what was loaded if that is hardly longer: a search of clauses that were only made others takes
/// longer as often as not.
fn finish<A: Allocator + Copy>(
    alloc: A,
    db: Database<A>,
    count: usize,
) -> Result<Simplified<A>, FormulaError>
    requires { count ≤ length db.clauses }
    ensures made { IfOk result (λ s. Finishes db count s.formula s.stack s.history.lines) }
    ensures memory { IfErr result (λ e. e ≡ Memory) }
{
    if is_shorter(&db, count) {
        return hand_out(alloc, db, count);
    }
    stay(alloc, &db, count)
}

/// Room for a position of each short name, if a clause is long enough that its variables' positions are noted.
fn positions_for<A: Allocator + Copy>(
    alloc: A,
    formula: &CnfFormula<A>,
    names: &ShortNames<A>,
) -> Result<Vec<u32, A>, AllocError> {
    for clause in formula.iter() {
        if clause.len() > MOST_SHORT {
            return filled(alloc, names.len(), 0u32);
        }
    }
    Ok(Vec::new(alloc))
}

/// What is done next.
#[derive(Clone, Copy)]
enum Stage {
    // Clauses of one literal are used on the others.
    Propagation,
    // The places of clauses are listed by their literals.
    Listing,
    // Each clause is used on the others.
    Subsumption,
    // Equal and failed literals are found.
    Equation,
    // Variables are eliminated.
    Elimination,
}

/// A simplification that is done in parts. What was not done yet stays as it is.
#[derive(Drop)]
pub struct Simplification<A: Allocator + Copy> {
    alloc: A,
    db: Database<A>,
    // How many clauses were loaded: those at the first places. How many literals they have.
    count: usize,
    given: usize,
    stage: Stage,
    rounds: Rounds<A>,
    limits: Limits,
    scratch: Scratch<A>,
}

impl<A: Allocator + Copy> Model for Simplification<A> {
    ghost use Rattle.varisat_simplify.specs.inside.Parts as parts;

    ghost Value = { parts.Simplification };

    ghost view = { λ s. record { database = s.db; loaded = s.count } };
}

/// Does what is next, and returns what is then, and whether more is left to do.
fn advance<A: Allocator + Copy>(
    alloc: A,
    db: &mut Database<A>,
    given: usize,
    stage: Stage,
    rounds: &mut Rounds<A>,
    limits: &mut Limits,
    scratch: &mut Scratch<A>,
) -> Result<(Stage, bool), AllocError>
    ensures { OnOk result (IsLaterState db.old db.new) }
{
    match stage {
        Stage::Propagation => {
            propagate(db, alloc, limits, &mut scratch.literals)?;
            Ok((Stage::Listing, true))
        }
        Stage::Listing => {
            db.list_all()?;
            Ok((Stage::Subsumption, true))
        }
        Stage::Subsumption => {
            rounds.place = subsume_from(db, rounds.place, limits, scratch)?;
            if rounds.place < db.len() {
                return Ok((Stage::Subsumption, true));
            }
            Ok((Stage::Equation, true))
        }
        Stage::Equation => {
            rounds.place = find_equal(db, alloc, given, rounds.place, limits, scratch)?;
            Ok((Stage::Elimination, true))
        }
        Stage::Elimination => {
            let is_more = rounds.go_on(db, limits, scratch)?;
            Ok((Stage::Elimination, is_more))
        }
    }
}

impl<A: Allocator + Copy> Simplification<A> {
    ghost use Rattle.varisat_simplify.specs.inside.Parts.{IsBegunOf, GoesOn, IsSimplified};

    /// Begins to simplify the formula, whose memory is given back. Variables that are flagged in `frozen` are not resolved away.
    /// Where `saves_both` is true, the stack gets the clauses with either literal of an eliminated variable, so that the variable
    /// can be restored with them. The only error is out of memory.
    pub fn begin(
        alloc: A,
        formula: CnfFormula<A>,
        frozen: &[bool],
        limits: Limits,
        saves_both: bool,
    ) -> Result<Simplification<A>, AllocError>
        ensures { IfOk result (λ s. IsBegunOf formula frozen.now saves_both s) }
    {
        let count = named_count(&formula);
        let names = ShortNames::of_formula(alloc, &formula, count, literals_in(&formula))?;
        let positions = positions_for(alloc, &formula, &names)?;
        let mut db = Database::new_in(alloc, count, frozen, saves_both, names)?;
        let mut scratch = Scratch {
            literals: Vec::new(alloc),
            with: Vec::new(alloc),
            against: Vec::new(alloc),
            positions,
        };
        load(&mut db, &formula, &mut scratch)?;
        drop(formula);
        let loaded = db.len();
        let given = db.literal_count();
        Ok(Simplification {
            alloc,
            db,
            count: loaded,
            given,
            stage: Stage::Propagation,
            rounds: Rounds::new_in(alloc),
            limits,
            scratch,
        })
    }

    /// Does a part, which looks at about so many literals, but goes through all clauses if need be. Returns whether more is left
    /// to do. After out of memory nothing is known of what is left.
    pub fn go_on(&mut self, work: u64) -> Result<bool, AllocError>
        ensures { OnOk result (GoesOn self.old self.new) }
    {
        self.limits.begin_part(work);
        let (stage, is_more) = advance(
            self.alloc,
            &mut self.db,
            self.given,
            self.stage,
            &mut self.rounds,
            &mut self.limits,
            &mut self.scratch,
        )?;
        self.stage = stage;
        Ok(is_more)
    }

    /// Does all parts that are left.
    fn complete(&mut self) -> Result<(), AllocError>
        ensures { OnOk result (GoesOn self.old self.new) }
    {
        for _ in 0..u64::MAX {
            if !self.go_on(u64::MAX)? {
                return Ok(());
            }
        }
        Ok(())
    }

    /// Returns what was made of the formula, whatever was done. The only error is out of memory.
    pub fn end(self) -> Result<Simplified<A>, FormulaError>
        ensures made { IfOk result (λ s. (f : Formula) (frozen : List Bool) (both : Bool) →
            IsBegunOf f frozen both self → IsSimplified f frozen both s.formula s.stack s.history.lines) }
        ensures memory { IfErr result (λ e. e ≡ Memory) }
    {
        let Simplification {
            alloc,
            mut db,
            count,
            given: _,
            stage: _,
            rounds,
            limits: _,
            scratch,
        } = self;
        drop(rounds);
        drop(scratch);
        db.unlist();
        // There are fewer clauses only after a part that ran out of memory.
        let loaded = count.min(db.len());
        let made = finish(alloc, db, loaded)?;
        Ok(made)
    }
}

/// Makes a formula that has a model just where the given one has, and whose models are extended to ones of it. It
/// counts the variables up to the highest that the given one names. Variables that are flagged in `frozen` are not
/// resolved away, and no extension changes their values, those of variables that are left, or those of variables that
/// the given one does not name. The clauses stay unless at least one of 20 of their literals, rounded down, would be
/// saved. The given one's memory is given back early. The only error is out of memory.
pub fn simplify<A: Allocator + Copy>(
    alloc: A,
    formula: CnfFormula<A>,
    frozen: &[bool],
) -> Result<Simplified<A>, FormulaError>
    ensures made { IfOk result (λ s. IsMadeOf formula s.formula s.stack s.history.lines) }
    ensures frozen { IfOk result (λ s. KeepsFrozen frozen.now s.stack) }
    ensures shorter { IfOk result (λ s.
        SameClauses s.formula.clauses formula.clauses ⊎ IsShorter s.formula.clauses formula.clauses) }
    ensures memory { IfErr result (λ e. e ≡ Memory) }
{
    let limits = Limits::of_formula(literals_in(&formula));
    let made = simplify_with(alloc, formula, frozen, limits, false)?;
    Ok(made)
}

/// Makes what `simplify` makes, within these limits. Where `saves_both` is true, the stack has the clauses with either
/// literal of an eliminated variable, so that the variable can be restored with them: what satisfies the given formula
/// satisfies the stack. Where it is false, the stack is shorter.
pub fn simplify_with<A: Allocator + Copy>(
    alloc: A,
    formula: CnfFormula<A>,
    frozen: &[bool],
    limits: Limits,
    saves_both: bool,
) -> Result<Simplified<A>, FormulaError>
    ensures made { IfOk result (λ s. IsMadeOf formula s.formula s.stack s.history.lines) }
    ensures frozen { IfOk result (λ s. KeepsFrozen frozen.now s.stack) }
    ensures shorter { IfOk result (λ s.
        SameClauses s.formula.clauses formula.clauses ⊎ IsShorter s.formula.clauses formula.clauses) }
    ensures implied { saves_both ≡ true → IfOk result (λ s.
        (a : Assignment) → SatisfiesAll a formula.clauses → SatisfiesAll a s.stack) }
    ensures memory { IfErr result (λ e. e ≡ Memory) }
{
    let mut simplification = Simplification::begin(alloc, formula, frozen, limits, saves_both)?;
    simplification.complete()?;
    let made = simplification.end()?;
    Ok(made)
}
