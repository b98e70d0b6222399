//! Clauses that are simplified before a solver is given them.
ghost use Rattle.std.specs.Prelude.{◌≡◌, ◌≤◌, ◌^◌, IfOk, OnOk};
ghost use Rattle.varisat_rules.specs.promises.Stacks.{extended, KeepsFrozen};
ghost use Rattle.varisat_simplify.specs.promises.Simplified.{IsMadeOf};
ghost use Rattle.varisat_formula.specs.promises.Values.{model_values};
ghost use Rattle.varisat_calls.specs.Lists.{value_numbers};
ghost use Rattle.varisat_calls.specs.Simplifiers.{AreNoLonger};

use crate::codes::{DONE, NOTHING, OUT_OF_MEMORY, TOO_LATE, VARIABLE_LIMIT, WRONG};
use crate::given::GivenClauses;
use crate::lists::{are_in_range, flag, list_clauses, list_values};
use crate::numbers::read_numbers;
use std::alloc::{AllocError, Allocator};
use std::marker::Model;
use varisat_formula::formula::cnf::{CnfFormula, FormulaError};
use varisat_formula::values::values_of;
use varisat_literals::{Lit, Var};
use varisat_simplify::clauses::ClauseList;
use varisat_simplify::simplify::{Simplified, simplify};
use varisat_simplify::stack::extend;

/// The same clauses.
fn copy_of<A: Allocator + Copy>(
    alloc: A,
    formula: &CnfFormula<A>,
) -> Result<CnfFormula<A>, FormulaError>
    ensures { IfOk result (λ g. g.clauses ≡ formula.now.clauses) }
{
    let mut copy = CnfFormula::new_in(alloc);
    for clause in formula.iter() {
        copy.add_clause(clause)?;
    }
    Ok(copy)
}

/// What is made of the formula, which stays: where memory runs out the caller still has it.
fn simplified<A: Allocator + Copy>(
    alloc: A,
    formula: &CnfFormula<A>,
    frozen: &[bool],
) -> Result<Simplified<A>, FormulaError>
    ensures made { IfOk result (λ s. IsMadeOf formula.now s.formula s.stack s.history.lines) }
    ensures frozen { IfOk result (λ s. KeepsFrozen frozen.now s.stack) }
    ensures shorter { IfOk result (λ s. AreNoLonger s.formula.clauses formula.now.clauses) }
{
    let copy = copy_of(alloc, formula)?;
    let made = simplify(alloc, copy, frozen)?;
    Ok(made)
}

/// The values of so many variables that are made of a model of what is left.
fn extended<A: Allocator + Copy>(
    alloc: A,
    count: usize,
    stack: &ClauseList<A>,
    literals: &[Lit],
) -> Result<Vec<bool, A>, AllocError>
    ensures { IfOk result (λ values. values.items ≡ extended stack.now (model_values count literals.now)) }
{
    let mut values = values_of(alloc, count, literals)?;
    extend(stack, &mut values);
    Ok(values)
}

/// Lists these values.
fn list_extended<A: Allocator + Copy>(
    alloc: A,
    count: usize,
    stack: &ClauseList<A>,
    literals: &[Lit],
    list: &mut Vec<i32, A>,
) -> Result<(), AllocError>
    requires { count ≤ 2 ^ 31 }
    ensures { OnOk result (list.new.items ≡ value_numbers (extended stack.now (model_values count literals.now))) }
{
    let values = extended(alloc, count, stack, literals)?;
    list_values(alloc, list, &values)?;
    Ok(())
}

/// Clauses that are given, and then simplified once.
#[derive(Drop)]
pub struct Simplifier<A: Allocator + Copy> {
    alloc: A,
    // The clauses given, and those left once they are simplified.
    formula: CnfFormula<A>,
    frozen: Vec<bool, A>,
    // By which models are extended, once the clauses are simplified: then these are the clauses given and the count of
    // their variables.
    stack: Option<ClauseList<A>>,
    given: GivenClauses,
    var_count: usize,
    // The literals of the clause or the model that is given.
    literals: Vec<Lit, A>,
    // The list that was asked for last.
    list: Vec<i32, A>,
}

impl<A: Allocator + Copy> Model for Simplifier<A> {
    ghost use Rattle.std.specs.Prelude.{IfSome};
    ghost use Rattle.varisat_calls.specs.Simplifiers as simplifiers;
    ghost use Rattle.varisat_calls.specs.Simplifiers.{given_of, made_of, SimplifiesFormula};

    ghost Value = { simplifiers.Simplifier };

    ghost view = { λ c. record {
      given = given_of c.stack c.formula c.var_count c.given.clauses;
      frozen = c.frozen.items;
      made = made_of c.stack c.formula;
      list = c.list.items;
    } };

    ghost invariant = { λ c.
        IfSome (made_of c.stack c.formula)
        (SimplifiesFormula (given_of c.stack c.formula c.var_count c.given.clauses) c.frozen.items) };
}

impl<A: Allocator + Copy> Simplifier<A> {
    ghost use Rattle.varisat_calls.specs.Simplifiers.{nothing_given, Adds, Freezes, Simplifies, ListsClauses, Extends};

    /// A simplifier without clauses. It takes no memory.
    pub fn new_in(alloc: A) -> Simplifier<A>
        ensures { result ≡ nothing_given }
    {
        let formula = CnfFormula::new_in(alloc);
        let given = GivenClauses::of(&formula.iter());
        Simplifier {
            alloc,
            formula,
            frozen: Vec::new(alloc),
            stack: None,
            given,
            var_count: 0,
            literals: Vec::new(alloc),
            list: Vec::new(alloc),
        }
    }

    /// Takes the clause of these numbers.
    pub fn add_clause(&mut self, numbers: &[i32]) -> u8
        ensures { Adds numbers.now self.old result self.new }
    {
        if self.stack.is_some() {
            return TOO_LATE;
        }
        match read_numbers(&mut self.literals, numbers) {
            Ok(true) => {}
            Ok(false) => return WRONG,
            Err(_) => return OUT_OF_MEMORY,
        }
        if !are_in_range(&self.literals) {
            return VARIABLE_LIMIT;
        }
        match self.formula.add_clause(&self.literals) {
            Ok(()) => DONE,
            Err(_) => OUT_OF_MEMORY,
        }
    }

    /// Freezes the variable: it is not resolved away, and no extension changes its value.
    pub fn freeze(&mut self, variable: i32) -> u8
        ensures { Freezes variable self.old result self.new }
    {
        if self.stack.is_some() {
            return TOO_LATE;
        }
        if variable < 1 {
            return WRONG;
        }
        let var = Var::from_dimacs(variable as isize);
        if var.index() >= Var::max_count() {
            return VARIABLE_LIMIT;
        }
        match flag(&mut self.frozen, var.index()) {
            Ok(()) => DONE,
            Err(_) => OUT_OF_MEMORY,
        }
    }

    /// Simplifies the clauses that were given.
    pub fn simplify(&mut self) -> u8
        ensures { Simplifies self.old result self.new }
    {
        if self.stack.is_some() {
            return TOO_LATE;
        }
        match simplified(self.alloc, &self.formula, &self.frozen) {
            Ok(Simplified { formula, stack, .. }) => {
                self.given = GivenClauses::of(&self.formula.iter());
                self.var_count = self.formula.var_count();
                self.formula = formula;
                self.stack = Some(stack);
                DONE
            }
            Err(_) => OUT_OF_MEMORY,
        }
    }

    /// Lists the clauses that are left, each ended by a 0.
    pub fn clauses(&mut self) -> u8
        ensures { ListsClauses self.old result self.new }
    {
        if self.stack.is_none() {
            return NOTHING;
        }
        match list_clauses(self.alloc, &mut self.list, &self.formula) {
            Ok(()) => DONE,
            Err(_) => OUT_OF_MEMORY,
        }
    }

    /// Lists values of all variables up to the highest that was given, by a model of the clauses that are left.
    pub fn extend(&mut self, numbers: &[i32]) -> u8
        ensures { Extends numbers.now self.old result self.new }
    {
        match read_numbers(&mut self.literals, numbers) {
            Ok(true) => {}
            Ok(false) => return WRONG,
            Err(_) => return OUT_OF_MEMORY,
        }
        let Some(stack) = &self.stack else {
            return NOTHING;
        };
        match list_extended(
            self.alloc,
            self.var_count,
            stack,
            &self.literals,
            &mut self.list,
        ) {
            Ok(()) => DONE,
            Err(_) => OUT_OF_MEMORY,
        }
    }

    /// The list that was asked for last.
    pub fn list(&self) -> &[i32]
        ensures { result.now ≡ self.now.list }
    {
        &self.list
    }
}
