//! Problems.
ghost use Rattle.std.specs.Prelude.{◌≡◌, ◌++◌, max, OnOk, IfErr, IfSome, IfNone, MatchResult, ◌≤◌, ◌^◌, length, map, if◌then◌else◌};
ghost use Rattle.varisat_formula.specs.promises.Formulas.{AreBelow, variables_of};
ghost use Rattle.varisat_formula.specs.declared.formula.cnf.FormulaError.TheVariants.{Memory};
ghost use Rattle.varisat_formula.specs.promises.Values.{assignment_of, is_satisfied};
ghost use Rattle.varisat_maxsat.specs.promises.Problems.{Problem as Asked, Soft, starting, with_var_count, paired, with_hard, with_soft, cost};
ghost use Rattle.varisat_maxsat.specs.inside.Errors.{IsLimit};
ghost use Rattle.varisat_maxsat.specs.inside.Reductions.{ReducesTo};

use crate::reduction::Reduction;
use crate::refusal::MaxSatError;
use std::alloc::Allocator;
use std::marker::Model;
use varisat_formula::formula::{CnfFormula, FormulaError};
use varisat_formula::values::is_satisfied;
use varisat_literals::Lit;

/// Hard clauses, which must be satisfied, and soft clauses, each with the weight that it costs not to satisfy it.
#[derive(Drop)]
pub struct Problem<A: Allocator + Copy> {
    hard: CnfFormula<A>,
    soft: CnfFormula<A>,
    weights: Vec<u64, A>,
}

impl<A: Allocator + Copy> Model for Problem<A> {
    ghost use Rattle.std.specs.Prelude.{◌≡◌, max, length};
    ghost use Rattle.varisat_maxsat.specs.promises.Problems as problems;

    ghost Value = { problems.Problem };

    ghost view = { λ p. problems.problem_of (max p.hard.var_count p.soft.var_count) p.hard.clauses
        (problems.paired p.weights.items p.soft.clauses) };

    ghost invariant = { λ p. length p.weights.items ≡ length p.soft.clauses };
}

/// Adds the clauses to a problem that is brought down.
fn add_all_hard<A: Allocator + Copy>(
    reduction: &mut Reduction<A>,
    formula: &CnfFormula<A>,
) -> Result<(), MaxSatError>
    ensures { MatchResult result
        (λ _. (p : Asked) → ReducesTo p reduction.old →
        ReducesTo (record p { hard = p.hard ++ formula.now.clauses }) reduction.new) IsLimit }
{
    for clause in formula.iter() {
        reduction.add_hard(clause)?;
    }
    Ok(())
}

/// Adds the clauses with their weights to a problem that is brought down.
fn add_all_soft<A: Allocator + Copy>(
    reduction: &mut Reduction<A>,
    formula: &CnfFormula<A>,
    weights: &[u64],
) -> Result<(), MaxSatError>
    requires { length weights.now ≡ length formula.now.clauses }
    ensures { MatchResult result
        (λ _. (p : Asked) → ReducesTo p reduction.old →
        ReducesTo (record p { soft = p.soft ++ paired weights.now formula.now.clauses }) reduction.new) IsLimit }
{
    let mut index = 0;
    for clause in formula.iter() {
        reduction.add_soft(weights[index], clause)?;
        index += 1;
    }
    Ok(())
}

/// The weight of a clause that is not satisfied, else 0.
fn missed(values: &[bool], weight: u64, clause: &[Lit]) -> u64
    ensures { result ≡ (if is_satisfied (assignment_of values.now) clause.now then 0 else weight) }
{
    if is_satisfied(values, clause) {
        0
    } else {
        weight
    }
}

/// The sum of the weights of the clauses that are not satisfied, if it is below 2^64.
fn cost_of<A: Allocator + Copy>(
    formula: &CnfFormula<A>,
    weights: &[u64],
    values: &[bool],
) -> Option<u64>
    requires { length weights.now ≡ length formula.now.clauses }
    ensures some { IfSome result
        (λ sum. sum ≡ cost (assignment_of values.now) (paired weights.now formula.now.clauses)) }
    ensures none { IfNone result
        (2 ^ 64 ≤ cost (assignment_of values.now) (paired weights.now formula.now.clauses)) }
{
    let mut sum: u64 = 0;
    let mut index = 0;
    for clause in formula.iter() {
        sum = sum.checked_add(missed(values, weights[index], clause))?;
        index += 1;
    }
    Some(sum)
}

impl<A: Allocator + Copy> Problem<A> {
    /// A problem without clauses and variables. It takes no memory.
    pub fn new_in(alloc: A) -> Problem<A>
        ensures { result ≡ starting 0 }
    {
        Problem {
            hard: CnfFormula::new_in(alloc),
            soft: CnfFormula::new_in(alloc),
            weights: Vec::new(alloc),
        }
    }

    /// How many variables there are: at least as many as the clauses' literals need, and at most 2^31.
    pub fn var_count(&self) -> usize
        ensures count { result ≡ self.now.variables }
        ensures below { AreBelow result self.now.hard × AreBelow result (map (λ (s : Soft). s.clause) self.now.soft) }
        ensures small { result ≤ 2 ^ 31 }
    {
        self.hard.var_count().max(self.soft.var_count())
    }

    /// Raises the count of variables to the given one, and never lowers it.
    pub fn set_var_count(&mut self, count: usize)
        requires { count ≤ 2 ^ 31 }
        ensures { self.new ≡ with_var_count count self.old }
    {
        self.hard.set_var_count(count);
    }

    /// Takes a hard clause. An error comes where there is no memory for it, and then nothing changes.
    pub fn add_hard(&mut self, clause: &[Lit]) -> Result<(), FormulaError>
        ensures ok { OnOk result
            (self.new ≡ with_hard clause.now (with_var_count (variables_of clause.now) self.old)) }
        ensures refused { IfErr result (λ e. (e ≡ Memory) × (self.new ≡ self.old)) }
    {
        self.hard.add_clause(clause)?;
        Ok(())
    }

    /// Takes a soft clause with its weight. An error comes where there is no memory for it, and then nothing changes.
    pub fn add_soft(&mut self, weight: u64, clause: &[Lit]) -> Result<(), FormulaError>
        ensures ok { OnOk result
            (self.new ≡ with_soft weight clause.now (with_var_count (variables_of clause.now) self.old)) }
        ensures refused { IfErr result (λ e. (e ≡ Memory) × (self.new ≡ self.old)) }
    {
        self.weights.reserve(1)?;
        self.soft.add_clause(clause)?;
        self.weights.push_reserved(weight);
        Ok(())
    }

    /// What the values cost, if it is below 2^64.
    pub fn cost(&self, values: &[bool]) -> Option<u64>
        ensures some { IfSome result (λ sum. cost (assignment_of values.now) self.now.soft ≡ sum) }
        ensures none { IfNone result (2 ^ 64 ≤ cost (assignment_of values.now) self.now.soft) }
    {
        let sum = cost_of(&self.soft, &self.weights, values)?;
        Some(sum)
    }

    /// Brings the problem down.
    pub(crate) fn reduce(&self, reduction: &mut Reduction<A>) -> Result<(), MaxSatError>
        ensures { MatchResult result
            (λ _. ReducesTo (starting self.now.variables) reduction.old → ReducesTo self.now reduction.new) IsLimit }
    {
        add_all_hard(reduction, &self.hard)?;
        add_all_soft(reduction, &self.soft, &self.weights)?;
        Ok(())
    }
}
