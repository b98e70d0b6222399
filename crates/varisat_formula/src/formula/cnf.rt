//! Formulas in conjunctive normal form, and what takes clauses one at a time.
ghost use Rattle.std.specs.Prelude.{◌≡◌, ℕ, List, ◌+◌, ◌∷◌, ◌++◌, [], ◌<◌, ◌≤◌, ◌^◌, max, length, true, map, Result, Ok, Err, OnOk, OnErr, IfOk, IfErr, MatchResult, IsTrue, ◌↔◌};
ghost use Rattle.std.specs.Iterator.{YieldsFirstRef, item_count};
ghost use Rattle.varisat_theory.specs.promises.Literals.{literal_of};
ghost use Rattle.varisat_formula.specs.declared.formula.cnf.FormulaError.TheVariants.{Full, Memory};
ghost use Rattle.varisat_formula.specs.promises.Formulas.{no_clauses, variables_of, with_one_more, with_more, MakesVars, RefusesOneOf, AreBelow};
ghost use Rattle.varisat_formula.specs.inside.Equality.{same_formula, same_laws, same_equivalence};

use std::alloc::{AllocError, Allocator};
use std::marker::Model;
use thiserror::Error;
use varisat_literals::{Lit, Var};

/// Why a formula takes no more.
#[derive(Clone, Copy, Debug, PartialEq, Eq, Error)]
pub enum FormulaError {
    /// It has 2^31 variables.
    #[error("the formula has all variables that there are")]
    Full,
    /// A growth was refused.
    #[error("out of memory")]
    Memory,
}

impl From<AllocError> for FormulaError {
    ghost from_gives = { λ _ e. e ≡ Memory };

    fn from(_error: AllocError) -> FormulaError {
        FormulaError::Memory
    }
}

/// What takes clauses and makes variables.
pub trait ExtendFormula {
    /// Why a call was refused.
    type Error;

    /// What a clause makes of it, by what the call returned.
    ghost adds_clause: { Self → List ℕ → Result (Unit {0}) Self.Error → Self → Type 0 };

    /// What a call for a variable makes of it, by the variable's index or the refusal.
    ghost makes_var: { Self → Result ℕ Self.Error → Self → Type 0 };

    /// Takes a clause.
    fn add_clause(&mut self, literals: &[Lit]) -> Result<(), Self::Error>
        ensures { adds_clause self.old literals.now result self.new };

    /// Makes a variable.
    fn new_var(&mut self) -> Result<Var, Self::Error>
        ensures { makes_var self.old result self.new };

    /// Makes a variable, and returns its positive literal.
    fn new_lit(&mut self) -> Result<Lit, Self::Error>
        ensures { MatchResult result (λ l. (v : ℕ) × makes_var self.old (Ok v) self.new × (l ≡ literal_of v true))
            (λ e. makes_var self.old (Err e) self.new) }
    {
        let var = self.new_var()?;
        Ok(var.positive())
    }
}

/// Makes variables until the array is full, and returns them in the order of their making. At the first refusal the
/// variables that were made before stay.
pub fn new_vars<F: ExtendFormula, const N: usize>(formula: &mut F) -> Result<[Var; N], F::Error>
    ensures ok { IfOk result (λ vs. MakesVars F.makes_var formula.old vs formula.new) }
    ensures err { IfErr result (λ e. RefusesOneOf N F.makes_var formula.old e formula.new) }
{
    let mut vars = [Var::from_index(0); N];
    for i in 0..N {
        vars[i] = formula.new_var()?;
    }
    Ok(vars)
}

/// Makes variables as `new_vars` does, and returns their positive literals.
pub fn new_lits<F: ExtendFormula, const N: usize>(formula: &mut F) -> Result<[Lit; N], F::Error>
    ensures ok { IfOk result
        (λ ls. (vs : List ℕ) × MakesVars F.makes_var formula.old vs formula.new
        × (ls ≡ map (λ v. literal_of v true) vs)) }
    ensures err { IfErr result (λ e. RefusesOneOf N F.makes_var formula.old e formula.new) }
{
    let vars = new_vars::<F, N>(formula)?;
    let mut lits = [Lit::from_code(0); N];
    for i in 0..N {
        lits[i] = vars[i].positive();
    }
    Ok(lits)
}

/// A formula: a list of clauses and a count of variables. The literals of all clauses stand in one buffer, since a
/// million clauses of three literals would else be a million allocations.
#[derive(Drop)]
pub struct CnfFormula<A: Allocator + Copy> {
    var_count: usize,
    lengths: Vec<usize, A>,
    literals: Vec<Lit, A>,
}

impl<A: Allocator + Copy> Model for CnfFormula<A> {
    ghost use Rattle.varisat_formula.specs.promises.Formulas.{Formula, cut, BuffersFit};

    ghost Value = { Formula };

    ghost view = { λ f. record { var_count = f.var_count; clauses = cut f.lengths.items f.literals.items } };

    ghost invariant = { λ f. BuffersFit f.var_count f.lengths.items f.literals.items };
}

/// The least count of variables that the literals have.
fn variables_of(literals: &[Lit]) -> usize
    ensures count { result ≡ variables_of literals.now }
    ensures small { result ≤ 2 ^ 31 }
{
    let mut count = 0;
    for literal in literals {
        count = count.max(literal.index() + 1);
    }
    count
}

/// Appends a clause to the buffers of a formula.
fn append_clause<A: Allocator + Copy>(
    lengths: &mut Vec<usize, A>,
    literals: &mut Vec<Lit, A>,
    clause: &[Lit],
) -> Result<(), AllocError>
    ensures lengths { OnOk result (lengths.new.items ≡ lengths.old.items ++ length clause.now ∷ []) }
    ensures literals { OnOk result (literals.new.items ≡ literals.old.items ++ clause.now) }
    ensures refused { OnErr result
        ((lengths.new.items ≡ lengths.old.items) × (literals.new.items ≡ literals.old.items)) }
{
    // The length's room first: once the literals are in, nothing can fail.
    lengths.reserve(1)?;
    literals.extend_from_slice(clause)?;
    lengths.push_reserved(clause.len());
    Ok(())
}

impl<A: Allocator + Copy> CnfFormula<A> {
    /// A formula without clauses and variables. It takes no memory.
    pub fn new_in(alloc: A) -> CnfFormula<A>
        ensures { result ≡ no_clauses }
    {
        CnfFormula {
            var_count: 0,
            lengths: Vec::new(alloc),
            literals: Vec::new(alloc),
        }
    }

    /// The formula of the clauses, in their order. Its only error is `Memory`.
    pub fn from_clauses_in(alloc: A, clauses: &[&[Lit]]) -> Result<CnfFormula<A>, FormulaError>
        ensures formula { IfOk result (λ f. f ≡ with_more no_clauses (map (λ c. c.now) clauses.now)) }
        ensures error { IfErr result (λ e. e ≡ Memory) }
    {
        let mut formula = CnfFormula::new_in(alloc);
        for clause in clauses {
            formula.add_clause(clause)?;
        }
        Ok(formula)
    }

    /// How many clauses there are.
    pub fn len(&self) -> usize
        ensures count { result ≡ length self.now.clauses }
        ensures small { length self.now.clauses < 2 ^ 64 }
    {
        self.lengths.as_slice().len()
    }

    /// Whether there is no clause.
    pub fn is_empty(&self) -> bool
        ensures { IsTrue result ↔ (self.now.clauses ≡ []) }
    {
        self.lengths.as_slice().is_empty()
    }

    /// How many variables there are, those that no clause has among them: at least as many as the clauses' literals
    /// need, and at most 2^31.
    pub fn var_count(&self) -> usize
        ensures count { result ≡ self.now.var_count }
        ensures below { AreBelow self.now.var_count self.now.clauses }
        ensures small { result ≤ 2 ^ 31 }
    {
        self.var_count
    }

    /// Raises the count of variables to the given one, which is at most 2^31, and never lowers it.
    pub fn set_var_count(&mut self, count: usize)
        requires { count ≤ 2 ^ 31 }
        ensures { self.new ≡ record self.old { var_count = max self.old.var_count count } }
    {
        self.var_count = self.var_count.max(count);
    }

    /// Takes a clause. The error is `Memory`, and then nothing changes.
    pub fn add_clause(&mut self, literals: &[Lit]) -> Result<(), FormulaError>
        ensures { MatchResult result (λ _. self.new ≡ with_one_more self.old literals.now)
            (λ e. (e ≡ Memory) × (self.new ≡ self.old)) }
    {
        let needed = variables_of(literals);
        append_clause(&mut self.lengths, &mut self.literals, literals)?;
        self.var_count = self.var_count.max(needed);
        Ok(())
    }

    /// Takes a clause whose variables are counted. A refused growth changes nothing.
    pub(crate) fn add_counted_clause(&mut self, literals: &[Lit]) -> Result<(), AllocError>
        requires { variables_of literals.now ≤ self.old.var_count }
        ensures ok { OnOk result (self.new ≡ record self.old { clauses = self.old.clauses ++ literals.now ∷ [] }) }
        ensures refused { OnErr result (self.new ≡ self.old) }
    {
        append_clause(&mut self.lengths, &mut self.literals, literals)?;
        Ok(())
    }

    /// Whether a clause of so many literals needs no growth.
    pub(crate) fn has_room(&self, count: usize) -> bool {
        self.lengths.len() < self.lengths.capacity()
            && count <= self.literals.capacity() - self.literals.len()
    }

    /// The clauses in order.
    pub fn iter(&self) -> Clauses<'_>
        ensures { result ≡ self.now.clauses }
    {
        Clauses {
            lengths: self.lengths.as_slice(),
            literals: self.literals.as_slice(),
        }
    }
}

impl<A: Allocator + Copy> ExtendFormula for CnfFormula<A> {
    type Error = FormulaError;

    ghost adds_clause = { λ f c r g. MatchResult r (λ _. g ≡ with_one_more f c) (λ e. (e ≡ Memory) × (g ≡ f)) };

    ghost makes_var = { λ f r g. MatchResult r
        (λ v. (v ≡ f.var_count) × (v < 2 ^ 31) × (g ≡ record f { var_count = v + 1 }))
        (λ e. (e ≡ Full) × (f.var_count ≡ 2 ^ 31) × (g ≡ f)) };

    fn add_clause(&mut self, literals: &[Lit]) -> Result<(), FormulaError> {
        CnfFormula::add_clause(self, literals)
    }

    fn new_var(&mut self) -> Result<Var, FormulaError> {
        if self.var_count == 0x8000_0000 {
            return Err(FormulaError::Full);
        }
        let var = Var::from_index(self.var_count);
        self.var_count += 1;
        Ok(var)
    }
}

impl<A: Allocator + Copy> Eq for CnfFormula<A> {
    ghost laws = { same_equivalence };
}

impl<A: Allocator + Copy> PartialEq for CnfFormula<A> {
    ghost eq = { same_formula };

    ghost laws = { same_laws };

    fn eq(&self, other: &CnfFormula<A>) -> bool {
        if self.var_count != other.var_count {
            return false;
        }
        if self.lengths.as_slice() != other.lengths.as_slice() {
            return false;
        }
        self.literals.as_slice() == other.literals.as_slice()
    }
}

/// The clauses of a formula, in order. A contract sees those that are left.
#[derive(Drop)]
pub struct Clauses<'a> {
    lengths: &'a [usize],
    literals: &'a [Lit],
}

impl<'a> Model for Clauses<'a> {
    ghost use Rattle.std.specs.Prelude.{List, ℕ};
    ghost use Rattle.varisat_formula.specs.promises.Formulas.{cut, UseUp};

    ghost Value = { List (List ℕ) };

    ghost view = { λ c. cut c.lengths.now c.literals.now };

    ghost invariant = { λ c. UseUp c.lengths.now c.literals.now };
}

impl<'a> Iterator for Clauses<'a> {
    type Item = &'a [Lit];

    ghost next_gives = { YieldsFirstRef (λ clauses. clauses) };

    ghost remaining = { item_count (λ clauses. clauses) };

    fn next(&mut self) -> Option<&'a [Lit]> {
        let (length, lengths) = self.lengths.split_first()?;
        let (clause, literals) = self.literals.split_at(*length);
        self.lengths = lengths;
        self.literals = literals;
        Some(clause)
    }
}
