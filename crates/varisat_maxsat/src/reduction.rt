//! A problem that is reduced to hard clauses, and literals that cost a weight each.
ghost use Rattle.std.specs.Prelude.{◌≡◌, ◌≢◌, ◌+◌, ◌*◌, ◌^◌, ◌++◌, ◌∷◌, [], List, ℕ, OnOk, IfOk, IfErr, MatchResult, true, false};
ghost use Rattle.varisat_formula.specs.promises.Values.{assignment_of};
ghost use Rattle.varisat_maxsat.specs.promises.Problems.{Problem, starting, with_hard, with_soft, cost, IsSolution, IsOptimum, CostsAtLeast};
ghost use Rattle.varisat_maxsat.specs.declared.refusal.MaxSatError.TheVariants.{CostOverflow, Ended};
ghost use Rattle.varisat_maxsat.specs.inside.Errors.{IsLimit};
ghost use Rattle.varisat_maxsat.specs.inside.Reductions.{ReducesTo, ReducesToWith, ReducesToAfter, ReducesToBelow, FindsSolution, DecidesHard, IsImproved, KeepsReductions, KeepsOrMeetsLimit, IsRelaxed};

use crate::charge::{Charge, Joined, divide_digits, join_equal, least_weight, raised, take_weight};
use crate::counter::{Counter, adds_up, counter_of_charge, is_within};
use crate::feeding::{Split, divide, ensure_below, give, search, search_lightly, values};
use crate::refusal::MaxSatError;
use std::alloc::Allocator;
use std::collections::VecDeque;
use std::marker::Model;
use varisat_client::client::Client;
use varisat_literals::{Lit, VARIABLE_LIMIT};
use varisat_sums::{Rule, Sum};

/// A problem that is brought down.
#[derive(Drop)]
pub(crate) struct Reduction<A: Allocator + Copy> {
    client: Client<A>,
    alloc: A,
    variables: usize,
    named: usize,
    charges: Vec<Charge, A>,
    bound: u64,
    counters: Vec<Counter, A>,
    ceiling: u64,
    steps: Option<u64>,
}

impl<A: Allocator + Copy> Model for Reduction<A> {
    ghost use Rattle.varisat_maxsat.specs.inside.Reductions as reductions;

    ghost Value = { reductions.Reduction };

    ghost view = { λ r. reductions.reduction_of r.client r.variables r.named r.charges.items r.bound r.counters.items
        r.ceiling };
}

impl<A: Allocator + Copy> Reduction<A> {
    /// No clauses over so many variables. All searches together make at most so many steps.
    pub fn new_in(alloc: A, variables: usize, steps: Option<u64>) -> Reduction<A>
        ensures { ReducesTo (starting variables) result }
    {
        Reduction {
            client: Client::new_in(alloc),
            alloc,
            variables,
            named: variables,
            charges: Vec::new(alloc),
            bound: 0,
            counters: Vec::new(alloc),
            ceiling: 0,
            steps,
        }
    }

    /// The charges.
    pub fn charges(&self) -> &[Charge] {
        self.charges.as_slice()
    }

    /// The literal of a new variable.
    fn fresh(&mut self) -> Result<Lit, MaxSatError>
        ensures literal { IfOk result (λ l. l ≡ 2 * self.old.named) }
        ensures named { OnOk result (self.new ≡ record self.old { named = self.old.named + 1 }) }
        ensures limit { IfErr result IsLimit }
    {
        if self.named >= VARIABLE_LIMIT {
            return Err(MaxSatError::VariableLimit);
        }
        let literal = Lit::from_index(self.named, true);
        self.named += 1;
        Ok(literal)
    }

    /// Takes a hard clause.
    pub fn add_hard(&mut self, clause: &[Lit]) -> Result<(), MaxSatError>
        ensures { MatchResult result
            (λ _. (p : Problem) → ReducesTo p self.old → ReducesTo (with_hard clause.now p) self.new) IsLimit }
    {
        ensure_below(clause, self.variables)?;
        give(&mut self.client, clause)?;
        Ok(())
    }

    /// Takes a soft clause.
    pub fn add_soft(&mut self, weight: u64, clause: &[Lit]) -> Result<(), MaxSatError>
        ensures { MatchResult result
            (λ _. (p : Problem) → ReducesTo p self.old → ReducesTo (with_soft weight clause.now p) self.new) IsLimit }
    {
        ensure_below(clause, self.variables)?;
        if weight == 0 {
            return Ok(());
        }
        if let [literal] = clause {
            self.charges.push(Charge {
                literal: !*literal,
                weight,
            })?;
            return Ok(());
        }
        let literal = self.fresh()?;
        let mut relaxed = Vec::new(self.alloc);
        relaxed.extend_from_slice(clause)?;
        relaxed.push(literal)?;
        give(&mut self.client, &relaxed)?;
        self.charges.push(Charge { literal, weight })?;
        Ok(())
    }

    /// Searches for a model in which no literal is true whose weight is no less than the threshold.
    pub fn search(&mut self, threshold: u64) -> Result<bool, MaxSatError>
        ensures { MatchResult result
            (λ b. (p : Problem) → ReducesTo p self.old → ReducesToAfter b threshold p self.new) IsLimit }
    {
        let Some(found) = search(&mut self.client, &self.charges, threshold, self.steps)? else {
            return Err(MaxSatError::StepsSpent);
        };
        Ok(found)
    }

    /// Searches for a model in which few charges are true, and puts those first that were given up.
    pub fn search_lightly(&mut self) -> Result<bool, MaxSatError>
        ensures { MatchResult result (λ b. (p : Problem) → ReducesTo p self.old → DecidesHard b p self.new) IsLimit }
    {
        let found = search_lightly(&mut self.client, &self.charges, self.steps, self.alloc)?;
        match found {
            Some(charges) => {
                self.charges = charges;
                Ok(true)
            }
            None => Ok(false),
        }
    }

    /// Brings the problem further down by the core. False is for one that no assignment satisfies.
    pub fn relax(&mut self) -> Result<bool, MaxSatError>
        ensures relaxed { IfOk result
            (λ b. (p : Problem) (t : ℕ) → ReducesToAfter false t p self.old → IsRelaxed b p self.new) }
        ensures reason { IfErr result
            (λ e. e ≡ CostOverflow → (p : Problem) (t : ℕ) → ReducesToAfter false t p self.old →
            CostsAtLeast (2 ^ 64) p) }
        ensures unended { IfErr result (λ e. e ≢ Ended) }
    {
        let Split { mut kept, failed } = divide(&self.client, &self.charges, self.alloc)?;
        if failed.is_empty() {
            return Ok(false);
        }
        let weight = least_weight(&failed);
        let pending = take_weight(&failed, weight, &mut kept)?;
        self.charges = kept;
        self.join_pending(pending, weight)?;
        Ok(true)
    }

    /// Joins the literals, of which one is true, and raises the bound by their weight.
    fn join_pending(
        &mut self,
        mut pending: VecDeque<Lit, A>,
        weight: u64,
    ) -> Result<(), MaxSatError>
        ensures joined { OnOk result
            ((p : Problem) → ReducesToWith p pending.items weight self.old → ReducesTo p self.new) }
        ensures reason { IfErr result
            (λ e. e ≡ CostOverflow → (p : Problem) → ReducesToWith p pending.items weight self.old →
            CostsAtLeast (2 ^ 64) p) }
        ensures unended { IfErr result (λ e. e ≢ Ended) }
    {
        'gates: while let Some(first) = pending.pop_front() {
            let Some(second) = pending.pop_front() else {
                give(&mut self.client, &[first])?;
                self.bound = raised(self.bound, weight)?;
                return Ok(());
            };
            let either = self.join(first, second, weight)?;
            pending.push_back(either)?;
        }
        Ok(())
    }

    /// In place of two literals: one that is true where either is, which is returned, and one that is true where both
    /// are, which is charged.
    fn join(&mut self, first: Lit, second: Lit, weight: u64) -> Result<Lit, MaxSatError>
        ensures { MatchResult result
            (λ d. (p : Problem) (rest : List ℕ) → ReducesToWith p (first ∷ second ∷ rest) weight self.old →
            ReducesToWith p (rest ++ d ∷ []) weight self.new) IsLimit }
    {
        let either = self.fresh()?;
        let both = self.fresh()?;
        give(&mut self.client, &[!first, either])?;
        give(&mut self.client, &[!second, either])?;
        give(&mut self.client, &[!first, !second, both])?;
        self.charges.push(Charge {
            literal: both,
            weight,
        })?;
        Ok(either)
    }

    /// Joins the charges of each variable.
    pub fn join_charges(&mut self) -> Result<(), MaxSatError>
        ensures joined { OnOk result ((p : Problem) → ReducesTo p self.old → ReducesTo p self.new) }
        ensures stays { IfErr result (λ e. (self.new ≡ self.old) × (e ≢ Ended)) }
    {
        let Joined { charges, due } = join_equal(&self.charges, self.alloc)?;
        self.bound = raised(self.bound, due)?;
        self.charges = charges;
        Ok(())
    }

    /// Divides the charges into one for each digit of their weights. From now on only what costs less than the ceiling
    /// is asked for.
    pub fn begin_counting(&mut self, radix: u64, ceiling: u64) -> Result<(), MaxSatError>
        ensures { MatchResult result (λ _. (p : Problem) → ReducesTo p self.old → ReducesToBelow p self.new) IsLimit }
    {
        let parts = divide_digits(&self.charges, radix, self.alloc)?;
        self.charges = parts;
        self.counters.clear();
        self.ceiling = ceiling;
        Ok(())
    }

    /// The ceiling.
    pub fn ceiling(&self) -> u64
        ensures { result ≡ self.now.ceiling }
    {
        self.ceiling
    }

    /// Lowers the ceiling, and never raises it.
    pub fn lower_ceiling(&mut self, ceiling: u64)
        ensures { KeepsReductions self.old self.new }
    {
        self.ceiling = self.ceiling.min(ceiling);
    }

    /// How many counters there are.
    pub fn counter_count(&self) -> usize {
        self.counters.len()
    }

    /// Counts a sum of charges.
    pub fn add_counter(&mut self, sum: Sum) -> Result<(), MaxSatError>
        ensures { KeepsOrMeetsLimit result self.old self.new }
    {
        if let Some(counter) = counter_of_charge(&self.charges, sum) {
            self.counters.push(counter)?;
            return Ok(());
        }
        let literal = self.fresh()?;
        self.counters.push(Counter {
            literal,
            at_least: sum.at_least,
            first: sum.first,
            end: sum.end,
        })?;
        Ok(())
    }

    /// Gives the clause of a rule by which one counter follows from another one.
    fn imply(&mut self, cause: usize, effect: usize) -> Result<(), MaxSatError>
        ensures { KeepsOrMeetsLimit result self.old self.new }
    {
        if cause >= self.counters.len() || effect >= self.counters.len() {
            return Ok(());
        }
        let cause = self.counters[cause];
        let effect = self.counters[effect];
        if !is_within(&cause, &effect) {
            return Ok(());
        }
        give(&mut self.client, &[!cause.literal, effect.literal])?;
        Ok(())
    }

    /// Gives the clause of a rule by which one counter follows from two others.
    fn add_up(&mut self, left: usize, right: usize, effect: usize) -> Result<(), MaxSatError>
        ensures { KeepsOrMeetsLimit result self.old self.new }
    {
        let count = self.counters.len();
        if left >= count || right >= count || effect >= count {
            return Ok(());
        }
        let left = self.counters[left];
        let right = self.counters[right];
        let effect = self.counters[effect];
        if !adds_up(&left, &right, &effect) {
            return Ok(());
        }
        give(
            &mut self.client,
            &[!left.literal, !right.literal, effect.literal],
        )?;
        Ok(())
    }

    /// Gives the clause of a rule.
    pub fn follow(&mut self, rule: Rule) -> Result<(), MaxSatError>
        ensures { KeepsOrMeetsLimit result self.old self.new }
    {
        if rule.left == rule.right {
            self.imply(rule.left, rule.effect)?;
        } else {
            self.add_up(rule.left, rule.right, rule.effect)?;
        }
        Ok(())
    }

    /// Forbids what costs no less than the ceiling by this counter.
    pub fn forbid(&mut self, index: usize) -> Result<(), MaxSatError>
        ensures { KeepsOrMeetsLimit result self.old self.new }
    {
        if index >= self.counters.len() {
            return Ok(());
        }
        let counter = self.counters[index];
        if counter.at_least < self.ceiling.saturating_sub(self.bound) {
            return Ok(());
        }
        give(&mut self.client, &[!counter.literal])?;
        Ok(())
    }

    /// Searches for a model that costs less than the ceiling, as far as the counters count.
    pub fn search_below(&mut self) -> Result<bool, MaxSatError>
        ensures { MatchResult result
            (λ b. (p : Problem) → ReducesToBelow p self.old → IsImproved b p self.new) IsLimit }
    {
        if self.ceiling <= self.bound {
            return Ok(false);
        }
        let Some(found) = search(&mut self.client, &[], 0, self.steps)? else {
            return Err(MaxSatError::StepsSpent);
        };
        Ok(found)
    }

    /// The bound.
    pub fn bound(&self) -> u64
        ensures { result ≡ self.now.bound }
    {
        self.bound
    }

    /// The values of the problem's variables in the model.
    pub fn values(&self) -> Result<Vec<bool, A>, MaxSatError>
        ensures solution { IfOk result
            (λ vs. (p : Problem) → FindsSolution p self.now →
            IsSolution p (cost (assignment_of vs.items) p.soft) vs.items) }
        ensures optimum { IfOk result
            (λ vs. (p : Problem) → ReducesToAfter true 0 p self.now → IsOptimum p self.now.bound vs.items) }
        ensures limit { IfErr result IsLimit }
    {
        let mut values = values(&self.client, self.named, self.alloc)?;
        values.truncate(self.variables);
        Ok(values)
    }
}
