//! Solving.
ghost use Rattle.std.specs.Prelude.{◌≡◌, ◌≢◌, ◌<◌, ◌≤◌, ◌^◌, None, List, OnOk, IfOk, IfErr, IfSome, IsSomeAnd, MatchOption, MatchResult, IsTrue, IsFalse, true, false};
ghost use Rattle.varisat_theory.specs.promises.Literals.{IsSatisfiable};
ghost use Rattle.varisat_maxsat.specs.promises.Problems.{Problem as Asked, IsSolution, IsOptimum, IsOptimumOrSolution, CostsAtLeast, IsTooCostly, starting, Found, Improve, ReturnsFound};
ghost use Rattle.varisat_maxsat.specs.declared.refusal.MaxSatError.TheVariants.{CostOverflow, Ended};
ghost use Rattle.varisat_maxsat.specs.inside.Errors.{IsLimit};
ghost use Rattle.varisat_maxsat.specs.inside.Reductions.{ReducesTo, ReducesToAfter, ReducesToBelow, FindsSolution, IsEnded, KeepsReductions, KeepsOrMeetsLimit, EndsBySink, HandsOn, IfSomeSolution, IfSomeOptimum};

use crate::charge::greatest_weight;
use crate::problem::Problem;
use crate::reduction::Reduction;
use crate::refusal::MaxSatError;
use crate::sink::{NoSink, SolutionSink};
use std::alloc::Allocator;
use varisat_sums::Plan;

// Sums of more charges are not counted.
const MOST_CHARGES: usize = 4096;

// The weights are counted by digits to this base.
const RADIX: u64 = 2;

/// The least cost, and values of the variables at this cost.
#[derive(Drop)]
pub struct Optimum<A: Allocator + Copy> {
    pub cost: u64,
    pub values: Vec<bool, A>,
}

/// Values of the variables that satisfy the hard clauses, what they cost, and whether this is known to be the least
/// cost.
#[derive(Drop)]
pub struct Solution<A: Allocator + Copy> {
    pub cost: u64,
    pub values: Vec<bool, A>,
    pub is_optimum: bool,
}

/// The bound with the values of the model.
fn optimum_of<A: Allocator + Copy>(reduction: &Reduction<A>) -> Result<Solution<A>, MaxSatError>
    ensures { MatchResult result
        (λ m. (p : Asked) → ReducesToAfter true 0 p reduction.now → IsOptimum p m.cost m.values.items) IsLimit }
{
    let values = reduction.values()?;
    Ok(Solution {
        cost: reduction.bound(),
        values,
        is_optimum: true,
    })
}

/// Whether the cost is less than that of the best solution so far.
fn is_better<A: Allocator + Copy>(cost: u64, best: &Option<Solution<A>>) -> bool
    ensures better { IsTrue result → IfSome best.now (λ s. cost < s.cost) }
    ensures not_better { IsFalse result → IfSome best.now (λ s. s.cost ≤ cost) }
{
    match best {
        Some(solution) => cost < solution.cost,
        None => true,
    }
}

/// Keeps a solution and hands it on, if it is better than the best one so far.
fn keep_better<A: Allocator + Copy, S: SolutionSink>(
    solution: Solution<A>,
    best: &mut Option<Solution<A>>,
    sink: &mut S,
) -> Result<(), MaxSatError>
    ensures least { OnOk result (IfSome best.new (λ s. s.cost ≤ solution.cost)) }
    ensures best { (p : Asked) → IsSolution p solution.cost solution.values.items → IfSomeSolution p best.old →
        IfSomeSolution p best.new }
    ensures taken { (p : Asked) → IsSolution p solution.cost solution.values.items →
        HandsOn S.takes p sink.old best.old sink.new best.new (EndsBySink result) }
    ensures ended { IfErr result (λ e. e ≡ Ended) }
{
    if !is_better(solution.cost, best) {
        return Ok(());
    }
    let goes_on = sink.take(solution.cost, &solution.values);
    *best = Some(solution);
    if goes_on {
        Ok(())
    } else {
        Err(MaxSatError::Ended)
    }
}

/// Keeps the solution that the model is and hands it on, if it is better than the best one so far.
fn keep_model<A: Allocator + Copy, S: SolutionSink>(
    problem: &Problem<A>,
    reduction: &Reduction<A>,
    best: &mut Option<Solution<A>>,
    sink: &mut S,
) -> Result<(), MaxSatError>
    ensures best { FindsSolution problem.now reduction.now → IfSomeSolution problem.now best.old →
        IfSomeSolution problem.now best.new }
    ensures taken { FindsSolution problem.now reduction.now →
        HandsOn S.takes problem.now sink.old best.old sink.new best.new (EndsBySink result) }
    ensures reason { IfErr result (λ e. e ≢ CostOverflow) }
{
    let values = reduction.values()?;
    let Some(cost) = problem.cost(&values) else {
        return Ok(());
    };
    let solution = Solution {
        cost,
        values,
        is_optimum: false,
    };
    keep_better(solution, best, sink)?;
    Ok(())
}

/// Searches, and relaxes the problem by each core, until the model is one that nothing is charged in.
fn descend<A: Allocator + Copy, S: SolutionSink>(
    problem: &Problem<A>,
    reduction: &mut Reduction<A>,
    best: &mut Option<Solution<A>>,
    sink: &mut S,
) -> Result<bool, MaxSatError>
    ensures ends { IfOk result
        (λ b. ReducesTo problem.now reduction.old → IfSomeSolution problem.now best.old →
        IsEnded b problem.now (IfSomeOptimum problem.now best.new)) }
    ensures best { ReducesTo problem.now reduction.old → IfSomeSolution problem.now best.old →
        IfSomeSolution problem.now best.new }
    ensures taken { ReducesTo problem.now reduction.old →
        HandsOn S.takes problem.now sink.old best.old sink.new best.new (EndsBySink result) }
    ensures reason { IfErr result
        (λ e. e ≡ CostOverflow → ReducesTo problem.now reduction.old → CostsAtLeast (2 ^ 64) problem.now) }
{
    let greatest = greatest_weight(reduction.charges());
    let mut threshold = greatest;
    'turns: for _ in 0..u64::MAX {
        if reduction.search(threshold)? {
            if threshold == 0 {
                let optimum = optimum_of(reduction)?;
                keep_better(optimum, best, sink)?;
                return Ok(true);
            }
            keep_model(problem, reduction, best, sink)?;
            threshold = (threshold / 2).min(greatest);
        } else if !reduction.relax()? {
            return Ok(false);
        }
    }
    Err(MaxSatError::StepsSpent)
}

/// The cost of the best solution, or 0 where there is none.
fn best_cost<A: Allocator + Copy>(best: &Option<Solution<A>>) -> u64 {
    match best {
        Some(solution) => solution.cost,
        None => 0,
    }
}

/// Counts the sums of a plan that are not counted yet, and gives the clauses of its rules.
fn follow<A: Allocator + Copy>(
    reduction: &mut Reduction<A>,
    plan: &Plan<A>,
) -> Result<(), MaxSatError>
    ensures { KeepsOrMeetsLimit result reduction.old reduction.new }
{
    let sums = plan.sums();
    'sums: for index in reduction.counter_count()..sums.len() {
        reduction.add_counter(sums[index])?;
    }
    'rules: for rule in plan.rules() {
        reduction.follow(*rule)?;
    }
    Ok(())
}

/// Forbids what costs no less than the ceiling.
fn forbid_ceiling<A: Allocator + Copy>(
    reduction: &mut Reduction<A>,
    plan: &mut Plan<A>,
) -> Result<(), MaxSatError>
    ensures { KeepsOrMeetsLimit result reduction.old reduction.new }
{
    let least = reduction.ceiling().saturating_sub(reduction.bound());
    let Some(index) = plan.reach(least)? else {
        return Ok(());
    };
    follow(reduction, plan)?;
    plan.forget_rules();
    reduction.forbid(index)?;
    Ok(())
}

/// The weights of the charges.
fn weights_of<A: Allocator + Copy>(
    reduction: &Reduction<A>,
    alloc: A,
) -> Result<Vec<u64, A>, MaxSatError>
    ensures { IfErr result IsLimit }
{
    let mut weights = Vec::new(alloc);
    for charge in reduction.charges() {
        weights.push(charge.weight)?;
    }
    Ok(weights)
}

/// Begins to count what the charges cost, as far as less than the ceiling.
fn begin_counting<A: Allocator + Copy>(
    reduction: &mut Reduction<A>,
    ceiling: u64,
    alloc: A,
) -> Result<Plan<A>, MaxSatError>
    ensures { MatchResult result
        (λ _. (p : Asked) → ReducesTo p reduction.old → ReducesToBelow p reduction.new) IsLimit }
{
    reduction.begin_counting(RADIX, ceiling)?;
    let weights = weights_of(reduction, alloc)?;
    let mut plan = Plan::new_in(alloc);
    plan.count(&weights, RADIX, ceiling.saturating_sub(reduction.bound()))?;
    Ok(plan)
}

/// Refuses a best solution that costs more than the ceiling.
fn ensure_met<A: Allocator + Copy>(
    reduction: &Reduction<A>,
    best: &Option<Solution<A>>,
) -> Result<(), MaxSatError>
    ensures { MatchResult result (λ _. IfSome best.now (λ s. s.cost ≤ reduction.now.ceiling)) IsLimit }
{
    if let Some(solution) = best {
        if solution.cost > reduction.ceiling() {
            return Err(MaxSatError::StepsSpent);
        }
    }
    Ok(())
}

/// Lowers the ceiling to the cost. Refuses one that is no less, so that there is an end whatever the plan counts.
fn lower_ceiling<A: Allocator + Copy>(
    reduction: &mut Reduction<A>,
    cost: u64,
) -> Result<(), MaxSatError>
    ensures keeps { KeepsReductions reduction.old reduction.new }
    ensures limit { IfErr result IsLimit }
{
    if cost >= reduction.ceiling() {
        return Err(MaxSatError::StepsSpent);
    }
    reduction.lower_ceiling(cost);
    Ok(())
}

/// Searches for better solutions, until there is none.
fn improve<A: Allocator + Copy, S: SolutionSink>(
    problem: &Problem<A>,
    reduction: &mut Reduction<A>,
    best: &mut Option<Solution<A>>,
    sink: &mut S,
    alloc: A,
) -> Result<(), MaxSatError>
    ensures ends { OnOk result
        (ReducesTo problem.now reduction.old → IfSomeSolution problem.now best.old →
        IfSomeOptimum problem.now best.new) }
    ensures best { ReducesTo problem.now reduction.old → IfSomeSolution problem.now best.old →
        IfSomeSolution problem.now best.new }
    ensures taken { ReducesTo problem.now reduction.old →
        HandsOn S.takes problem.now sink.old best.old sink.new best.new (EndsBySink result) }
    ensures reason { IfErr result (λ e. e ≢ CostOverflow) }
{
    let mut plan = begin_counting(reduction, best_cost(best), alloc)?;
    'turns: for _ in 0..u64::MAX {
        forbid_ceiling(reduction, &mut plan)?;
        let found = reduction.search_below()?;
        if !found {
            ensure_met(reduction, best)?;
            return Ok(());
        }
        keep_model(problem, reduction, best, sink)?;
        lower_ceiling(reduction, best_cost(best))?;
    }
    Err(MaxSatError::StepsSpent)
}

/// Whether there is a solution, and few enough charges to be counted.
fn is_countable<A: Allocator + Copy>(reduction: &Reduction<A>, best: &Option<Solution<A>>) -> bool {
    best.is_some() && reduction.charges().len() <= MOST_CHARGES
}

/// Searches for a solution, and for better ones until there is none. False is for hard clauses that nothing satisfies.
fn decide<A: Allocator + Copy, S: SolutionSink>(
    problem: &Problem<A>,
    reduction: &mut Reduction<A>,
    best: &mut Option<Solution<A>>,
    sink: &mut S,
    alloc: A,
) -> Result<bool, MaxSatError>
    ensures ends { IfOk result
        (λ b. ReducesTo problem.now reduction.old → IfSomeSolution problem.now best.old →
        IsEnded b problem.now (IfSomeOptimum problem.now best.new)) }
    ensures best { ReducesTo problem.now reduction.old → IfSomeSolution problem.now best.old →
        IfSomeSolution problem.now best.new }
    ensures taken { ReducesTo problem.now reduction.old →
        HandsOn S.takes problem.now sink.old best.old sink.new best.new (EndsBySink result) }
    ensures reason { IfErr result
        (λ e. e ≡ CostOverflow → ReducesTo problem.now reduction.old → IsTooCostly problem.now) }
{
    let found = reduction.search_lightly()?;
    if !found {
        return Ok(false);
    }
    keep_model(problem, reduction, best, sink)?;
    if is_countable(reduction, best) {
        improve(problem, reduction, best, sink, alloc)?;
        return Ok(true);
    }
    let ended = descend(problem, reduction, best, sink)?;
    Ok(ended)
}

/// The best solution, as an optimum or not. The error is for where there is none.
fn answer<A: Allocator + Copy>(
    best: Option<Solution<A>>,
    is_optimum: bool,
    error: MaxSatError,
) -> Result<Solution<A>, MaxSatError>
    ensures answer { IfOk result
        (λ s. (p : Asked) → IfSome best (λ t. IsOptimumOrSolution is_optimum p t.cost t.values.items) →
        IsOptimumOrSolution s.is_optimum p s.cost s.values.items) }
    ensures same { IfOk result
        (λ s. IsSomeAnd best (λ t. (t.cost ≡ s.cost) × (t.values.items ≡ s.values.items))) }
    ensures none { IfErr result (λ e. (e ≡ error) × (best ≡ None)) }
{
    match best {
        Some(solution) => Ok(Solution {
            cost: solution.cost,
            values: solution.values,
            is_optimum,
        }),
        None => Err(error),
    }
}

/// Joins equal charges. Where what is due in any case passes 2^64 none is joined, since only a search tells whether
/// there is a solution.
fn join_if_bounded<A: Allocator + Copy>(reduction: &mut Reduction<A>) -> Result<(), MaxSatError>
    ensures { MatchResult result (λ _. (p : Asked) → ReducesTo p reduction.old → ReducesTo p reduction.new) IsLimit }
{
    if let Err(error) = reduction.join_charges() {
        if error != MaxSatError::CostOverflow {
            return Err(error);
        }
    }
    Ok(())
}

/// Brings the problem down and solves it.
fn solve<A: Allocator + Copy, S: SolutionSink>(
    problem: &Problem<A>,
    reduction: &mut Reduction<A>,
    sink: &mut S,
    alloc: A,
) -> Result<Option<Solution<A>>, MaxSatError>
    ensures answer { IfOk result
        (λ o. ReducesTo (starting problem.now.variables) reduction.old →
        MatchOption o (IsSatisfiable problem.now.hard → ⊥)
        (λ s. IsOptimumOrSolution s.is_optimum problem.now s.cost s.values.items)) }
    ensures taken { ReducesTo (starting problem.now.variables) reduction.old → (found : List Found)
        × Improve problem.now found × S.takes sink.old found sink.new × ReturnsFound found result }
    ensures reason { IfErr result
        (λ e. e ≡ CostOverflow → ReducesTo (starting problem.now.variables) reduction.old → IsTooCostly problem.now) }
{
    problem.reduce(reduction)?;
    join_if_bounded(reduction)?;
    let mut best = None;
    match decide(problem, reduction, &mut best, sink, alloc) {
        Ok(found) => {
            if !found {
                return Ok(None);
            }
            let optimum = answer(best, true, MaxSatError::StepsSpent)?;
            Ok(Some(optimum))
        }
        Err(error) => {
            if error == MaxSatError::Ended {
                return Err(error);
            }
            let solution = answer(best, false, error)?;
            Ok(Some(solution))
        }
    }
}

/// The optimum of the problem, or where a limit is met, as by searches that would make more than so many steps in all,
/// the best solution until then; an error where there is none. None is for a problem whose hard clauses no assignment
/// satisfies. Each solution that costs less than those before it is handed on to the sink, the one that is returned
/// last. Where the sink says that the search is not to go on, no more is handed on, and the error is `Ended`, as nowhere
/// else.
pub fn optimize_within<A: Allocator + Copy, S: SolutionSink>(
    problem: &Problem<A>,
    steps: Option<u64>,
    sink: &mut S,
    alloc: A,
) -> Result<Option<Solution<A>>, MaxSatError>
    ensures answer { IfOk result
        (λ o. MatchOption o (IsSatisfiable problem.now.hard → ⊥)
        (λ s. IsOptimumOrSolution s.is_optimum problem.now s.cost s.values.items)) }
    ensures taken { (found : List Found) × Improve problem.now found × S.takes sink.old found sink.new
        × ReturnsFound found result }
    ensures reason { IfErr result (λ e. e ≡ CostOverflow → IsTooCostly problem.now) }
{
    let mut reduction = Reduction::new_in(alloc, problem.var_count(), steps);
    let found = solve(problem, &mut reduction, sink, alloc);
    // In one step: at the end of a scope each part of it would be one.
    drop(reduction);
    found
}

/// The optimum of the problem. None is for one whose hard clauses no assignment satisfies. Where a limit is met behind a
/// solution, as nearly always of memory, the error is `OutOfMemory`; `optimize_within` returns that solution.
pub fn optimize<A: Allocator + Copy>(
    problem: &Problem<A>,
    alloc: A,
) -> Result<Option<Optimum<A>>, MaxSatError>
    ensures answer { IfOk result
        (λ o. MatchOption o (IsSatisfiable problem.now.hard → ⊥) (λ m. IsOptimum problem.now m.cost m.values.items)) }
    ensures reason { IfErr result (λ e. e ≡ CostOverflow → IsTooCostly problem.now) }
    ensures unended { IfErr result (λ e. e ≢ Ended) }
{
    let Some(solution) = optimize_within(problem, None, &mut NoSink, alloc)? else {
        return Ok(None);
    };
    if !solution.is_optimum {
        return Err(MaxSatError::OutOfMemory);
    }
    Ok(Some(Optimum {
        cost: solution.cost,
        values: solution.values,
    }))
}
