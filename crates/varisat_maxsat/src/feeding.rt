//! What is given to a client, and what it is asked.
ghost use Rattle.std.specs.Prelude.{◌≡◌, ◌≢◌, ◌++◌, ◌∷◌, [], List, pos, None, IfOk, IfErr, MatchOption, MatchResult};
ghost use Rattle.varisat_theory.specs.promises.Literals.{Clause, Assignment, SatisfiesAll, MakesTrue};
ghost use Rattle.varisat_literals.specs.promises.Numbers.{literal_numbered};
ghost use Rattle.varisat_client.specs.promises.Pasts.{ClientPast, count};
ghost use Rattle.varisat_client.specs.inside.Clients.{RepresentsPast};
ghost use Rattle.varisat_maxsat.specs.inside.Charges.{LiteralsAreBelow, IsSplit, AreValues};
ghost use Rattle.varisat_maxsat.specs.inside.Errors.{IsLimit};
ghost use Rattle.varisat_maxsat.specs.inside.Reductions.{IsReady, left_steps, with_limit, HasBegun, FindsCore, FindsWithin, GivesUp, KeepsParted, FindsLightly};

use crate::charge::Charge;
use crate::refusal::MaxSatError;
use std::alloc::Allocator;
use varisat_client::client::{Client, SearchEnd};
use varisat_literals::{Lit, VARIABLE_LIMIT};

// The searches for a light model make at most so many steps, so that a first solution comes soon.
const LIGHT_STEPS: u64 = 20_000;

/// The charges that a core leaves, and those that it names.
#[derive(Drop)]
pub(crate) struct Split<A: Allocator + Copy> {
    pub kept: Vec<Charge, A>,
    pub failed: Vec<Charge, A>,
}

/// The number of the literal.
fn number_of(literal: Lit) -> Result<i32, MaxSatError>
    ensures lit { IfOk result (λ n. literal_numbered n ≡ literal) }
    ensures some { IfOk result (λ n. n ≢ pos 0) }
    ensures limit { IfErr result IsLimit }
{
    if literal.index() >= VARIABLE_LIMIT {
        return Err(MaxSatError::VariableLimit);
    }
    Ok(literal.to_dimacs() as i32)
}

/// Refuses a clause that has a variable from the count on.
pub(crate) fn ensure_below(clause: &[Lit], count: usize) -> Result<(), MaxSatError>
    ensures { MatchResult result (λ _. LiteralsAreBelow count clause.now) IsLimit }
{
    for literal in clause {
        if literal.index() >= count {
            return Err(MaxSatError::VariableLimit);
        }
    }
    Ok(())
}

/// Refuses where the client refused a call.
fn ensure_accepted<A: Allocator + Copy>(client: &Client<A>) -> Result<(), MaxSatError>
    ensures { MatchResult result (λ _. (p : ClientPast) → RepresentsPast client.now p → p.refusal ≡ None) IsLimit }
{
    match client.refusal() {
        Some(refusal) => Err(MaxSatError::from(refusal)),
        None => Ok(()),
    }
}

/// Gives a clause to the client.
pub(crate) fn give<A: Allocator + Copy>(
    client: &mut Client<A>,
    clause: &[Lit],
) -> Result<(), MaxSatError>
    ensures { MatchResult result
        (λ _. (p : ClientPast) → IsReady client.old p →
        IsReady client.new (record (count clause.now p) { clauses = p.clauses ++ clause.now ∷ [] })) IsLimit }
{
    for literal in clause {
        client.add(number_of(*literal)?);
    }
    client.add(0);
    ensure_accepted(client)?;
    Ok(())
}

/// Assumes the opposite of each literal whose weight is no less than the threshold.
fn assume<A: Allocator + Copy>(
    client: &mut Client<A>,
    charges: &[Charge],
    threshold: u64,
) -> Result<(), MaxSatError>
    ensures { MatchResult result
        (λ _. (p : ClientPast) → IsReady client.old p → HasBegun threshold charges.now p client.new) IsLimit }
{
    for charge in charges {
        if charge.weight >= threshold {
            client.assume(number_of(!charge.literal)?);
        }
    }
    client.begin();
    ensure_accepted(client)?;
    Ok(())
}

/// What is left of so many steps in all.
fn left_of<A: Allocator + Copy>(client: &Client<A>, steps: Option<u64>) -> u64
    ensures { (p : ClientPast) → IsReady client.now p → result ≡ left_steps steps p.steps }
{
    match steps {
        Some(steps) => steps.saturating_sub(client.steps()),
        None => u64::MAX,
    }
}

/// Lets a search make what is left of so many steps in all.
fn limit_search<A: Allocator + Copy>(client: &mut Client<A>, steps: Option<u64>)
    ensures { (p : ClientPast) → IsReady client.old p → IsReady client.new (with_limit (left_steps steps p.steps) p) }
{
    let left = left_of(client, steps);
    client.limit_steps(left);
}

/// Whether some assignment satisfies the clauses with none of these literals true. Then the client has a model, else a
/// core. None is for a search that would make more than so many steps with those before it.
pub(crate) fn search<A: Allocator + Copy>(
    client: &mut Client<A>,
    charges: &[Charge],
    threshold: u64,
    steps: Option<u64>,
) -> Result<Option<bool>, MaxSatError>
    ensures { MatchResult result
        (λ o. (p : ClientPast) → IsReady client.old p → FindsWithin o threshold charges.now p.clauses client.new)
        IsLimit }
{
    limit_search(client, steps);
    assume(client, charges, threshold)?;
    match client.search() {
        SearchEnd::Satisfiable => Ok(Some(true)),
        SearchEnd::Unsatisfiable => Ok(Some(false)),
        SearchEnd::Interrupted => Ok(None),
        SearchEnd::Refused => {
            ensure_accepted(client)?;
            Err(MaxSatError::StepsSpent)
        }
    }
}

/// The charges whose opposite is in the client's core, and the others.
pub(crate) fn divide<A: Allocator + Copy>(
    client: &Client<A>,
    charges: &[Charge],
    alloc: A,
) -> Result<Split<A>, MaxSatError>
    ensures { MatchResult result
        (λ s. (p : ClientPast) → IsReady client.now p → IsSplit p.core charges.now s.kept.items s.failed.items)
        IsLimit }
{
    let mut kept = Vec::new(alloc);
    let mut failed = Vec::new(alloc);
    for charge in charges {
        if client.has_failed(number_of(!charge.literal)?) {
            failed.push(*charge)?;
        } else {
            kept.push(*charge)?;
        }
    }
    Ok(Split { kept, failed })
}

/// Gives up the charges of the core. False is for a core that names none.
fn give_up_core<A: Allocator + Copy>(
    client: &Client<A>,
    left: &mut Vec<Charge, A>,
    given_up: &mut Vec<Charge, A>,
    alloc: A,
) -> Result<bool, MaxSatError>
    ensures { MatchResult result
        (λ b. (P : List Clause) → FindsCore 0 left.old.items P client.now →
        GivesUp b left.old.items given_up.old.items left.new.items given_up.new.items P) IsLimit }
{
    let Split { kept, failed } = divide(client, left.as_slice(), alloc)?;
    if failed.is_empty() {
        return Ok(false);
    }
    given_up.extend_from_slice(&failed)?;
    *left = kept;
    Ok(true)
}

/// Gives up all charges that are left.
fn give_up_all<A: Allocator + Copy>(
    left: &mut Vec<Charge, A>,
    given_up: &mut Vec<Charge, A>,
) -> Result<(), MaxSatError>
    ensures { MatchResult result
        (λ _. KeepsParted left.old.items given_up.old.items left.new.items given_up.new.items) IsLimit }
{
    given_up.extend_from_slice(left.as_slice())?;
    left.clear();
    Ok(())
}

/// How many steps the searches for a light model may make.
fn light_steps(steps: Option<u64>) -> Option<u64> {
    match steps {
        Some(steps) => Some(LIGHT_STEPS.min(steps / 2)),
        None => Some(LIGHT_STEPS),
    }
}

/// Searches for a model in which few charges are due: those of each core are given up, and all once half of the steps
/// are made, or many. They come first in the list that is returned. None is for clauses that no assignment satisfies.
pub(crate) fn search_lightly<A: Allocator + Copy>(
    client: &mut Client<A>,
    charges: &[Charge],
    steps: Option<u64>,
    alloc: A,
) -> Result<Option<Vec<Charge, A>>, MaxSatError>
    ensures { MatchResult result
        (λ o. (p : ClientPast) → IsReady client.old p →
        MatchOption o ((a : Assignment) → SatisfiesAll a p.clauses → ⊥)
        (λ list. FindsLightly charges.now list.items p.clauses client.new)) IsLimit }
{
    let mut left = Vec::new(alloc);
    left.extend_from_slice(charges)?;
    let mut given_up = Vec::new(alloc);
    let mut within = light_steps(steps);
    'turns: for _ in 0..u64::MAX {
        let Some(found) = search(client, &left, 0, within)? else {
            if within == steps {
                return Err(MaxSatError::StepsSpent);
            }
            give_up_all(&mut left, &mut given_up)?;
            within = steps;
            continue;
        };
        if found {
            given_up.extend_from_slice(&left)?;
            return Ok(Some(given_up));
        }
        let named = give_up_core(client, &mut left, &mut given_up, alloc)?;
        if !named {
            return Ok(None);
        }
    }
    Err(MaxSatError::StepsSpent)
}

/// The values of so many variables in the client's model.
pub(crate) fn values<A: Allocator + Copy>(
    client: &Client<A>,
    count: usize,
    alloc: A,
) -> Result<Vec<bool, A>, MaxSatError>
    ensures { MatchResult result
        (λ vs. (p : ClientPast) → IsReady client.now p → (a : Assignment) → MakesTrue a p.model →
        AreValues count p.model vs.items) IsLimit }
{
    let mut values = Vec::new(alloc);
    for index in 0..count {
        if index >= VARIABLE_LIMIT {
            return Err(MaxSatError::VariableLimit);
        }
        let number = number_of(Lit::from_index(index, true))?;
        values.push(client.value(number) == number)?;
    }
    Ok(values)
}
