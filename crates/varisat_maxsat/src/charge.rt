//! Literals that cost a weight.
ghost use Rattle.std.specs.Prelude.{◌≡◌, ◌≢◌, ◌≤◌, ◌+◌, ◌^◌, ◌⊎◌, ◌++◌, ◌∷◌, [], List, OnOk, IfOk, IfSome, MatchResult};
ghost use Rattle.std.specs.List.Sorted.{IsPermutation};
ghost use Rattle.varisat_theory.specs.promises.Literals.{Assignment};
ghost use Rattle.varisat_theory.specs.promises.Membership.{◌∈◌};
ghost use Rattle.varisat_maxsat.specs.declared.charge.Charge.{Charge};
ghost use Rattle.varisat_maxsat.specs.declared.refusal.MaxSatError.TheVariants.{CostOverflow, Ended};
ghost use Rattle.varisat_maxsat.specs.inside.Charges.{TakesWeight, PutsCharge, Divides, Exchanges, due};

use crate::refusal::MaxSatError;
use std::alloc::{AllocError, Allocator};
use std::collections::VecDeque;
use varisat_literals::Lit;

/// A literal that costs the weight where it is true.
#[derive(Clone, Copy)]
pub(crate) struct Charge {
    pub literal: Lit,
    pub weight: u64,
}

/// The greatest weight, or 0.
pub(crate) fn greatest_weight(charges: &[Charge]) -> u64 {
    charges
        .iter()
        .map(|charge| charge.weight)
        .max()
        .unwrap_or(0)
}

/// The least weight, or the greatest number.
pub(crate) fn least_weight(charges: &[Charge]) -> u64
    ensures { (c : Charge) → c ∈ charges.now → result ≤ c.weight }
{
    let mut least = u64::MAX;
    for charge in charges {
        least = least.min(charge.weight);
    }
    least
}

/// Takes the weight from each charge, and puts what is left of it behind the kept ones. The literals are returned.
pub(crate) fn take_weight<A: Allocator + Copy>(
    charges: &[Charge],
    weight: u64,
    kept: &mut Vec<Charge, A>,
) -> Result<VecDeque<Lit, A>, AllocError>
    requires { (c : Charge) → c ∈ charges.now → weight ≤ c.weight }
    ensures { IfOk result (λ pending. TakesWeight weight charges.now kept.old.items kept.new.items pending.items) }
{
    let mut pending = VecDeque::new(*kept.allocator());
    for charge in charges {
        if charge.weight > weight {
            kept.push(Charge {
                literal: charge.literal,
                weight: charge.weight - weight,
            })?;
        }
        pending.push_back(charge.literal)?;
    }
    Ok(pending)
}

/// Puts a charge behind the others, if it has a weight.
fn put_charge<A: Allocator + Copy>(
    list: &mut Vec<Charge, A>,
    literal: Lit,
    weight: u64,
) -> Result<(), AllocError>
    ensures { OnOk result (PutsCharge literal weight list.old.items list.new.items) }
{
    if weight == 0 {
        return Ok(());
    }
    list.push(Charge { literal, weight })?;
    Ok(())
}

/// What one digit of a weight comes to.
fn digit_of(weight: u64, unit: u64, radix: u64) -> u64
    ensures { result ≤ weight }
{
    if unit == 0 || radix == 0 {
        return weight;
    }
    (weight / unit % radix).saturating_mul(unit).min(weight)
}

/// Puts what one digit of each weight comes to behind the parts, and returns what is left of the charges.
fn take_digits<A: Allocator + Copy>(
    charges: &[Charge],
    unit: u64,
    radix: u64,
    parts: &mut Vec<Charge, A>,
) -> Result<Vec<Charge, A>, AllocError>
    ensures { IfOk result (λ rest. Divides charges.now parts.old.items parts.new.items rest.items) }
{
    let mut rest = Vec::new(*parts.allocator());
    for charge in charges {
        let part = digit_of(charge.weight, unit, radix);
        put_charge(parts, charge.literal, part)?;
        put_charge(&mut rest, charge.literal, charge.weight - part)?;
    }
    Ok(rest)
}

/// Divides the charges into one for each digit of their weights, those of the lowest digit first.
pub(crate) fn divide_digits<A: Allocator + Copy>(
    charges: &[Charge],
    radix: u64,
    alloc: A,
) -> Result<Vec<Charge, A>, AllocError>
    ensures { IfOk result (λ parts. (rest : List Charge) × Divides charges.now [] parts.items rest) }
{
    let mut parts = Vec::new(alloc);
    let mut rest = Vec::new(alloc);
    rest.extend_from_slice(charges)?;
    let mut unit: u64 = 1;
    'digits: for _ in 0..64 {
        rest = take_digits(&rest, unit, radix, &mut parts)?;
        unit = unit.saturating_mul(radix);
    }
    Ok(parts)
}

/// One charge in place of two of the same variable, and what is due in any case.
fn combined(first: &Charge, second: &Charge) -> Option<(Charge, u64)>
    ensures same { IfSome result
        (λ r. (a : Assignment) → due a first.now.literal first.now.weight + due a second.now.literal second.now.weight
        ≡ r.1 + due a r.0.literal r.0.weight) }
    ensures of { IfSome result (λ r. (r.0.literal ≡ first.now.literal) ⊎ (r.0.literal ≡ second.now.literal)) }
{
    if first.literal.code() == second.literal.code() {
        let weight = first.weight.checked_add(second.weight)?;
        let sum = Charge {
            literal: first.literal,
            weight,
        };
        return Some((sum, 0));
    }
    let opposite = !second.literal;
    if first.literal.code() != opposite.code() {
        return None;
    }
    if first.weight < second.weight {
        let left = Charge {
            literal: second.literal,
            weight: second.weight - first.weight,
        };
        return Some((left, first.weight));
    }
    let left = Charge {
        literal: first.literal,
        weight: first.weight - second.weight,
    };
    Some((left, second.weight))
}

/// Puts a charge behind the others, or in place of the last one if it is of the same variable. What is due in any case
/// is returned.
fn join_last<A: Allocator + Copy>(
    joined: &mut Vec<Charge, A>,
    charge: Charge,
) -> Result<u64, AllocError>
    ensures { IfOk result (λ k. Exchanges (joined.old.items ++ charge ∷ []) k joined.new.items) }
{
    let Some(last) = joined.pop() else {
        joined.push(charge)?;
        return Ok(0);
    };
    let Some((sum, due)) = combined(&last, &charge) else {
        joined.push(last)?;
        joined.push(charge)?;
        return Ok(0);
    };
    put_charge(joined, sum.literal, sum.weight)?;
    Ok(due)
}

/// Charges, and what is due in any case.
#[derive(Drop)]
pub(crate) struct Joined<A: Allocator + Copy> {
    pub charges: Vec<Charge, A>,
    pub due: u64,
}

/// Joins those that follow upon each other and are of the same variable.
fn join_neighbours<A: Allocator + Copy>(
    charges: &[Charge],
    alloc: A,
) -> Result<Joined<A>, MaxSatError>
    ensures { MatchResult result (λ j. Exchanges charges.now j.due j.charges.items) (λ e. e ≢ Ended) }
{
    let mut joined = Vec::new(alloc);
    let mut due: u64 = 0;
    for charge in charges {
        let more = join_last(&mut joined, *charge)?;
        due = raised(due, more)?;
    }
    Ok(Joined {
        charges: joined,
        due,
    })
}

/// Brings those of the same variable together.
fn sort_by_literal(charges: &mut [Charge])
    ensures { IsPermutation charges.old charges.new }
{
    charges.sort_unstable_by_key(|charge| charge.literal.code());
}

/// Joins those of the same variable.
pub(crate) fn join_equal<A: Allocator + Copy>(
    charges: &[Charge],
    alloc: A,
) -> Result<Joined<A>, MaxSatError>
    ensures { MatchResult result (λ j. Exchanges charges.now j.due j.charges.items) (λ e. e ≢ Ended) }
{
    let mut sorted = Vec::new(alloc);
    sorted.extend_from_slice(charges)?;
    sort_by_literal(&mut sorted);
    let joined = join_neighbours(&sorted, alloc)?;
    Ok(joined)
}

/// The bound and the weight.
pub(crate) fn raised(bound: u64, weight: u64) -> Result<u64, MaxSatError>
    ensures { MatchResult result (λ sum. sum ≡ bound + weight) (λ e. (e ≡ CostOverflow) × (2 ^ 64 ≤ bound + weight)) }
{
    match bound.checked_add(weight) {
        Some(sum) => Ok(sum),
        None => Err(MaxSatError::CostOverflow),
    }
}
