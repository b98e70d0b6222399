//! Which variables are resolved away.
ghost use Rattle.std.specs.Prelude.{OnOk};
ghost use Rattle.varisat_rules.specs.inside.States.{IsLaterState};

use crate::limits::Limits;
use std::alloc::{AllocError, Allocator};
use varisat_database::database::Database;
use varisat_literals::{Lit, Var};
use varisat_rules::eliminate::{collect, may_go, resolve_away};
use varisat_rules::resolve::{Sign, sign_of};

/// A variable stays whose longest clauses of each sign have more literals.
const MOST_LENGTH: usize = 200;

/// The lists that an elimination uses.
#[derive(Drop)]
pub struct Scratch<A: Allocator + Copy> {
    pub literals: Vec<Lit, A>,
    pub with: Vec<u32, A>,
    pub against: Vec<u32, A>,
    /// Where the literals of a long clause stand, by short names.
    pub positions: Vec<u32, A>,
}

/// How many literals the live clauses have with the literal, or none if one of them is too long to be resolved.
fn literals_with<A: Allocator + Copy>(db: &Database<A>, lit: Lit) -> Option<u64> {
    let mut count: u64 = 0;
    for place in db.places(lit)? {
        if db.is_live(*place as usize) {
            let length = db.clause(*place as usize).len();
            if length > MOST_LENGTH {
                return None;
            }
            count = count.saturating_add(length as u64);
        }
    }
    Some(count)
}

/// How many pairs of literals are looked at, at most, to resolve the clauses of the literal's variable; or none if one
/// of them is too long to be resolved.
fn pairs_of<A: Allocator + Copy>(db: &Database<A>, lit: Lit) -> Option<u64> {
    let with = literals_with(db, lit)?;
    let against = literals_with(db, !lit)?;
    Some(
        with.saturating_add(1)
            .saturating_mul(against.saturating_add(1)),
    )
}

/// Takes the work off the limits that resolving the literal's variable away may take. Returns whether it may be tried.
fn is_within<A: Allocator + Copy>(db: &Database<A>, lit: Lit, limits: &mut Limits) -> bool {
    if limits.are_reached(db) {
        return false;
    }
    match pairs_of(db, lit) {
        Some(pairs) => limits.resolve(pairs),
        None => false,
    }
}

/// The most literals of a clause at the places.
fn longest<A: Allocator + Copy>(db: &Database<A>, places: &[u32]) -> usize {
    let mut most: usize = 0;
    for place in places {
        most = most.max(db.clause(*place as usize).len());
    }
    most
}

/// How many literals the resolvent has, or none if it is a tautology.
fn resolvent_length(clause: &[Lit], other: &[Lit], lit: Lit) -> Option<usize> {
    let mut length = other.len().saturating_sub(1);
    for one in clause {
        if one.code() != lit.code() {
            match sign_of(other, *one) {
                Sign::Same => {}
                Sign::Opposite => return None,
                Sign::Absent => length = length.saturating_add(1),
            }
        }
    }
    Some(length)
}

/// How many literals the clauses at the places have.
fn literals_at<A: Allocator + Copy>(db: &Database<A>, places: &[u32]) -> u64 {
    let mut sum: u64 = 0;
    for place in places {
        sum = sum.saturating_add(db.clause(*place as usize).len() as u64);
    }
    sum
}

/// How many literals the resolvents have, if they are few and short enough.
fn literals_of_resolvents<A: Allocator + Copy>(
    db: &Database<A>,
    lit: Lit,
    with: &[u32],
    against: &[u32],
    most: usize,
    limits: &Limits,
) -> Option<u64> {
    let mut count: usize = 0;
    let mut sum: u64 = 0;
    for one in with {
        for other in against {
            if let Some(length) = resolvent_length(
                db.clause(*one as usize),
                db.clause(*other as usize),
                lit,
            ) {
                count = count.saturating_add(1);
                if count > most || length > limits.resolvent_literals {
                    return None;
                }
                sum = sum.saturating_add(length as u64);
            }
        }
    }
    Some(sum)
}

/// Whether the resolvents are few and short enough, and there is room for them in place of so many literals.
fn is_worth<A: Allocator + Copy>(
    db: &Database<A>,
    lit: Lit,
    with: &[u32],
    against: &[u32],
    before: u64,
    limits: &Limits,
) -> bool {
    let most = with
        .len()
        .saturating_add(against.len())
        .saturating_sub(limits.fewer_clauses);
    let length = longest(db, with).saturating_add(longest(db, against));
    if length > MOST_LENGTH {
        return false;
    }
    let pairs = with.len().saturating_mul(against.len());
    let is_small = pairs <= most && length <= limits.resolvent_literals;
    if is_small && limits.has_room(before, pairs.saturating_mul(length) as u64) {
        return true;
    }
    match literals_of_resolvents(db, lit, with, against, most, limits) {
        Some(after) => limits.has_room(before, after),
        None => false,
    }
}

/// Resolves the literal's variable away where that is worth it. The literal stands in no more clauses than its
/// opposite.
fn eliminate_by<A: Allocator + Copy>(
    db: &mut Database<A>,
    lit: Lit,
    limits: &mut Limits,
    scratch: &mut Scratch<A>,
) -> Result<bool, AllocError>
    ensures { OnOk result (IsLaterState db.old db.new) }
{
    if !may_go(db, lit) {
        return Ok(false);
    }
    db.tidy(lit);
    db.tidy(!lit);
    if !is_within(db, lit, limits) {
        return Ok(false);
    }
    let Scratch {
        literals,
        with,
        against,
        ..
    } = scratch;
    if !collect(db, lit, with)? || !collect(db, !lit, against)? {
        return Ok(false);
    }
    let before = literals_at(db, with).saturating_add(literals_at(db, against));
    if !is_worth(db, lit, with, against, before, limits) {
        return Ok(false);
    }
    let count = db.literal_count();
    resolve_away(db, lit, with, against, literals)?;
    limits.replace(before, db.literal_count().saturating_sub(count) as u64);
    Ok(true)
}

/// Resolves the variable away where that is worth it.
pub fn eliminate<A: Allocator + Copy>(
    db: &mut Database<A>,
    var: Var,
    limits: &mut Limits,
    scratch: &mut Scratch<A>,
) -> Result<bool, AllocError>
    ensures { OnOk result (IsLaterState db.old db.new) }
{
    let positive = var.positive();
    let negative = var.negative();
    let with = db.count(positive);
    let against = db.count(negative);
    limits.spend(
        (with as u64)
            .saturating_add(against as u64)
            .saturating_add(1),
    );
    let lit = if with <= against { positive } else { negative };
    let done = eliminate_by(db, lit, limits, scratch)?;
    Ok(done)
}
