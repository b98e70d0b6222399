//! For each place two literals of its clause. As long as they tell that nothing is to be propagated from the clause a pass over
//! all clauses need not look at it.
ghost use Rattle.std.specs.Prelude.{◌≡◌, ◌≢◌, true, MatchOption};
ghost use Rattle.varisat_theory.specs.promises.Literals.{opposite};
ghost use Rattle.varisat_theory.specs.promises.Membership.{◌∈◌};
ghost use Rattle.varisat_present.specs.Pairs.{IsLiteralAt, HaveLiterals, IsQuietPair, IsQuietAt};

use crate::clause::find_other;
use crate::known::Known;
use crate::places::clause_at;
use std::alloc::{AllocError, Allocator};
use varisat_literals::Lit;

/// Whether the literals are different and neither is false.
fn are_free<A: Allocator + Copy>(known: &Known<A>, one: Lit, other: Lit) -> bool
    ensures { result ≡ true → (one ≢ other) × (opposite one ∈ known.now → ⊥) × (opposite other ∈ known.now → ⊥) }
{
    if known.is_false(one) {
        return false;
    }
    if known.is_false(other) {
        return false;
    }
    if one.code() == other.code() {
        return false;
    }
    true
}

/// Whether nothing is to be propagated from a clause that has both literals.
fn is_quiet_pair<A: Allocator + Copy>(known: &Known<A>, one: Lit, other: Lit) -> bool
    ensures { result ≡ true → IsQuietPair known.now one other }
{
    if are_free(known, one, other) {
        return true;
    }
    known.holds(one)
}

/// Whether the literals for the place tell that nothing is to be propagated from its clause.
pub fn is_quiet_at<A: Allocator + Copy>(
    known: &Known<A>,
    ones: &[Lit],
    others: &[Lit],
    place: usize,
) -> bool
    ensures { result ≡ true → IsQuietAt known.now ones.now others.now place }
{
    if place >= ones.len() || place >= others.len() {
        return false;
    }
    is_quiet_pair(known, ones[place], others[place])
}

/// A literal of the clause at the place, if it has one: if possible neither the given one nor a false one.
fn literal_at<A: Allocator + Copy>(
    places: &[Option<Vec<Lit, A>>],
    place: usize,
    known: &Known<A>,
    given: Lit,
) -> Option<Lit>
    ensures { MatchOption result (Unit {0}) (λ l. IsLiteralAt places.now place l) }
{
    let clause = match clause_at(places, place) {
        None => return Some(given),
        Some(clause) => clause,
    };
    match find_other(known, clause, given) {
        Some(free) => Some(free),
        None => {
            if clause.is_empty() {
                return None;
            }
            Some(clause[0])
        }
    }
}

/// The literal for the place, or the first one of all.
fn given_at(given: &[Lit], place: usize) -> Lit {
    if place < given.len() {
        return given[place];
    }
    Lit::from_code(0)
}

/// Lists for each place a literal of its clause, up to an empty clause: if possible neither the given one nor a false one.
pub fn list_literals<A: Allocator + Copy>(
    places: &[Option<Vec<Lit, A>>],
    known: &Known<A>,
    given: &[Lit],
    list: &mut Vec<Lit, A>,
) -> Result<(), AllocError>
    ensures { HaveLiterals places.now list.new.items }
{
    list.clear();
    for place in 0..places.len() {
        match literal_at(places, place, known, given_at(given, place)) {
            None => return Ok(()),
            Some(literal) => {
                list.push(literal)?;
            }
        }
    }
    Ok(())
}
