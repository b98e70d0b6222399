//! Clauses at places. A place is empty once its clause is deleted, so that places stay as they are.
ghost use Rattle.std.specs.Prelude.{◌≡◌, ℕ, length, MatchOption, Some, None, true, false};
ghost use Rattle.varisat_plain.specs.promises.Checking.{IsAbsent};
ghost use Rattle.varisat_theory.specs.promises.Held.{mentions, without};
ghost use Rattle.varisat_theory.specs.promises.Literals.{Clause};
ghost use Rattle.varisat_theory.specs.promises.Membership.{SameSet};
ghost use Rattle.varisat_present.specs.Places.{present, present_at};

use crate::clause::mentions;
use crate::sets::is_equal_set;
use std::alloc::Allocator;
use varisat_literals::{Lit, Var};

/// The clause at a place, if one is there.
pub fn clause_at<A: Allocator + Copy>(
    places: &[Option<Vec<Lit, A>>],
    place: usize,
) -> Option<&[Lit]>
    ensures { MatchOption result (present_at places.now place ≡ None) (λ c. present_at places.now place ≡ Some c.now) }
{
    if place >= places.len() {
        return None;
    }
    match &places[place] {
        None => None,
        Some(clause) => Some(clause.as_slice()),
    }
}

/// Whether a clause is at the place.
pub fn has_clause<A: Allocator + Copy>(places: &[Option<Vec<Lit, A>>], place: usize) -> bool
    ensures yes { result ≡ true → (c : Clause) × (present_at places.now place ≡ Some c) }
    ensures no { result ≡ false → present_at places.now place ≡ None }
{
    match clause_at(places, place) {
        None => false,
        Some(_) => true,
    }
}

/// Whether a clause that is equal as a set is at the place.
pub fn is_equal_at<A: Allocator + Copy>(
    alloc: A,
    places: &[Option<Vec<Lit, A>>],
    place: usize,
    clause: &[Lit],
) -> bool
    ensures yes { result ≡ true → (c : Clause) × (present_at places.now place ≡ Some c) × SameSet c clause.now }
    ensures no { result ≡ false → (c : Clause) → present_at places.now place ≡ Some c → SameSet c clause.now → ⊥ }
{
    match clause_at(places, place) {
        None => false,
        Some(held) => is_equal_set(alloc, held, clause),
    }
}

/// Whether a clause with a literal of the variable is at the place.
fn mentions_at<A: Allocator + Copy>(places: &[Option<Vec<Lit, A>>], place: usize, var: Var) -> bool
    ensures yes { result ≡ true → (c : Clause) × (present_at places.now place ≡ Some c) × (mentions var c ≡ true) }
    ensures no { result ≡ false → (c : Clause) → present_at places.now place ≡ Some c → mentions var c ≡ false }
{
    match clause_at(places, place) {
        None => false,
        Some(clause) => mentions(clause, var),
    }
}

/// The place of a clause that is equal as a set, looked for at all places.
pub fn find_place<A: Allocator + Copy>(
    alloc: A,
    places: &[Option<Vec<Lit, A>>],
    clause: &[Lit],
) -> Option<usize>
    ensures { MatchOption result (IsAbsent (present places.now) clause.now)
        (λ i. (c : Clause) × (present_at places.now i ≡ Some c) × SameSet c clause.now) }
{
    for place in 0..places.len() {
        if is_equal_at(alloc, places, place, clause) {
            return Some(place);
        }
    }
    None
}

/// Empties the places of the clauses with a literal of the variable.
pub fn drop_mentions<A: Allocator + Copy>(places: &mut [Option<Vec<Lit, A>>], var: Var)
    ensures dropped { present places.new ≡ without var (present places.old) }
    ensures stays { (i : ℕ) (c : Clause) → present_at places.new i ≡ Some c → present_at places.old i ≡ Some c }
{
    for place in 0..places.len() {
        if !mentions_at(places, place, var) {
            continue;
        }
        places[place] = None;
    }
}
