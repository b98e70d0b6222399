//! One clause, under literals that are known to be true.
ghost use Rattle.std.specs.Prelude.{◌≡◌, ◌≢◌, ◌↔◌, ◌⊎◌, IsTrue, true, false, MatchOption, [], ◌∷◌};
ghost use Rattle.varisat_plain.specs.promises.Checking.{IsClauseStatus};
ghost use Rattle.varisat_theory.specs.promises.Held.{mentions};
ghost use Rattle.varisat_theory.specs.promises.Literals.{opposite};
ghost use Rattle.varisat_theory.specs.promises.Membership.{◌∈◌, ◌⊆◌, SameSet};
ghost use Rattle.varisat_theory.specs.promises.Propagation.{LeavesOnly, IsComplete};

use crate::known::Known;
use std::alloc::Allocator;
use varisat_literals::{Lit, Var};
use varisat_plain::propagation::ClauseStatus;

/// Whether the literal is one of the list.
pub fn holds(literals: &[Lit], literal: Lit) -> bool
    ensures { IsTrue result ↔ (literal ∈ literals.now) }
{
    for l in literals {
        if l.code() == literal.code() {
            return true;
        }
    }
    false
}

/// Whether each literal of the one clause is one of the other.
pub fn is_part(part: &[Lit], clause: &[Lit]) -> bool
    ensures { IsTrue result ↔ (part.now ⊆ clause.now) }
{
    for l in part {
        if !holds(clause, *l) {
            return false;
        }
    }
    true
}

/// Whether two clauses have the same literals.
pub fn is_same_set(one: &[Lit], other: &[Lit]) -> bool
    ensures { IsTrue result ↔ SameSet one.now other.now }
{
    is_part(one, other) && is_part(other, one)
}

/// Whether a literal of the clause is one of the variable.
pub fn mentions(clause: &[Lit], var: Var) -> bool
    ensures { result ≡ mentions var clause.now }
{
    for l in clause {
        if l.index() == var.index() {
            return true;
        }
    }
    false
}

/// Whether all literals of the clause, or all but one, are false.
pub fn status_of<A: Allocator + Copy>(known: &Known<A>, clause: &[Lit]) -> ClauseStatus
    ensures { IsClauseStatus known.now clause.now result }
{
    let mut left: Option<u32> = None;
    for l in clause {
        if !known.is_false(*l) {
            let code = l.code() as u32;
            match left {
                None => {
                    left = Some(code);
                }
                Some(m) => {
                    if m != code {
                        return ClauseStatus::Open;
                    }
                }
            }
        }
    }
    match left {
        None => ClauseStatus::False,
        Some(l) => ClauseStatus::Leaves(l),
    }
}

/// Whether nothing is to be propagated from the clause.
pub fn is_quiet<A: Allocator + Copy>(known: &Known<A>, clause: &[Lit]) -> bool
    ensures { result ≡ true → IsComplete (clause.now ∷ []) known.now }
{
    match status_of(known, clause) {
        ClauseStatus::False => false,
        ClauseStatus::Leaves(code) => known.holds(Lit::from_code(code as usize)),
        ClauseStatus::Open => true,
    }
}

/// Whether the literal is neither false nor the given one.
fn is_other<A: Allocator + Copy>(known: &Known<A>, literal: Lit, given: Lit) -> bool
    ensures yes { result ≡ true → (literal ≢ given) × (opposite literal ∈ known.now → ⊥) }
    ensures no { result ≡ false → (literal ≡ given) ⊎ (opposite literal ∈ known.now) }
{
    if known.is_false(literal) {
        return false;
    }
    if literal.code() == given.code() {
        return false;
    }
    true
}

/// A literal of the clause that is neither false nor the given one, if there is one.
pub fn find_other<A: Allocator + Copy>(
    known: &Known<A>,
    clause: &[Lit],
    literal: Lit,
) -> Option<Lit>
    ensures { MatchOption result (LeavesOnly known.now clause.now literal)
        (λ l. (l ∈ clause.now) × (l ≢ literal) × (opposite l ∈ known.now → ⊥)) }
{
    for l in clause {
        if is_other(known, *l, literal) {
            return Some(*l);
        }
    }
    None
}
