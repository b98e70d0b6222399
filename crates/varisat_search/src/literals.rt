//! Lists of literals.
ghost use Rattle.std.specs.Prelude.{◌≡◌, ℕ, [], ◌∷◌, List, IfOk, MatchOption};

use std::alloc::{AllocError, Allocator};
use varisat_literals::Lit;

/// The clause's first literal.
pub fn first_of(clause: &[Lit]) -> Option<Lit>
    ensures { MatchOption result (clause.now ≡ []) (λ l. (others : List ℕ) × (clause.now ≡ l ∷ others)) }
{
    clause.first().copied()
}

/// A copy of the list. Fails where it is out of memory.
pub fn copied<A: Allocator + Copy>(alloc: A, lits: &[Lit]) -> Result<Vec<Lit, A>, AllocError>
    ensures { IfOk result (λ copy. copy.items ≡ lits.now) }
{
    let mut copy = Vec::new(alloc);
    copy.extend_from_slice(lits)?;
    Ok(copy)
}
