//! Stored clauses that are replaced by shorter ones. For each of them the line comes first (`trace_replaced`), then the
//! store (`replace_clause`); once all are replaced, the clauses of two literals (`add_pairs`) and the watch lists
//! (`mend_lists`) follow.
ghost use Rattle.std.specs.Prelude.{◌≡◌, ◌≤◌, ◌++◌, length, drop, OnOk, IfOk, OnErr};
ghost use Rattle.varisat_theory.specs.promises.Membership.{◌∈◌};
ghost use Rattle.varisat_theory.specs.promises.Literals.{Clause};
ghost use Rattle.varisat_clause.specs.Stored.{IsClauseRef, literals_at};
ghost use Rattle.varisat_clause.specs.Stores.{stored_clauses, IsSound, HoldsClauses};
ghost use Rattle.varisat_search.specs.Simplifications.{with_shortened, with_pairs, IsPairIn, ReplacesClause};

use std::alloc::{AllocError, Allocator};
use varisat_clause::alloc::{ClauseAlloc, ClauseRef};
use varisat_literals::Lit;
use varisat_prop::binary::BinaryClauses;

/// Writes the literals over the first ones.
fn write_front(lits: &mut [Lit], front: &[Lit])
    requires { length front.now ≤ length lits.old }
    ensures { lits.new ≡ front.now ++ drop (length front.now) lits.old }
{
    lits[..front.len()].copy_from_slice(front);
}

/// Leaves these literals of the clause, three or more. The words of the others become a gap.
fn shrink<A: Allocator + Copy>(alloc: &mut ClauseAlloc<A>, cref: ClauseRef, left: &[Lit])
    requires sound { IsSound alloc.old }
    requires place { IsClauseRef (stored_clauses alloc.old) cref }
    requires least { 3 ≤ length left.now }
    requires most { length left.now ≤ length (literals_at (stored_clauses alloc.old) cref) }
    ensures { HoldsClauses alloc.new (length alloc.old.words)
        (with_shortened (stored_clauses alloc.old) cref left.now) }
{
    write_front(alloc.lits_mut(cref), left);
    alloc.shorten(cref, left.len());
}

/// Replaces the clause by a shorter one of two literals or more. Returns whether that stays in the store, at the place
/// of the longer one: a clause of two literals joins `pairs`, and the longer one is to be deleted.
pub fn replace_clause<A: Allocator + Copy>(
    alloc: &mut ClauseAlloc<A>,
    cref: ClauseRef,
    shorter: &[Lit],
    pairs: &mut Vec<[Lit; 2], A>,
) -> Result<bool, AllocError>
    requires sound { IsSound alloc.old }
    requires place { IsClauseRef (stored_clauses alloc.old) cref }
    requires least { 2 ≤ length shorter.now }
    requires most { length shorter.now ≤ length (literals_at (stored_clauses alloc.old) cref) }
    ensures replaced { IfOk result
        (λ stays. ReplacesClause shorter.now cref alloc.old alloc.new pairs.old.items pairs.new.items stays) }
    ensures refused { OnErr result (alloc.new ≡ alloc.old) }
{
    if shorter.len() == 2 {
        pairs.push([shorter[0], shorter[1]])?;
        return Ok(false);
    }
    shrink(alloc, cref, shorter);
    Ok(true)
}

/// Keeps the clauses of two literals.
pub fn add_pairs<A: Allocator + Copy>(
    binary_clauses: &mut BinaryClauses<A>,
    pairs: &[[Lit; 2]],
) -> Result<(), AllocError>
    requires { (c : Clause) → c ∈ pairs.now → IsPairIn binary_clauses.old c }
    ensures { OnOk result (binary_clauses.new ≡ with_pairs binary_clauses.old pairs.now) }
{
    for pair in pairs {
        binary_clauses.add_binary_clause(*pair)?;
    }
    Ok(())
}
