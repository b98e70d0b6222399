//! The literals of a clause: copies of them, each once, and whether the clause is true by its form or by one of them.
ghost use Rattle.std.specs.Prelude.{◌≡◌, ◌<◌, length, slice_index_or, false, OnOk, IfOk, IsTrue, ◌↔◌};
ghost use Rattle.varisat_theory.specs.promises.Membership.{◌∈◌, SameSet, IsDistinct};
ghost use Rattle.varisat_theory.specs.promises.Literals.{Literal, opposite};
ghost use Rattle.varisat_theory.specs.promises.Searches.{IsTautology};
ghost use Rattle.varisat_prop.specs.Parts.{IsMadeTrue};
ghost use Rattle.varisat_prop.specs.Looks.{IsInRange};
ghost use Rattle.varisat_analysis.specs.Flags.{AreFlagged};

use std::alloc::{AllocError, Allocator};
use varisat_literals::Lit;
use varisat_prop::prop::Assignment;

/// Copies the clause's literals, each once, and flags those that were copied. Returns whether one of them is another's
/// opposite.
fn copy_distinct<A: Allocator + Copy>(
    lits: &mut Vec<Lit, A>,
    flags: &mut [bool],
    clause: &[Lit],
) -> Result<bool, AllocError>
    requires clear { (l : Literal) → slice_index_or flags.old l false ≡ false }
    requires known { (l : Literal) → l ∈ clause.now → (l < length flags.old) × (opposite l < length flags.old) }
    ensures distinct { OnOk result (IsDistinct lits.new.items) }
    ensures same { OnOk result (SameSet lits.new.items clause.now) }
    ensures tautology { IfOk result (λ found. IsTrue found ↔ IsTautology lits.new.items) }
    ensures flagged { AreFlagged flags.new lits.new.items }
{
    lits.clear();
    let mut found = false;
    for lit in clause {
        if flags[lit.code()] {
            continue;
        }
        lits.push(*lit)?;
        flags[lit.code()] = true;
        let opposite = !*lit;
        found |= flags[opposite.code()];
    }
    Ok(found)
}

/// Takes the flags of the literals away, which are all that are set.
fn clear_flagged(flags: &mut [bool], lits: &[Lit])
    requires { AreFlagged flags.old lits.now }
    ensures { (l : Literal) → slice_index_or flags.new l false ≡ false }
{
    for lit in lits {
        flags[lit.code()] = false;
    }
}

/// Copies the clause's literals, each once. Returns whether one of them is another's opposite. The flags say what was
/// copied already, so that a long clause takes time in proportion to its length; all are false again at the end.
pub fn collect_flagged<A: Allocator + Copy>(
    lits: &mut Vec<Lit, A>,
    flags: &mut [bool],
    clause: &[Lit],
) -> Result<bool, AllocError>
    requires clear { (l : Literal) → slice_index_or flags.old l false ≡ false }
    requires known { (l : Literal) → l ∈ clause.now → (l < length flags.old) × (opposite l < length flags.old) }
    ensures distinct { OnOk result (IsDistinct lits.new.items) }
    ensures same { OnOk result (SameSet lits.new.items clause.now) }
    ensures tautology { IfOk result (λ found. IsTrue found ↔ IsTautology lits.new.items) }
    ensures clear { (l : Literal) → slice_index_or flags.new l false ≡ false }
{
    match copy_distinct(lits, flags, clause) {
        Ok(found) => {
            clear_flagged(flags, lits);
            Ok(found)
        }
        Err(error) => {
            clear_flagged(flags, lits);
            Err(error)
        }
    }
}

/// Whether a literal of the clause is true.
pub fn is_satisfied<A: Allocator + Copy>(assignment: &Assignment<A>, lits: &[Lit]) -> bool
    requires { IsInRange assignment.now.current lits.now }
    ensures { IsTrue result ↔ ((l : Literal) × (l ∈ lits.now) × IsMadeTrue assignment.now.current l) }
{
    for lit in lits {
        if assignment.lit_is_true(*lit) {
            return true;
        }
    }
    false
}
