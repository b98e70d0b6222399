//! Clauses in which no literal stands twice.
ghost use Rattle.std.specs.Prelude.{◌≡◌, ◌<◌, ◌≤◌, ◌^◌, ◌⊎◌, ◌++◌, ◌∷◌, [], true, false, length, map, IfOk, OnOk, IsTrue, MatchBool};
ghost use Rattle.varisat_theory.specs.promises.Membership.{SameSet, IsDistinct};
ghost use Rattle.varisat_theory.specs.promises.Literals.{Clause, variable_of};
ghost use Rattle.varisat_rules.specs.inside.Noting.{NotesPositions};
ghost use Rattle.varisat_theory.specs.promises.Searches.{IsTautology};

use std::alloc::{AllocError, Allocator};
use varisat_database::names::ShortNames;
use varisat_literals::Lit;
use varisat_rules::positions::{note, sign_by};
use varisat_rules::resolve::Sign;

/// A clause of more literals is taken as it is.
const MOST_LITERALS: usize = 1000;

/// A clause of more literals is read by the positions of its variables.
pub const MOST_SHORT: usize = 24;

/// Notes the position of the literal behind others, if theirs were noted.
fn note_if<A: Allocator + Copy>(
    is_noted: bool,
    positions: &mut [u32],
    names: &ShortNames<A>,
    lit: Lit,
    position: usize,
)
    requires { position < 2 ^ 32 }
    ensures { (c : Clause) → length c ≡ position → (is_noted ≡ true → NotesPositions names.now positions.old c) →
        is_noted ≡ true → NotesPositions names.now positions.new (c ++ lit ∷ []) }
{
    if !is_noted {
        return;
    }
    note(positions, names, lit, position);
}

/// Adds a literal behind the others, with its position if theirs were noted.
fn add_noted<A: Allocator + Copy>(
    is_noted: bool,
    out: &mut Vec<Lit, A>,
    lit: Lit,
    names: &ShortNames<A>,
    positions: &mut [u32],
) -> Result<(), AllocError>
    requires few { length out.old.items < 2 ^ 32 }
    requires noted { is_noted ≡ true → NotesPositions names.now positions.old out.old.items }
    ensures added { OnOk result (out.new.items ≡ out.old.items ++ lit ∷ []) }
    ensures noted { OnOk result (is_noted ≡ true → NotesPositions names.now positions.new out.new.items) }
{
    note_if(is_noted, positions, names, lit, out.len());
    out.push(lit)?;
    Ok(())
}

/// Whether each variable stands but once in the clause, or it is a long one. The positions are overwritten.
pub fn is_normal<A: Allocator + Copy>(
    clause: &[Lit],
    names: &ShortNames<A>,
    positions: &mut [u32],
) -> bool
    ensures { IsTrue result → IsDistinct (map variable_of clause.now) ⊎ (1000 < length clause.now) }
{
    if clause.len() > MOST_LITERALS {
        return true;
    }
    let is_noted = clause.len() > MOST_SHORT;
    for index in 0..clause.len() {
        let lit = clause[index];
        match sign_by(is_noted, &clause[..index], lit, names, positions) {
            Sign::Absent => {}
            Sign::Same => return false,
            Sign::Opposite => return false,
        }
        note_if(is_noted, positions, names, lit, index);
    }
    true
}

/// Each literal of the clause once, or false where it is a tautology. A long one is taken as it is. The positions are
/// overwritten.
pub fn normalize<A: Allocator + Copy>(
    clause: &[Lit],
    names: &ShortNames<A>,
    positions: &mut [u32],
    out: &mut Vec<Lit, A>,
) -> Result<bool, AllocError>
    ensures same { IfOk result (λ b. MatchBool b (SameSet clause.now out.new.items) (IsTautology clause.now)) }
    ensures once { IfOk result (λ b.
        IsTrue b → IsDistinct (map variable_of out.new.items) ⊎ (1000 < length clause.now)) }
    ensures fewer { IfOk result (λ b. IsTrue b → length out.new.items ≤ length clause.now) }
{
    out.clear();
    if clause.len() > MOST_LITERALS {
        out.extend_from_slice(clause)?;
        return Ok(true);
    }
    let is_noted = clause.len() > MOST_SHORT;
    for lit in clause {
        match sign_by(is_noted, out, *lit, names, positions) {
            Sign::Same => {}
            Sign::Opposite => return Ok(false),
            Sign::Absent => add_noted(is_noted, out, *lit, names, positions)?,
        }
    }
    Ok(true)
}
