//! What two clauses say of one another.
ghost use Rattle.std.specs.Prelude.{◌≡◌, ◌↔◌, true, false, IsTrue, IfOk, OnOk, MatchBool};
ghost use Rattle.varisat_theory.specs.promises.Literals.{opposite};
ghost use Rattle.varisat_theory.specs.promises.Membership.{◌∈◌};
ghost use Rattle.varisat_rules.specs.inside.Noting.{NotesPositions};
ghost use Rattle.varisat_rules.specs.inside.Resolving.{OccursAs, Relates, LeavesOut, Resolves, Clashes};

use crate::positions::sign_by;
use std::alloc::{AllocError, Allocator};
use varisat_database::names::ShortNames;
use varisat_literals::Lit;

/// How a literal occurs in a clause.
#[derive(Clone, Copy)]
pub enum Sign {
    /// The clause has neither it nor its opposite.
    Absent,
    /// The clause has it.
    Same,
    /// The clause has its opposite.
    Opposite,
}

/// How the literal stands in the clause, by the first of its variable.
pub fn sign_of(clause: &[Lit], lit: Lit) -> Sign
    ensures { OccursAs clause.now lit result }
{
    for other in clause {
        if other.index() == lit.index() {
            if other.code() == lit.code() {
                return Sign::Same;
            }
            return Sign::Opposite;
        }
    }
    Sign::Absent
}

/// Whether the clause has the literal.
pub fn holds(clause: &[Lit], lit: Lit) -> bool
    ensures { IsTrue result ↔ (lit ∈ clause.now) }
{
    for other in clause {
        if other.code() == lit.code() {
            return true;
        }
    }
    false
}

/// What one clause makes of another.
#[derive(Clone, Copy)]
pub enum Relation {
    /// Nothing.
    Nothing,
    /// It is a part of it.
    Subsumes,
    /// By this literal it takes the opposite from it.
    Strengthens(Lit),
}

/// What the first clause makes of the second, by the positions in that if they were noted.
pub fn relation_of<A: Allocator + Copy>(
    clause: &[Lit],
    other: &[Lit],
    is_noted: bool,
    names: &ShortNames<A>,
    positions: &[u32],
) -> Relation
    requires { is_noted ≡ true → NotesPositions names.now positions.now other.now }
    ensures { Relates clause.now other.now result }
{
    let mut flipped: Option<Lit> = None;
    for lit in clause {
        match sign_by(is_noted, other, *lit, names, positions) {
            Sign::Absent => return Relation::Nothing,
            Sign::Same => {}
            Sign::Opposite => {
                if flipped.is_some() {
                    return Relation::Nothing;
                }
                flipped = Some(*lit);
            }
        }
    }
    match flipped {
        None => Relation::Subsumes,
        Some(lit) => {
            if holds(clause, !lit) {
                return Relation::Nothing;
            }
            Relation::Strengthens(lit)
        }
    }
}

/// The literals of the clause but for one.
pub fn without<A: Allocator + Copy>(
    clause: &[Lit],
    lit: Lit,
    out: &mut Vec<Lit, A>,
) -> Result<(), AllocError>
    ensures { OnOk result (LeavesOut clause.now lit out.new.items) }
{
    out.clear();
    for other in clause {
        if other.code() != lit.code() {
            out.push(*other)?;
        }
    }
    Ok(())
}

/// The resolvent of a clause with the literal and one with its opposite, or false where it is a tautology.
pub fn resolve<A: Allocator + Copy>(
    clause: &[Lit],
    other: &[Lit],
    lit: Lit,
    out: &mut Vec<Lit, A>,
) -> Result<bool, AllocError>
    ensures { IfOk result
        (λ b. MatchBool b (Resolves clause.now other.now lit out.new.items) (Clashes clause.now other.now lit)) }
{
    without(other, !lit, out)?;
    for one in clause {
        if one.code() != lit.code() {
            match sign_of(other, *one) {
                Sign::Same => {}
                Sign::Opposite => return Ok(false),
                Sign::Absent => out.push(*one)?,
            }
        }
    }
    Ok(true)
}
