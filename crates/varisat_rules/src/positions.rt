//! Where the literals of a long clause stand in it, so that each is found at once.
ghost use Rattle.std.specs.Prelude.{◌≡◌, ◌/◌, ◌<◌, ◌^◌, true, length, slice_index_or, slice_set};
ghost use Rattle.varisat_database.specs.Names.{short_of};
ghost use Rattle.varisat_rules.specs.inside.Resolving.{OccursAs};
ghost use Rattle.varisat_rules.specs.inside.Noting.{NotesPositions};

use crate::resolve::{Sign, sign_of};
use std::alloc::Allocator;
use varisat_database::names::ShortNames;
use varisat_literals::Lit;

/// Notes where the literal stands, under its variable's short name.
pub fn note<A: Allocator + Copy>(
    positions: &mut [u32],
    names: &ShortNames<A>,
    lit: Lit,
    position: usize,
)
    requires { position < 2 ^ 32 }
    ensures { positions.new ≡ slice_set positions.old (short_of names.now lit / 2) position }
{
    let short = names.of(lit).index();
    if short < positions.len() {
        positions[short] = position as u32;
    }
}

/// Notes where each literal of the clause stands.
pub fn note_all<A: Allocator + Copy>(positions: &mut [u32], names: &ShortNames<A>, clause: &[Lit])
    requires { length clause.now < 2 ^ 32 }
    ensures { NotesPositions names.now positions.new clause.now }
{
    for index in 0..clause.len() {
        note(positions, names, clause[index], index);
    }
}

/// The position that was noted for the short name.
fn position_at(positions: &[u32], short: usize) -> usize
    requires { short < length positions.now }
    ensures { result ≡ slice_index_or positions.now short 0 }
{
    positions[short] as usize
}

/// How the literal stands in the clause, by the position that was noted.
fn sign_noted<A: Allocator + Copy>(
    clause: &[Lit],
    lit: Lit,
    names: &ShortNames<A>,
    positions: &[u32],
) -> Sign
    requires { NotesPositions names.now positions.now clause.now }
    ensures { OccursAs clause.now lit result }
{
    let short = names.of(lit).index();
    if short >= positions.len() {
        return sign_of(clause, lit);
    }
    let position = position_at(positions, short);
    if position >= clause.len() {
        return Sign::Absent;
    }
    let other = clause[position];
    if names.of(other).index() != short {
        return Sign::Absent;
    }
    if other.index() != lit.index() {
        return sign_of(clause, lit);
    }
    if other.code() == lit.code() {
        return Sign::Same;
    }
    Sign::Opposite
}

/// How the literal stands in the clause, by the positions if they were noted.
pub fn sign_by<A: Allocator + Copy>(
    is_noted: bool,
    clause: &[Lit],
    lit: Lit,
    names: &ShortNames<A>,
    positions: &[u32],
) -> Sign
    requires { is_noted ≡ true → NotesPositions names.now positions.now clause.now }
    ensures { OccursAs clause.now lit result }
{
    if is_noted {
        return sign_noted(clause, lit, names, positions);
    }
    sign_of(clause, lit)
}
