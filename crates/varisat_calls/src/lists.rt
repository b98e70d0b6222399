//! Lists of numbers: those of clauses, of flags and of values.
ghost use Rattle.std.specs.Prelude.{◌≡◌, ◌≢◌, ◌<◌, ◌≤◌, ◌^◌, ◌++◌, ◌∷◌, ◌↔◌, ℕ, [], pos, false, true, length, IsTrue, slice_index_or, OnOk, OnErr};
ghost use Rattle.varisat_calls.specs.Numbers.{returned_numbers};
ghost use Rattle.varisat_calls.specs.Lists.{AreWithinLimit, clause_numbers, value_numbers};

use crate::numbers::list_numbers;
use std::alloc::{AllocError, Allocator};
use varisat_formula::formula::CnfFormula;
use varisat_formula::values::literals_of;
use varisat_literals::{Lit, Var};

/// Whether all variables are below the limit that a solver has.
pub fn are_in_range(literals: &[Lit]) -> bool
    ensures { IsTrue result ↔ AreWithinLimit literals.now }
{
    literals.iter().all(|lit| lit.index() < Var::max_count())
}

/// Puts the numbers of the clause and a 0 behind the list, by way of the piece.
fn put_clause<A: Allocator + Copy>(
    list: &mut Vec<i32, A>,
    piece: &mut Vec<i32, A>,
    clause: &[Lit],
) -> Result<(), AllocError>
    ensures { OnOk result (list.new.items ≡ list.old.items ++ (returned_numbers clause.now ++ pos 0 ∷ [])) }
{
    list_numbers(piece, clause)?;
    piece.push(0)?;
    list.extend_from_slice(piece)?;
    Ok(())
}

/// Puts the numbers of the clauses, each of which a 0 ends, in place of those before.
pub fn list_clauses<A: Allocator + Copy>(
    alloc: A,
    list: &mut Vec<i32, A>,
    formula: &CnfFormula<A>,
) -> Result<(), AllocError>
    ensures { OnOk result (list.new.items ≡ clause_numbers formula.now.clauses) }
{
    list.clear();
    let mut piece = Vec::new(alloc);
    for clause in formula.iter() {
        put_clause(list, &mut piece, clause)?;
    }
    Ok(())
}

/// Puts the numbers of the variables, negative where they are false, in place of those before.
pub fn list_values<A: Allocator + Copy>(
    alloc: A,
    list: &mut Vec<i32, A>,
    values: &[bool],
) -> Result<(), AllocError>
    requires { length values.now ≤ 2 ^ 31 }
    ensures { OnOk result (list.new.items ≡ value_numbers values.now) }
{
    let literals = literals_of(alloc, values)?;
    list_numbers(list, &literals)?;
    Ok(())
}

/// Flags the place, for which the list grows where that is due. A refused growth changes nothing.
pub fn flag<A: Allocator + Copy>(flags: &mut Vec<bool, A>, place: usize) -> Result<(), AllocError>
    requires { place < 2 ^ 31 }
    ensures flagged { OnOk result (slice_index_or flags.new.items place false ≡ true) }
    ensures others { OnOk result
        ((k : ℕ) → k ≢ place → slice_index_or flags.new.items k false ≡ slice_index_or flags.old.items k false) }
    ensures refused { OnErr result (flags.new.items ≡ flags.old.items) }
{
    if place >= flags.len() {
        flags.resize(place + 1, false)?;
    }
    flags[place] = true;
    Ok(())
}
