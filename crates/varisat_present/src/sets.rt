//! Lists of literals as sets. Marks find a literal without a look at the whole list, so that long lists are compared in
//! proportion to their lengths.
ghost use Rattle.std.specs.Prelude.{◌≡◌, ◌↔◌, [], IsTrue, IfOk, OnOk};
ghost use Rattle.varisat_theory.specs.promises.Membership.{◌⊆◌, SameSet};

use crate::clause::is_same_set;
use crate::known::Known;
use std::alloc::{AllocError, Allocator};
use varisat_literals::Lit;

/// Lists of fewer literals are compared without marks, which take memory.
const FEW: usize = 256;

/// Whether all of the literals are marked.
pub fn are_marked<A: Allocator + Copy>(marks: &Known<A>, literals: &[Lit]) -> bool
    ensures { IsTrue result ↔ (literals.now ⊆ marks.now) }
{
    for l in literals {
        if !marks.holds(*l) {
            return false;
        }
    }
    true
}

/// Marks the literals, where none is marked.
pub fn mark_all<A: Allocator + Copy>(
    marks: &mut Known<A>,
    literals: &[Lit],
) -> Result<(), AllocError>
    requires { marks.old ≡ [] }
    ensures { OnOk result (SameSet marks.new literals.now) }
{
    for l in literals {
        if marks.holds(*l) {
            continue;
        }
        marks.push(*l)?;
    }
    Ok(())
}

/// Whether the literals of the one list are all among those of the other.
fn is_part_by_marks<A: Allocator + Copy>(
    alloc: A,
    part: &[Lit],
    list: &[Lit],
) -> Result<bool, AllocError>
    ensures { IfOk result (λ found. IsTrue found ↔ (part.now ⊆ list.now)) }
{
    let mut marks = Known::new_in(alloc);
    mark_all(&mut marks, list)?;
    Ok(are_marked(&marks, part))
}

/// Whether both lists have the same literals.
fn is_same_by_marks<A: Allocator + Copy>(
    alloc: A,
    one: &[Lit],
    other: &[Lit],
) -> Result<bool, AllocError>
    ensures { IfOk result (λ found. IsTrue found ↔ SameSet one.now other.now) }
{
    let is_within = is_part_by_marks(alloc, one, other)?;
    if !is_within {
        return Ok(false);
    }
    let found = is_part_by_marks(alloc, other, one)?;
    Ok(found)
}

/// Whether both lists have the same literals. Where there is no memory for marks each literal is looked for in the list.
pub fn is_equal_set<A: Allocator + Copy>(alloc: A, one: &[Lit], other: &[Lit]) -> bool
    ensures { IsTrue result ↔ SameSet one.now other.now }
{
    if one.len() < FEW {
        return is_same_set(one, other);
    }
    match is_same_by_marks(alloc, one, other) {
        Ok(found) => found,
        Err(_) => is_same_set(one, other),
    }
}
