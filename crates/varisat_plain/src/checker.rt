//! A plain checker of proof lines: it keeps the present clauses in a list, and propagates anew for each line.
ghost use Rattle.std.specs.Prelude.{◌≡◌, ◌↔◌, map, IfOk, IsTrue, MatchOption, true, false};
ghost use Rattle.varisat_plain.specs.promises.Checking.{IsAbsent, IsPlaceOf, IsPlainLineStatus, IsVerdict, clause_lists, line_of};
ghost use Rattle.varisat_theory.specs.promises.Derivations.{TakesOut};
ghost use Rattle.varisat_theory.specs.promises.Membership.{◌⊆◌, SameSet};

use crate::propagation::{conflicts, follows, holds};
use std::alloc::{AllocError, Global};

/// A line of a proof, which adds a clause or deletes one.
#[derive(Drop)]
pub enum PlainLine {
    /// The clause, as codes of literals, joins those that are present.
    Adds(Vec<u32>),
    /// One present clause that is equal as a set leaves.
    Deletes(Vec<u32>),
}

/// What becomes of a line.
#[derive(Clone, Copy)]
pub enum LineStatus {
    /// The present clauses are those after it.
    Taken,
    /// It adds a clause that does not follow.
    Unproved,
    /// It deletes a clause that is not present.
    Absent,
}

/// What a list of lines is. Wrong lines are numbered from 1.
#[derive(Clone, Copy, Debug, PartialEq, Eq)]
pub enum PlainVerdict {
    /// Some beginning is a derivation, after which propagation conflicts.
    Refutation,
    /// All lines are a derivation, and none of its beginnings refutes.
    Derivation,
    /// The first wrong line adds a clause that does not follow.
    DoesNotFollow(usize),
    /// The first wrong line deletes a clause that is not present.
    DeletesNothing(usize),
}

/// Whether each literal of the one clause is one of the other.
fn is_part(part: &[u32], clause: &[u32]) -> bool
    ensures { IsTrue result ↔ (part.now ⊆ clause.now) }
{
    for l in part {
        if !holds(clause, *l) {
            return false;
        }
    }
    true
}

/// Whether two clauses have the same literals.
fn is_same_set(one: &[u32], other: &[u32]) -> bool
    ensures { IsTrue result ↔ SameSet one.now other.now }
{
    is_part(one, other) && is_part(other, one)
}

/// The place of a present clause that is equal as a set.
fn place_of(present: &[Vec<u32>], clause: &[u32]) -> Option<usize>
    ensures { MatchOption result (IsAbsent (clause_lists present.now) clause.now) (IsPlaceOf present.now clause.now) }
{
    for (i, held) in present.iter().enumerate() {
        if is_same_set(held, clause) {
            return Some(i);
        }
    }
    None
}

/// Takes out one present clause that is equal as a set, or returns false where there is none.
fn take_out(present: &mut Vec<Vec<u32>>, clause: &[u32]) -> bool
    ensures taken { result ≡ true →
        TakesOut (clause_lists present.old.items) clause.now (clause_lists present.new.items) }
    ensures absent { result ≡ false → IsAbsent (clause_lists present.old.items) clause.now }
{
    match place_of(present, clause) {
        None => false,
        Some(i) => {
            // One copy leaves; others that are equal as sets stay.
            let _ = present.remove(i);
            true
        }
    }
}

/// Takes a line, if it follows or names a present clause.
fn take_line(
    alloc: Global,
    present: &mut Vec<Vec<u32>>,
    line: &PlainLine,
) -> Result<LineStatus, AllocError>
    ensures { IfOk result
        (λ status.
        IsPlainLineStatus (clause_lists present.old.items) (line_of line.now) status (clause_lists present.new.items)) }
{
    match line {
        PlainLine::Adds(clause) => {
            // It has to follow before it joins: a clause follows from itself.
            if !follows(alloc, present, clause)? {
                return Ok(LineStatus::Unproved);
            }
            present.push(Vec::from_slice(alloc, clause)?)?;
            Ok(LineStatus::Taken)
        }
        PlainLine::Deletes(clause) => {
            if !take_out(present, clause) {
                return Ok(LineStatus::Absent);
            }
            Ok(LineStatus::Taken)
        }
    }
}

/// Copies of the clauses.
fn copies(alloc: Global, clauses: &[Vec<u32>]) -> Result<Vec<Vec<u32>>, AllocError>
    ensures { IfOk result (λ made. clause_lists made.items ≡ clause_lists clauses.now) }
{
    let mut made = Vec::new(alloc);
    for clause in clauses {
        made.push(Vec::from_slice(alloc, clause)?)?;
    }
    Ok(made)
}

/// Checks the lines in turn. Once propagation over what is present conflicts, also before the first line, later lines
/// are not looked at. The only error is out of memory.
pub fn check_lines(
    alloc: Global,
    clauses: &[Vec<u32>],
    lines: &[PlainLine],
) -> Result<PlainVerdict, AllocError>
    ensures { IfOk result
        (λ found. (verdict : PlainVerdict) →
        (found ≡ verdict) ↔ IsVerdict (clause_lists clauses.now) (map line_of lines.now) verdict) }
{
    let mut present = copies(alloc, clauses)?;
    for (i, line) in lines.iter().enumerate() {
        if conflicts(alloc, &present, &[])? {
            return Ok(PlainVerdict::Refutation);
        }
        match take_line(alloc, &mut present, line)? {
            LineStatus::Taken => {}
            LineStatus::Unproved => {
                return Ok(PlainVerdict::DoesNotFollow(i + 1));
            }
            LineStatus::Absent => {
                return Ok(PlainVerdict::DeletesNothing(i + 1));
            }
        }
    }
    let refuted = conflicts(alloc, &present, &[])?;
    if refuted {
        return Ok(PlainVerdict::Refutation);
    }
    Ok(PlainVerdict::Derivation)
}
