//! The lines of DRAT, as solvers write them that simplify: a clause that does not follow may be RAT on one of its literals,
//! and a deletion that finds no clause, or one that may be why a literal is implied, is passed over.
ghost use Rattle.std.specs.Prelude.{◌≡◌, [], IfOk};
ghost use Rattle.varisat_theory.specs.promises.Propagation.{Conflicts};
ghost use Rattle.varisat_lines.specs.declared.format.LineKind.TheVariants.{Adds, Deletes};
ghost use Rattle.varisat_proof.specs.promises.DratChecks.{IsRedundancyOf, IsDratStatusOf, TakesDratKind};

use crate::checker::line::LineStatus;
use std::alloc::{AllocError, Allocator};
use varisat_lines::format::LineKind;
use varisat_literals::Lit;
use varisat_rat::{Deletion, PresentClauses};

/// How many lines of a DRAT proof were of a kind that a check of plain lines refuses, and where the line is that was
/// looked at last. All numbers stay at 2^64-1 once they are there.
#[derive(Clone, Copy, Debug, PartialEq, Eq)]
pub struct DratCounts {
    /// Lines that were looked at.
    pub steps: u64,
    /// The offset of the first byte behind the line before.
    pub begin: u64,
    /// The offset of the first byte behind the line.
    pub end: u64,
    /// Clauses that were added since they are RAT on their first literal.
    pub rats: u64,
    /// Clauses that were added since they are RAT on another one.
    pub others: u64,
    /// Deletions of a clause that stayed, since all literals of it but one are implied to be false.
    pub kept: u64,
    /// Deletions that found no clause.
    pub absent: u64,
}

impl DratCounts {
    /// No line was looked at.
    pub fn new() -> DratCounts {
        DratCounts {
            steps: 0,
            begin: 0,
            end: 0,
            rats: 0,
            others: 0,
            kept: 0,
            absent: 0,
        }
    }

    /// A line ended in front of this offset.
    pub fn end_line(&mut self, offset: u64) {
        self.begin = self.end;
        self.end = offset;
    }

    /// A line is looked at.
    fn add_line(&mut self) {
        self.steps = self.steps.saturating_add(1);
    }

    /// A clause was added since it is RAT on the literal at this place.
    fn add_rat(&mut self, place: usize) {
        if place == 0 {
            self.rats = self.rats.saturating_add(1);
        } else {
            self.others = self.others.saturating_add(1);
        }
    }

    /// This became of a deletion.
    fn add_deletion(&mut self, deletion: Deletion) {
        match deletion {
            Deletion::Taken => {}
            Deletion::Kept => self.kept = self.kept.saturating_add(1),
            Deletion::Absent => self.absent = self.absent.saturating_add(1),
        }
    }
}

/// Why a clause may be added.
#[derive(Clone, Copy)]
pub enum Redundancy {
    /// It follows.
    Follows,
    /// It is RAT on the literal at this place.
    Rat(usize),
    /// Neither.
    Neither,
}

/// Why the clause may be added.
fn redundancy_of<A: Allocator + Copy>(
    clauses: &mut PresentClauses<A>,
    clause: &[Lit],
) -> Result<Redundancy, AllocError>
    ensures logged { IfOk result (λ why. IsRedundancyOf clauses.old clause.now why) }
    ensures frame { clauses.new ≡ clauses.old }
{
    let is_seen = clauses.is_seen_to_follow(clause)?;
    if is_seen {
        return Ok(Redundancy::Follows);
    }
    let pivot = clauses.find_pivot(clause)?;
    match pivot {
        Some(place) => return Ok(Redundancy::Rat(place)),
        None => {}
    }
    let follows = clauses.follows(clause)?;
    if follows {
        return Ok(Redundancy::Follows);
    }
    Ok(Redundancy::Neither)
}

/// Adds the clause, if it follows or is RAT.
fn take_added<A: Allocator + Copy>(
    clauses: &mut PresentClauses<A>,
    counts: &mut DratCounts,
    clause: &[Lit],
) -> Result<LineStatus, AllocError>
    ensures { IfOk result (λ status. IsDratStatusOf clauses.old Adds clause.now status clauses.new) }
{
    let why = redundancy_of(clauses, clause)?;
    match why {
        Redundancy::Follows => {
            clauses.push(clause)?;
            Ok(LineStatus::Taken)
        }
        Redundancy::Rat(place) => {
            clauses.push(clause)?;
            counts.add_rat(place);
            Ok(LineStatus::Taken)
        }
        Redundancy::Neither => Ok(LineStatus::Unproved),
    }
}

/// Takes out one clause that is equal as a set, or passes the deletion over.
fn take_deleted<A: Allocator + Copy>(
    clauses: &mut PresentClauses<A>,
    counts: &mut DratCounts,
    clause: &[Lit],
) -> Result<LineStatus, AllocError>
    ensures { IfOk result
        (λ status. (Conflicts clauses.old [] → ⊥) → IsDratStatusOf clauses.old Deletes clause.now status clauses.new) }
{
    let deletion = clauses.take_out_spare(clause)?;
    counts.add_deletion(deletion);
    Ok(LineStatus::Taken)
}

/// Takes a line, unless it is wrong.
pub fn take_drat_line<A: Allocator + Copy>(
    clauses: &mut PresentClauses<A>,
    counts: &mut DratCounts,
    kind: LineKind,
    clause: &[Lit],
) -> Result<LineStatus, AllocError>
    ensures { IfOk result
        (λ status. (Conflicts clauses.old [] → ⊥) → IsDratStatusOf clauses.old kind clause.now status clauses.new) }
{
    counts.add_line();
    match kind {
        LineKind::Adds => {
            let status = take_added(clauses, counts, clause)?;
            Ok(status)
        }
        LineKind::Deletes => {
            let status = take_deleted(clauses, counts, clause)?;
            Ok(status)
        }
        // Plain encodings have none of the others.
        LineKind::Accepts => Ok(LineStatus::Taken),
        LineKind::Assumes => Ok(LineStatus::Taken),
        LineKind::Fails => Ok(LineStatus::Taken),
    }
}
