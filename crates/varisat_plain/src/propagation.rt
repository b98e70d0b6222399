//! Unit propagation over plain lists: slow and easy to read.
ghost use Rattle.std.specs.Prelude.{◌≡◌, ◌↔◌, IfOk, IsTrue};
ghost use Rattle.varisat_plain.specs.promises.Checking.{IsClauseStatus, clause_lists};
ghost use Rattle.varisat_theory.specs.promises.Literals.{opposite};
ghost use Rattle.varisat_theory.specs.promises.Membership.{◌∈◌};
ghost use Rattle.varisat_theory.specs.promises.Propagation.{Conflicts, Follows, HasClash};

use std::alloc::{AllocError, Global};

/// What a clause says under known literals.
#[derive(Clone, Copy)]
pub enum ClauseStatus {
    /// All its literals are false.
    False,
    /// All its literals but one are false.
    Leaves(u32),
    /// Two different literals are not false.
    Open,
}

/// The literal's opposite.
#[tactic(auto, unfolding(varisat_theory::specs::promises::Literals::opposite))]
pub fn opposite(literal: u32) -> u32
    ensures { result ≡ opposite literal }
{
    if literal % 2 == 0 {
        literal + 1
    } else {
        literal - 1
    }
}

/// Whether the literal is one of the list.
pub fn holds(literals: &[u32], literal: u32) -> bool
    ensures { IsTrue result ↔ (literal ∈ literals.now) }
{
    literals.contains(&literal)
}

/// Whether a literal and its opposite are known.
fn has_clash(known: &[u32]) -> bool
    ensures { IsTrue result ↔ HasClash known.now }
{
    for l in known {
        if holds(known, opposite(*l)) {
            return true;
        }
    }
    false
}

/// Whether all literals of the clause, or all but one, are false.
fn status_of(known: &[u32], clause: &[u32]) -> ClauseStatus
    ensures { IsClauseStatus known.now clause.now result }
{
    let mut left: Option<u32> = None;
    for l in clause {
        if !holds(known, opposite(*l)) {
            match left {
                None => {
                    left = Some(*l);
                }
                Some(m) => {
                    // A literal that stands twice is one.
                    if m != *l {
                        return ClauseStatus::Open;
                    }
                }
            }
        }
    }
    match left {
        None => ClauseStatus::False,
        Some(l) => ClauseStatus::Leaves(l),
    }
}

/// Whether unit propagation over the clauses from the base comes to a conflict. The only error is out of memory.
pub fn conflicts(alloc: Global, clauses: &[Vec<u32>], base: &[u32]) -> Result<bool, AllocError>
    ensures { IfOk result (λ found. IsTrue found ↔ Conflicts (clause_lists clauses.now) base.now) }
{
    // The rounds look for false clauses alone. Opposite literals in the base, as of a tautology's negation, may make none
    // false.
    if has_clash(base) {
        return Ok(true);
    }
    let mut known = Vec::from_slice(alloc, base)?;
    'rounds: loop {
        let before = known.len();
        for clause in clauses {
            match status_of(&known, clause) {
                ClauseStatus::False => {
                    return Ok(true);
                }
                ClauseStatus::Leaves(l) => {
                    if !holds(&known, l) {
                        known.push(l)?;
                    }
                }
                ClauseStatus::Open => {}
            }
        }
        // A clause before the one that made a literal known may say more now, so that only a round with nothing new is the
        // last.
        if known.len() == before {
            return Ok(false);
        }
    }
}

/// Whether the clause follows: propagation conflicts once its literals are taken as false. The only error is out of
/// memory.
pub fn follows(alloc: Global, clauses: &[Vec<u32>], clause: &[u32]) -> Result<bool, AllocError>
    ensures { IfOk result (λ found. IsTrue found ↔ Follows (clause_lists clauses.now) clause.now) }
{
    let mut base = Vec::new(alloc);
    for l in clause {
        base.push(opposite(*l))?;
    }
    let found = conflicts(alloc, clauses, &base)?;
    Ok(found)
}
