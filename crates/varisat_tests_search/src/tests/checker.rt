//! Worked examples of the plain checker. A literal stands as its code: that of variable n is 2n-2, and its opposite one more.
use std::alloc::{AllocError, Global};
use varisat_plain::checker::{PlainLine, PlainVerdict, check_lines};
use varisat_plain::propagation::{conflicts, follows};

fn clauses(alloc: Global, lists: &[&[u32]]) -> Result<Vec<Vec<u32>>, AllocError> {
    let mut made = Vec::new(alloc);
    for codes in lists {
        made.push(Vec::from_slice(alloc, codes)?)?;
    }
    Ok(made)
}

/// A line by its clause, and whether it deletes that.
type Line = (&'static [u32], bool);

fn lines(alloc: Global, given: &[Line]) -> Result<Vec<PlainLine>, AllocError> {
    let mut made = Vec::new(alloc);
    for (codes, deletes) in given {
        let clause = Vec::from_slice(alloc, *codes)?;
        made.push(if *deletes {
            PlainLine::Deletes(clause)
        } else {
            PlainLine::Adds(clause)
        })?;
    }
    Ok(made)
}

fn verdict_on(
    alloc: Global,
    lists: &[&[u32]],
    made: &[PlainLine],
) -> Result<PlainVerdict, AllocError> {
    let held = clauses(alloc, lists)?;
    check_lines(alloc, &held, made)
}

/// What the lines are.
fn verdict(alloc: Global, lists: &[&[u32]], given: &[Line]) -> Result<PlainVerdict, AllocError> {
    let made = lines(alloc, given)?;
    verdict_on(alloc, lists, &made)
}

/// 1 or 2, not 1 or 2, 1 or not 2, and neither.
const SQUARE: &[&[u32]] = &[&[0, 2], &[1, 2], &[0, 3], &[1, 3]];

const OPPOSITES: &[&[u32]] = &[&[0], &[1]];

const PAIR: &[&[u32]] = &[&[0, 2]];

const TWICE: &[&[u32]] = &[&[0, 2], &[2, 0]];

/// Clauses, lines, and what the lines are.
type Row = (&'static [&'static [u32]], &'static [Line], PlainVerdict);

const ROWS: &[Row] = &[
    (SQUARE, &[(&[2], false)], PlainVerdict::Refutation),
    (
        SQUARE,
        &[(&[2], false), (&[], false)],
        PlainVerdict::Refutation,
    ),
    (SQUARE, &[], PlainVerdict::Derivation),
    (SQUARE, &[(&[], false)], PlainVerdict::DoesNotFollow(1)),
    (OPPOSITES, &[], PlainVerdict::Refutation),
    (OPPOSITES, &[(&[12], true)], PlainVerdict::Refutation),
    (PAIR, &[(&[0], false)], PlainVerdict::DoesNotFollow(1)),
    (PAIR, &[(&[0, 4], true)], PlainVerdict::DeletesNothing(1)),
    (PAIR, &[(&[], true)], PlainVerdict::DeletesNothing(1)),
    (PAIR, &[(&[2, 0], true)], PlainVerdict::Derivation),
    (
        PAIR,
        &[(&[2, 0], true), (&[0, 2], true)],
        PlainVerdict::DeletesNothing(2),
    ),
    (
        PAIR,
        &[(&[0, 0, 2], false), (&[4, 5], false)],
        PlainVerdict::Derivation,
    ),
    (
        TWICE,
        &[(&[0, 2], true), (&[0, 2], true)],
        PlainVerdict::Derivation,
    ),
];

#[test]
fn lines_are_judged(rt: HostRuntime) {
    for (index, row) in ROWS.iter().enumerate() {
        let found = verdict(rt.alloc(), row.0, row.1);
        assert!(rt; found == Ok(row.2), "row {index}");
    }
}

/// 1 implies 2, 3 implies 4, 2 and 4 imply 5, and not all of 1, 4 and 5 are true.
const ALL: &[&[u32]] = &[&[1, 2], &[5, 6], &[3, 7, 8], &[1, 7, 9]];

const ALL_BUT_ONE: &[&[u32]] = &[&[1, 2], &[3, 7, 8], &[1, 7, 9]];

/// Clauses, literals, and whether propagation from these conflicts.
const CONFLICTS: &[(&[&[u32]], &[u32], bool)] = &[
    (ALL, &[0, 4], true),
    (ALL, &[0], false),
    (ALL_BUT_ONE, &[0, 6], true),
    (ALL_BUT_ONE, &[0, 4], false),
];

/// Whether propagation from the literals conflicts.
fn conflicts_from(alloc: Global, lists: &[&[u32]], codes: &[u32]) -> Result<bool, AllocError> {
    let held = clauses(alloc, lists)?;
    conflicts(alloc, &held, codes)
}

fn follows_from(alloc: Global, lists: &[&[u32]], codes: &[u32]) -> Result<bool, AllocError> {
    let held = clauses(alloc, lists)?;
    follows(alloc, &held, codes)
}

// A learned clause follows without one of the clauses.
#[test]
fn clauses_follow_and_literals_conflict(rt: HostRuntime) {
    for (index, (lists, codes, wanted)) in CONFLICTS.iter().enumerate() {
        assert!(rt;
            conflicts_from(rt.alloc(), *lists, *codes) == Ok(*wanted),
            "row {index}"
        );
    }
    assert!(rt; follows_from(rt.alloc(), ALL_BUT_ONE, &[7, 1]) == Ok(true));
    assert!(rt; follows_from(rt.alloc(), ALL_BUT_ONE, &[5, 1]) == Ok(false));
}
