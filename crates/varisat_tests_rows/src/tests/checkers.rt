//! Single calls of a checker: steps, faults, and what a checker that is spent returns.

use super::checks::Outcome::{
    CheckFailed, CoreNotAssumed, Derivation, Dimacs, Done, Io, NoSuchClause, OutOfMemory, Parse,
    Refutation, Spent,
};
use super::checks::{Outcome, checker_of, of_call, of_check, of_error};
use linked_list_allocator::LocalHeap;
use std::alloc::{AllocError, Allocator, Global};
use varisat_formula::io::{CutSource, ReadSource};
use varisat_literals::{Lit, Var, lits, var};
use varisat_proof::checker::Checker;
use varisat_proof::proof::{ProofFormat, ProofStep};

/// Clauses as DIMACS text, a step, what its check returns, and how many clauses are present then.
type Row = (&'static [u8], Step, Outcome, usize);

/// A step, by the numbers of its literals.
#[derive(Clone, Copy)]
enum Step {
    Add(i8),
    Delete(i8, i8),
    Units(i8),
    DropVar(u8),
    Core(i8, i8),
}

use Step::{Add, Core, Delete, DropVar, Units};

const CHAIN: &[u8] = b"1 0 -1 2 0 -2 3 0";

const ROWS: [Row; 12] = [
    (CHAIN, Add(2), Done, 4),
    (b"1 2 0", Add(2), CheckFailed(1), 1),
    (b"1 2 0 3 0", Delete(2, 1), Done, 1),
    (CHAIN, Delete(2, 1), NoSuchClause(1), 3),
    // The units 1 to 4 in turn, the last of which does not follow.
    (CHAIN, Units(4), CheckFailed(4), 6),
    (CHAIN, Units(3), Done, 6),
    (CHAIN, DropVar(2), Done, 1),
    (CHAIN, DropVar(9), Done, 3),
    (CHAIN, Core(1, -2), Done, 3),
    (b"1 2 0", Core(1, -2), CheckFailed(1), 1),
    // A step is checked also if the clauses conflict already.
    (b"1 0 -1 0", Delete(2, 1), NoSuchClause(1), 2),
    (b"1 0 -1 0", Add(2), Done, 3),
];

fn literal(number: i8) -> Lit {
    let index = usize::from(number.unsigned_abs()).saturating_sub(1);
    Lit::from_index(index, number > 0)
}

fn check_units(checker: &mut Checker<Global>, count: i8) -> Outcome {
    let units = lits![1, 2, 3, 4];
    let count = usize::from(count.unsigned_abs()).min(4);
    let step = ProofStep::UnitClauses {
        units: &units[..count],
    };
    of_call(&checker.check_step(&step))
}

fn check_clause(checker: &mut Checker<Global>, clause: &[Lit], step: Step) -> Outcome {
    let step = match step {
        Delete(..) => ProofStep::DeleteClause { clause },
        Core(..) => ProofStep::FailedAssumptions {
            failed_core: clause,
        },
        _ => ProofStep::AtClause { clause },
    };
    of_call(&checker.check_step(&step))
}

fn check(checker: &mut Checker<Global>, step: Step) -> Outcome {
    match step {
        Add(number) => check_clause(checker, &[literal(number)], step),
        Delete(a, b) => check_clause(checker, &[literal(a), literal(b)], step),
        Core(a, b) => check_clause(checker, &[literal(a), literal(b)], step),
        Units(count) => check_units(checker, count),
        DropVar(number) => {
            let var = Var::from_index(usize::from(number).saturating_sub(1));
            of_call(&checker.check_step(&ProofStep::DeleteVar { var }))
        }
    }
}

fn checked(alloc: Global, row: &Row) -> (Outcome, usize) {
    let mut checker = checker_of(alloc, row.0);
    let outcome = check(&mut checker, row.1);
    let count = checker.len();
    drop(checker);
    (outcome, count)
}

#[test]
fn steps_are_checked(rt: HostRuntime) {
    for (place, row) in ROWS.iter().enumerate() {
        assert!(rt; checked(rt.alloc(), row) == (row.2, row.3), "row {place}");
    }
}

// What each call of a checker returns once it is spent.
fn spent_calls<A: Allocator + Copy>(checker: &mut Checker<A>) -> [Outcome; 6] {
    let clause = lits![1];
    let step = ProofStep::AtClause { clause: &clause };
    let marked = match checker.check_marked(&mut ReadSource::new(b"".as_slice())) {
        Ok(_) => Done,
        Err(error) => of_error(&error),
    };
    [
        marked,
        of_call(&checker.add_clause(&clause)),
        of_call(&checker.add_dimacs_cnf(&mut ReadSource::new(b"1 0".as_slice()))),
        of_call(&checker.delete_var(var!(1))),
        of_call(&checker.check_step(&step)),
        of_check(&checker.check_proof(&mut ReadSource::new(b"".as_slice()), ProofFormat::Drat)),
    ]
}

/// The bytes that a source gives before it fails, what its check returns, and whether the checker is spent then.
const FAILING: [(&[u8], Outcome, bool); 5] = [
    (b"", Io, true),
    (b"1 2 0\n1", Io, true),
    (b"1 2 0\n", Io, true),
    // A fault of a line before that of the source is returned first.
    (b"1 0\n1 2 0", CheckFailed(1), false),
    (b"1 2 0 x 1 2", Parse(6), true),
];

fn fails(alloc: Global, bytes: &'static [u8]) -> (Outcome, bool) {
    let calls = bytes.len().div_ceil(3) as u64;
    let mut source = CutSource::new(bytes)
        .in_pieces(0, 3)
        .failing_at(calls.saturating_add(1));
    let mut checker = checker_of(alloc, b"1 2 0");
    let outcome = of_check(&checker.check_proof(&mut source, ProofFormat::Drat));
    let is_spent = spent_calls(&mut checker) == [Spent; 6];
    drop(checker);
    (outcome, is_spent)
}

#[test]
fn a_fault_of_the_source_spends_the_checker(rt: HostRuntime) {
    for (place, (bytes, outcome, is_spent)) in FAILING.iter().enumerate() {
        assert!(rt;
            fails(rt.alloc(), *bytes) == (*outcome, *is_spent),
            "row {place}"
        );
    }
}

// What a text and a proof come to, and whether the checker is spent then.
fn refused_in<A: Allocator + Copy>(alloc: A) -> (Outcome, Outcome, bool) {
    let mut checker = Checker::new_in(alloc);
    let text = b"1 2 0 -1 2 0 1 -2 0 -1 -2 0".as_slice();
    let added = of_call(&checker.add_dimacs_cnf(&mut ReadSource::new(text)));
    let proof = b"2 1 0 d 1 2 0 2 0".as_slice();
    let checked = of_check(&checker.check_proof(&mut ReadSource::new(proof), ProofFormat::Drat));
    let is_spent = spent_calls(&mut checker) == [Spent; 6];
    drop(checker);
    (added, checked, is_spent)
}

/// What may come of a text and a proof where a growth is refused, and where none is.
const REFUSED: [(Outcome, Outcome, bool); 3] = [
    (OutOfMemory, Spent, true),
    (Done, OutOfMemory, true),
    (Done, Refutation, false),
];

// The row that a heap of that many times 16 bytes comes to.
fn row_with(alloc: Global, room: u8) -> Result<Option<usize>, AllocError> {
    let heap = LocalHeap::new(alloc, 16 * usize::from(room))?;
    let refused = refused_in(&heap);
    Ok(REFUSED.iter().position(|row| *row == refused))
}

#[test]
fn a_refused_growth_spends_the_checker(rt: HostRuntime) -> Result<(), AllocError> {
    let mut reached = [false; 3];
    for room in 0..120 {
        match row_with(rt.alloc(), room)? {
            Some(place) if place < 3 => reached[place] = true,
            _ => panic!(rt; "with {room}"),
        }
    }
    assert!(rt; reached == [true; 3]);
    Ok(())
}

// Lines that fail leave the clauses that the lines before left.
fn after_a_line(checker: &mut Checker<Global>) -> [(Outcome, usize); 2] {
    let failing = b"1 2 3 0 d 2 1 0 4 0".as_slice();
    let failed = of_check(&checker.check_proof(&mut ReadSource::new(failing), ProofFormat::Drat));
    let first = (failed, checker.len());
    let deleting = b"d 1 2 0".as_slice();
    let again = of_check(&checker.check_proof(&mut ReadSource::new(deleting), ProofFormat::Drat));
    [first, (again, checker.len())]
}

// A text's fault leaves the clauses before it, and the checker goes on.
fn after_a_text(checker: &mut Checker<Global>) -> [(Outcome, usize); 2] {
    let text = b"1 -2 0\n2".as_slice();
    let added = of_call(&checker.add_dimacs_cnf(&mut ReadSource::new(text)));
    let first = (added, checker.len());
    [first, (of_call(&checker.add_clause(&[])), checker.len())]
}

// A core that is not assumed leaves the clauses that the lines before left, and a variable is dropped with its clauses.
fn after_a_core(checker: &mut Checker<Global>) -> [(Outcome, usize); 2] {
    let proof = b"i 3 0 q 1 0 d 2 1 0 f 2 0 i 4 0".as_slice();
    let failed = match checker.check_marked(&mut ReadSource::new(proof)) {
        Ok(_) => Derivation,
        Err(error) => of_error(&error),
    };
    let first = (failed, checker.len());
    [
        first,
        (of_call(&checker.delete_var(var!(3))), checker.len()),
    ]
}

fn after_faults(alloc: Global) -> [[(Outcome, usize); 2]; 3] {
    let mut first = checker_of(alloc, b"1 2 0");
    let mut second = checker_of(alloc, b"");
    let mut third = checker_of(alloc, b"1 2 0");
    let after = [
        after_a_line(&mut first),
        after_a_text(&mut second),
        after_a_core(&mut third),
    ];
    drop(first);
    drop(second);
    drop(third);
    after
}

const AFTER_FAULTS: [[(Outcome, usize); 2]; 3] = [
    [(CheckFailed(3), 1), (NoSuchClause(1), 1)],
    [(Dimacs(2), 1), (Done, 2)],
    [(CoreNotAssumed(4), 1), (Done, 0)],
];

#[test]
fn faults_leave_the_clauses_before_them(rt: HostRuntime) {
    assert!(rt; after_faults(rt.alloc()) == AFTER_FAULTS);
}
