//! What is left of worked examples where they are simplified, and each growth refused.

use std::alloc::{Allocator, Global};
use varisat_formula::dimacs::DimacsParser;
use varisat_formula::formula::CnfFormula;
use varisat_formula::io::ReadSource;
use varisat_simplify::simplify::{Simplified, simplify};
use varisat_tests_heap::CutHeap;

/// The formula of a text. None where there is no memory for it.
fn formula_of<A: Allocator + Copy>(alloc: A, text: &str) -> Option<CnfFormula<A>> {
    match DimacsParser::parse(alloc, &mut ReadSource::new(text.as_bytes())) {
        Ok(formula) => Some(formula),
        Err(_) => None,
    }
}

/// What the formula of a text becomes where the flagged variables are frozen.
fn simplified(alloc: Global, text: &str, frozen: &[bool]) -> Option<Simplified<Global>> {
    let formula = formula_of(alloc, text)?;
    match simplify(alloc, formula, frozen) {
        Ok(made) => Some(made),
        Err(_) => None,
    }
}

/// Whether just the clauses of the second text are left of the first, in this order.
fn leaves(alloc: Global, text: &str, frozen: &[bool], left: &str) -> Option<bool> {
    let made = simplified(alloc, text, frozen)?;
    let mut wanted = formula_of(alloc, left)?;
    wanted.set_var_count(made.formula.var_count());
    let same = made.formula == wanted;
    Some(same)
}

/// A formula, which variables are frozen, what is left, and why.
const ROWS: &[(&str, &[bool], &str, &str)] = &[
    // By hand: 1 or 2, and not 2 or 3, resolve to 1 or 3.
    ("1 2 0 -2 3 0", &[], "", "all variables go"),
    ("1 2 0 -2 3 0", &[true, false, true], "3 1 0", "2 goes"),
    (
        "1 2 0 -2 3 0",
        &[true, true, true],
        "1 2 0 -2 3 0",
        "none goes",
    ),
    // By hand: without 1 there are two clauses of five literals, which are more than those of the three.
    (
        "1 2 3 4 5 0 -1 6 0 -1 7 0",
        &[false, true, true, true, true, true, true],
        "1 2 3 4 5 0 -1 6 0 -1 7 0",
        "it becomes no shorter",
    ),
    // By hand: 1 or 2000000, and not 2000000 or 3, resolve to 1 or 3.
    (
        "1 2000000 0 -2000000 3 0 1999999 3 1 0",
        &[true, false, true],
        "3 1 0",
        "few names of many are told apart",
    ),
    // By hand: 1 or 2 is part of 1 or 2 or 3; and takes 1 from not 1 or 2 or 4.
    (
        "1 2 3 0 1 2 0 -1 2 4 0 4 -4 1 0",
        &[true, true, true, true],
        "1 2 0 2 4 0",
        "clauses are subsumed and strengthened",
    ),
];

#[test]
fn formulas_are_simplified(rt: HostRuntime) {
    for row in ROWS {
        let (text, frozen, left, why) = *row;
        assert!(rt;
            leaves(rt.alloc(), text, frozen, left) == Some(true),
            "{why}"
        );
    }
}

fn refutes(alloc: Global) -> Option<bool> {
    let made = simplified(alloc, "1 2 0 -1 2 0 1 -2 0 -1 -2 0", &[])?;
    let mut found = false;
    for line in 0..made.history.line_count() {
        found = found || (!made.history.deletes(line) && made.history.lits(line).is_empty());
    }
    Some(found)
}

// The four clauses over two variables have no model.
#[test]
fn an_unsatisfiable_formula_is_refuted(rt: HostRuntime) {
    assert!(rt;
        refutes(rt.alloc()) == Some(true),
        "the empty clause is added"
    );
}

fn extend(alloc: Global, values: &mut [bool]) -> Option<()> {
    let made = simplified(alloc, "1 2 0 -2 3 0", &[true, false, true])?;
    made.extend_model(values);
    Some(())
}

// By hand: with 1 false and 3 true, 2 has to be true.
#[test]
fn a_model_is_extended(rt: HostRuntime) {
    let mut values = [false, false, true];
    assert!(rt; extend(rt.alloc(), &mut values).is_some());
    assert!(rt; values == [false, true, true]);
}

const CUT: &str = "1 2 3 0 -1 -2 0 -1 -3 0 -2 -3 0 3 4 0 -4 5 1 0 2 -5 0 1 -1 0 -5 -3 0";

/// Whether a formula is simplified where this growth is refused. None where there is no memory for the formula.
fn is_made(heap: &CutHeap<Global>, number: u64) -> Option<bool> {
    heap.refuse(0);
    let formula = formula_of(heap, CUT)?;
    heap.refuse(number);
    Some(simplify(heap, formula, &[true]).is_ok())
}

#[test]
fn each_growth_may_be_refused(rt: HostRuntime) {
    let heap = CutHeap::new(rt.alloc());
    assert!(rt; is_made(&heap, 0) == Some(true));
    let growths = heap.growths();
    let mut refused: u64 = 0;
    for number in 1..growths.saturating_add(1) {
        let made = is_made(&heap, number);
        assert!(rt; made.is_some());
        if made == Some(false) {
            refused = refused.saturating_add(1);
        }
    }
    // Only the lists of variables to be tried again may be cut short instead.
    assert!(rt; growths > 20 && growths.saturating_sub(refused) < 4);
}
