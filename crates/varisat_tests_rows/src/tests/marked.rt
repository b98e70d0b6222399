//! Marked proofs, with the report of each check: the verdict, the clauses that were given, and the cores.

use super::checks::Outcome::{
    CheckFailed, CoreNotAssumed, Derivation, NoSuchClause, Parse, Refutation,
};
use super::checks::{Outcome, checker_of, of_error, of_verdict, source};
use std::alloc::Global;
use varisat_formula::formula::CnfFormula;
use varisat_literals::Lit;
use varisat_proof::checker::MarkedReport;

/// Clauses as DIMACS text, the marked text, what its check returns, the clauses that were given, and the cores, each with the
/// number of clauses that were given before it.
type Row = (
    &'static [u8],
    &'static [u8],
    Outcome,
    &'static [&'static [isize]],
    &'static [(usize, &'static [isize])],
);

const ROWS: [Row; 23] = [
    (b"", b"q 1 0 f 2 0", CoreNotAssumed(2), &[], &[]),
    (b"", b"i 1 2 0 q -1 0 f -1 0", CheckFailed(3), &[], &[]),
    (b"", b"f 0", CheckFailed(1), &[], &[]),
    (
        b"",
        b"q 1 0 i -1 0 f 1 0",
        Derivation,
        &[&[-1]],
        &[(1, &[1])],
    ),
    (b"", b"i 0", Refutation, &[&[]], &[]),
    (b"", b"x 0", Parse(0), &[], &[]),
    (
        b"",
        b"i 1 2 0\ni -1 0\nq -2 0\n2 0\nd 1 2 0\nf -2 0\ni -2 0\n",
        Refutation,
        &[&[1, 2], &[-1], &[-2]],
        &[(2, &[-2])],
    ),
    (
        b"",
        b"i 1 2 0\ni -1 0\nq -2 0\n2 0\nd 1 2 0\nf -2 0\n",
        Derivation,
        &[&[1, 2], &[-1]],
        &[(2, &[-2])],
    ),
    // A list replaces the one before, also if it is empty.
    (b"-1 0", b"q 1 0 q 2 0 f 1 0", CoreNotAssumed(3), &[], &[]),
    (b"-1 0", b"q 1 0 q 0 f 1 0", CoreNotAssumed(3), &[], &[]),
    (
        b"-1 0",
        b"q 2 1 1 0 f 1 1 0",
        Derivation,
        &[],
        &[(0, &[1, 1])],
    ),
    // A core is not kept as a clause.
    (
        b"-1 -2 0",
        b"q 1 2 0 f 2 1 0 d -2 -1 0",
        Derivation,
        &[],
        &[(0, &[2, 1])],
    ),
    (
        b"-1 -2 0",
        b"q 1 2 0 f 2 1 0 d -1 -2 0 -1 -2 0",
        CheckFailed(4),
        &[],
        &[],
    ),
    // A literal that is not assumed is looked for before anything is propagated.
    (b"", b"q 1 0 f 1 2 0", CoreNotAssumed(2), &[], &[]),
    // After a refutation lines are only read.
    (
        b"",
        b"i 1 0 i -1 0 i 3 0 q 4 0 f 4 0 f 5 0 d 6 0",
        Refutation,
        &[&[1], &[-1]],
        &[],
    ),
    (b"1 0 -1 0", b"i 2 0 f 3 0", Refutation, &[], &[]),
    (b"1 0 -1 0", b"i 2 0 f 3", Parse(9), &[], &[]),
    (
        b"",
        b"i 1 -1 2 0 d 2 1 -1 0 d 2 0",
        NoSuchClause(3),
        &[],
        &[],
    ),
    // Marks.
    (b"", b"i i 0", Parse(2), &[], &[]),
    (b"", b"1 i 0", Parse(2), &[], &[]),
    (b"", b"i", Parse(1), &[], &[]),
    (b"", b"ii 0", Parse(0), &[], &[]),
    (b"", b"1 0 I 0", CheckFailed(1), &[], &[]),
];

fn has_numbers(literals: &[Lit], numbers: &[isize]) -> bool {
    for (literal, number) in literals.iter().zip(numbers) {
        if literal.to_dimacs() != *number {
            return false;
        }
    }
    literals.len() == numbers.len()
}

fn has_inputs(inputs: &CnfFormula<Global>, wanted: &[&[isize]]) -> bool {
    for (clause, numbers) in inputs.iter().zip(wanted) {
        if !has_numbers(clause, *numbers) {
            return false;
        }
    }
    inputs.len() == wanted.len()
}

fn has_cores(cores: &[(usize, Vec<Lit, Global>)], wanted: &[(usize, &[isize])]) -> bool {
    for (core, (before, numbers)) in cores.iter().zip(wanted) {
        if core.0 != *before || !has_numbers(&core.1, *numbers) {
            return false;
        }
    }
    cores.len() == wanted.len()
}

fn is_report(report: &MarkedReport<Global>, row: &Row) -> bool {
    (of_verdict(report.verdict) == row.2)
        & has_inputs(&report.inputs, row.3)
        & has_cores(&report.cores, row.4)
}

fn is_checked(alloc: Global, row: &Row, first: usize, size: usize) -> bool {
    let mut checker = checker_of(alloc, row.0);
    let checked = checker.check_marked(&mut source(row.1, first, size));
    drop(checker);
    match checked {
        Ok(report) => is_report(&report, row),
        Err(error) => of_error(&error) == row.2,
    }
}

#[test]
fn marked_proofs_are_reported(rt: HostRuntime) {
    for (place, row) in ROWS.iter().enumerate() {
        for first in 0..row.1.len() {
            assert!(rt;
                is_checked(rt.alloc(), row, first, row.1.len()),
                "row {place}, cut at {first}"
            );
        }
        assert!(rt;
            is_checked(rt.alloc(), row, 0, 1),
            "row {place} in single bytes"
        );
    }
}
