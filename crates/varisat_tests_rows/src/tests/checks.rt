//! Proofs in text and binary DRAT, and the verdict, the line or the offset that a check returns.
ghost use Rattle.std.specs.Prelude.{◌≡◌};

use std::alloc::Global;
use varisat_formula::cnf_formula;
use varisat_formula::formula::{CnfFormula, FormulaError};
use varisat_formula::io::{CutSource, ReadSource};
use varisat_proof::checker::{CheckVerdict, Checker, CheckerError};
use varisat_proof::proof::ProofFormat;
use varisat_proof::proof::ProofFormat::{BinaryDrat, Drat};

/// What a call of a checker returned.
#[derive(Clone, Copy, Debug, PartialEq, Eq)]
pub enum Outcome {
    Done,
    Refutation,
    Derivation,
    CheckFailed(u64),
    NoSuchClause(u64),
    CoreNotAssumed(u64),
    Parse(u64),
    Io,
    OutOfMemory,
    Dimacs(u64),
    Spent,
}

use Outcome::{CheckFailed, Derivation, NoSuchClause, Parse, Refutation};

pub fn of_verdict(verdict: CheckVerdict) -> Outcome {
    match verdict {
        CheckVerdict::Refutation => Refutation,
        CheckVerdict::Derivation => Derivation,
    }
}

pub fn of_error(error: &CheckerError) -> Outcome {
    match error {
        CheckerError::CheckFailed { step } => CheckFailed(*step),
        CheckerError::NoSuchClause { step } => NoSuchClause(*step),
        CheckerError::CoreNotAssumed { step } => Outcome::CoreNotAssumed(*step),
        CheckerError::Parse { offset } => Parse(*offset),
        CheckerError::Io { .. } => Outcome::Io,
        CheckerError::OutOfMemory => Outcome::OutOfMemory,
        CheckerError::Dimacs { cause } => Outcome::Dimacs(cause.line),
        CheckerError::Spent => Outcome::Spent,
    }
}

pub fn of_check(checked: &Result<CheckVerdict, CheckerError>) -> Outcome {
    match checked {
        Ok(verdict) => of_verdict(*verdict),
        Err(error) => of_error(error),
    }
}

pub fn of_call(called: &Result<(), CheckerError>) -> Outcome {
    match called {
        Ok(()) => Outcome::Done,
        Err(error) => of_error(error),
    }
}

/// A checker of the clauses of a DIMACS text.
pub fn checker_of(alloc: Global, cnf: &[u8]) -> Checker<Global> {
    let mut checker = Checker::new_in(alloc);
    let _ = checker.add_dimacs_cnf(&mut ReadSource::new(cnf));
    checker
}

/// Clauses as DIMACS text, the proof's format and bytes, and what its check returns.
type Row = (&'static [u8], ProofFormat, &'static [u8], Outcome);

const SQUARE: &[u8] = b"1 2 0 -1 2 0 1 -2 0 -1 -2 0";

const ROWS: [Row; 41] = [
    (SQUARE, Drat, b"2 0", Refutation),
    (SQUARE, Drat, b"", Derivation),
    (SQUARE, Drat, b"0", CheckFailed(1)),
    (SQUARE, BinaryDrat, b"\x61\x04\x00", Refutation),
    (SQUARE, BinaryDrat, b"\x61\x84\x00\x00", Parse(1)),
    (SQUARE, BinaryDrat, b"\x61\x01\x00", Parse(1)),
    (SQUARE, BinaryDrat, b"\x62\x00", Parse(0)),
    (SQUARE, BinaryDrat, b"\x61\x04", Parse(2)),
    (b"1 0 -1 0", Drat, b"", Refutation),
    (b"1 0 -1 0", Drat, b"7 x 0", Parse(2)),
    (b"1 2 0", Drat, b"d 2 1 0 d 1 2 0", NoSuchClause(2)),
    (b"1 2 0", Drat, b"d 0", NoSuchClause(1)),
    (b"1 2 0", Drat, b"1 1 2 0 3 -3 0", Derivation),
    (b"1 2 0", Drat, b"1 0", CheckFailed(1)),
    (b"1 2 0", Drat, b"d 1 3 0", NoSuchClause(1)),
    (b"1 2 0", Drat, b"d 2 1 0", Derivation),
    (b"1 2 0", Drat, b"01 0", Parse(0)),
    (b"1 2 0", Drat, b"1 2", Parse(3)),
    (
        b"1 2 0 -1 3 0 1 0",
        Drat,
        b"3 0\nd -1 3 0\nd 1 2 0\n",
        Derivation,
    ),
    // The clause is deleted where a unit fixes one of its literals, as any other.
    (b"1 2 3 0 -1 0", Drat, b"3 2 0 d 2 3 1 0", Derivation),
    (b"1 2 3 0 -1 0", Drat, b"d 2 3 1 0 3 2 0", CheckFailed(2)),
    // Two equal clauses are deleted one at a time, and tautologies and units as any other clause.
    (
        b"1 2 0 2 1 0",
        Drat,
        b"d 1 2 0 d 2 2 1 0 d 1 2 0",
        NoSuchClause(3),
    ),
    (
        b"1 -1 0 2 0",
        Drat,
        b"d 1 -1 0 d 2 0 d 2 0",
        NoSuchClause(3),
    ),
    // The first fault in the order of the bytes is returned, and after a refutation lines are only read.
    (b"1 2 0", Drat, b"1 0 x", CheckFailed(1)),
    (b"1 2 0", Drat, b"1 2 0 d 3 0 x", NoSuchClause(2)),
    (SQUARE, Drat, b"2 0 9 0 d 8 0 x", Parse(14)),
    (SQUARE, Drat, b"2 0 9 0 d 8 0 0", Refutation),
    // Tokens.
    (b"", Drat, b" \t1 -", Parse(4)),
    (b"", Drat, b"1 -1 0 d", Parse(8)),
    (b"", Drat, b"1 d 0", Parse(2)),
    (b"", Drat, b"1 -0 0", Parse(2)),
    (b"", Drat, b"268435457 0", Parse(0)),
    (b"", Drat, b"268435456\n-268435456\r\n0\tc", Parse(24)),
    (b"", BinaryDrat, b"\xe1", Parse(0)),
    (b"", BinaryDrat, b"\x61\x80", Parse(2)),
    (b"", BinaryDrat, b"\x61\xff\xff\xff\xff\xff", Parse(1)),
    // The literals of the last variable, and a number above them.
    (
        b"",
        BinaryDrat,
        b"\x61\x81\x80\x80\x80\x02\x80\x80\x80\x80\x02\x00",
        Derivation,
    ),
    (b"", BinaryDrat, b"\x61\x82\x80\x80\x80\x02\x00", Parse(1)),
    (
        b"",
        BinaryDrat,
        b"\x61\x02\x03\x00\x64\x02\x03\x00",
        Derivation,
    ),
    // A mark is no line of a proof that has none.
    (b"", Drat, b"1 -1 0 i 1 0", Parse(7)),
    (b"", ProofFormat::Marked, b"1 -1 0 i 1 0", Parse(7)),
];

// A proof in a first piece of so many bytes, and then in pieces of a size.
pub fn source(bytes: &'static [u8], first: usize, size: usize) -> CutSource<'static>
    ensures { result.faults ≡ 0 }
{
    CutSource::new(bytes).in_pieces(first, size)
}

fn check(alloc: Global, row: &Row, first: usize, size: usize) -> Outcome {
    let (cnf, format, bytes, _) = *row;
    let mut checker = checker_of(alloc, cnf);
    let outcome = of_check(&checker.check_proof(&mut source(bytes, first, size), format));
    drop(checker);
    outcome
}

// Whether the check returns the row's outcome whole, in pieces of one byte, and cut in two at each place.
fn is_checked(alloc: Global, row: &Row) -> bool {
    for first in 0..row.2.len() {
        if check(alloc, row, first, row.2.len()) != row.3 {
            return false;
        }
    }
    (check(alloc, row, 0, 1) == row.3) & (check(alloc, row, 0, 1000) == row.3)
}

#[test]
fn proofs_are_checked_in_any_pieces(rt: HostRuntime) {
    for (place, row) in ROWS.iter().enumerate() {
        assert!(rt; is_checked(rt.alloc(), row), "row {place}");
    }
}

const CUT_PROOF: &[u8] = b"2 0\nd 1 2 0\n";

// What the first bytes of the proof of two lines give: one that ends inside a line does not fit at its end.
fn of_beginning(length: usize) -> Outcome {
    match length {
        0 => Derivation,
        3 | 4 | 11 | 12 => Refutation,
        _ => Parse(length as u64),
    }
}

#[test]
fn beginnings_of_a_proof_are_checked(rt: HostRuntime) {
    for length in 0..CUT_PROOF.len() + 1 {
        let row = (SQUARE, Drat, &CUT_PROOF[..length], of_beginning(length));
        assert!(rt; is_checked(rt.alloc(), &row), "the first {length} bytes");
    }
}

// The first eight rows once more, with the clauses given as a formula.
fn check_formula(alloc: Global, formula: &CnfFormula<Global>, row: &Row) -> Outcome {
    let mut checker = Checker::new_in(alloc);
    let added = of_call(&checker.add_formula(formula));
    let outcome = of_check(&checker.check_proof(&mut source(row.2, 0, 1000), row.1));
    drop(checker);
    if added == Outcome::Done {
        outcome
    } else {
        added
    }
}

fn are_checked(alloc: Global, formula: &CnfFormula<Global>) -> bool {
    for row in &ROWS[..8] {
        if check_formula(alloc, formula, row) != row.3 {
            return false;
        }
    }
    true
}

fn is_square_checked(alloc: Global) -> Result<bool, FormulaError> {
    let formula = cnf_formula!(in alloc; 1, 2; -1, 2; 1, -2; -1, -2;)?;
    let are_checked = are_checked(alloc, &formula);
    Ok(are_checked)
}

#[test]
fn proofs_from_a_formula_are_checked(rt: HostRuntime) -> Result<(), FormulaError> {
    assert!(rt; is_square_checked(rt.alloc())?);
    Ok(())
}
