//! Why a proof is not verified, or a text not read.

use std::alloc::Allocator;
use std::fmt;
use std::fs::File;
use std::io::Write;
use varisat::checker::{CheckVerdict, Checker, CheckerError};
use varisat::dimacs::DimacsParser;
use varisat::io::ReadSource;
use varisat::proof::ProofFormat;
use varisat_solve::program::tell_text_fault;

// Why a proof does not refute the clauses of a text. Lines are counted from 1, and bytes from 0.
#[derive(Clone, Copy)]
pub enum Reason {
    // The line adds a clause that does not follow, or has a core that does not fail.
    DoesNotFollow(u64),
    // The line deletes a clause that is not there.
    DeletesNothing(u64),
    // The line has a core with a literal that is not assumed.
    IsNotAssumed(u64),
    // There is no line at the byte.
    IsNoLine(u64),
    // The lines give a clause that the text lacks.
    IsNotGiven,
    // All lines are right, and there is no conflict behind them.
    RefutesNothing,
}

impl fmt::Display for Reason {
    fn fmt<W: fmt::Write>(&self, f: &mut fmt::Formatter<W>) -> fmt::Result {
        match self {
            Reason::DoesNotFollow(line) => write!(f, "line {line}: does not follow"),
            Reason::DeletesNothing(line) => write!(f, "line {line}: deletes what is not there"),
            Reason::IsNotAssumed(line) => write!(f, "line {line}: names what is not assumed"),
            Reason::IsNoLine(byte) => write!(f, "no line at byte {byte}"),
            Reason::IsNotGiven => write!(f, "a line i has a clause that the text lacks"),
            Reason::RefutesNothing => write!(f, "the lines refute nothing"),
        }
    }
}

// Checks the proof once more, and gives the reason why it is not verified. None is for one that is, and where memory or a file
// fails.
pub fn reason_of<A: Allocator + Copy>(
    alloc: A,
    cnf: File,
    proof: File,
    format: ProofFormat,
) -> Option<Reason> {
    let mut checker = Checker::new_in(alloc);
    let (mut cnf, mut proof) = (ReadSource::new(cnf), ReadSource::new(proof));
    if format == ProofFormat::Marked {
        return match checker.check_marked(&mut proof) {
            Ok(report) => Some(reason_behind(report.verdict)),
            Err(error) => reason_for(&error),
        };
    }
    checker.add_dimacs_cnf(&mut cnf).ok()?;
    match checker.check_proof(&mut proof, format) {
        Ok(CheckVerdict::Refutation) => None,
        Ok(CheckVerdict::Derivation) => Some(Reason::RefutesNothing),
        Err(error) => reason_for(&error),
    }
}

// The reason where all lines of a marked proof are right.
fn reason_behind(verdict: CheckVerdict) -> Reason {
    match verdict {
        CheckVerdict::Refutation => Reason::IsNotGiven,
        CheckVerdict::Derivation => Reason::RefutesNothing,
    }
}

// The reason where a line is wrong.
fn reason_for(error: &CheckerError) -> Option<Reason> {
    match error {
        CheckerError::CheckFailed { step } => Some(Reason::DoesNotFollow(*step)),
        CheckerError::NoSuchClause { step } => Some(Reason::DeletesNothing(*step)),
        CheckerError::CoreNotAssumed { step } => Some(Reason::IsNotAssumed(*step)),
        CheckerError::Parse { offset } => Some(Reason::IsNoLine(*offset)),
        CheckerError::Io { .. }
        | CheckerError::OutOfMemory
        | CheckerError::Dimacs { .. }
        | CheckerError::Spent => None,
    }
}

// Reads the text once more, and tells in words which fault it has, if it has one.
pub fn tell_fault<A: Allocator + Copy, E: Write>(alloc: A, err: &mut E, path: &str, cnf: File) {
    if let Err(fault) = DimacsParser::parse(alloc, &mut ReadSource::new(cnf)) {
        tell_text_fault(err, path, &fault);
    }
}
