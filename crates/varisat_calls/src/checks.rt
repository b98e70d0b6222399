//! The check of a proof in memory against a DIMACS text in memory.
ghost use Rattle.std.specs.Prelude.{◌≡◌, ◌≢◌, false, Some, None, Ok, Err, OnOk, IfErr};
ghost use Rattle.varisat_theory.specs.promises.Literals.{IsSatisfiable};
ghost use Rattle.varisat_formula.specs.promises.Dimacs.{dimacs};
ghost use Rattle.varisat_proof.specs.declared.checker.error.CheckVerdict.TheVariants.{Refutation};
ghost use Rattle.varisat_calls.specs.Codes.{format_numbered};
ghost use Rattle.varisat_calls.specs.Texts.{IsRefutedText};
ghost use Rattle.varisat_calls.specs.Checks.{new_checker, ReturnsResult, ReturnsDrat, ReturnsMarked, ReturnsCheck, FailsText};

use crate::codes::{OUT_OF_MEMORY, WRONG, format_of};
use std::alloc::Allocator;
use varisat_formula::io::source::known_bytes_are_read;
use varisat_formula::io::{ByteSource, CutSource};
use varisat_proof::checker::{CheckVerdict, Checker, CheckerError, DratCounts};
use varisat_proof::program::are_given;
use varisat_proof::proof::ProofFormat;

/// The proof refutes the text's clauses.
pub const REFUTATION: u8 = 20;

/// All lines are right, and refute nothing.
pub const DERIVATION: u8 = 0;

/// The text has a fault.
pub const WRONG_TEXT: u8 = 13;

/// A line is wrong, or the bytes are no lines.
pub const WRONG_PROOF: u8 = 16;

/// A marked proof was given a clause that the text has not.
pub const OTHER_CLAUSE: u8 = 17;

/// What a check returns: a number, and the line of the proof, its byte or the line of the text that is wrong.
#[derive(Clone, Copy)]
pub struct Returned {
    pub number: u8,
    pub place: u64,
}

/// What a refusal has.
fn returned_error(error: &CheckerError) -> Returned
    ensures returns { ReturnsResult (Err error.now) result.number result.place }
    ensures other { result.number ≢ 20 }
{
    let (number, place) = match error {
        CheckerError::CheckFailed { step }
        | CheckerError::NoSuchClause { step }
        | CheckerError::CoreNotAssumed { step } => (WRONG_PROOF, *step),
        CheckerError::Parse { offset } => (WRONG_PROOF, *offset),
        CheckerError::Dimacs { cause } => (WRONG_TEXT, cause.line),
        CheckerError::Io { .. } | CheckerError::OutOfMemory | CheckerError::Spent => {
            (OUT_OF_MEMORY, 0)
        }
    };
    Returned { number, place }
}

/// What the end of a proof returns.
fn returned_verdict(verdict: CheckVerdict) -> Returned
    ensures returns { ReturnsResult (Ok verdict) result.number result.place }
    ensures refutes { result.number ≡ 20 → verdict ≡ Refutation }
{
    let number = match verdict {
        CheckVerdict::Refutation => REFUTATION,
        CheckVerdict::Derivation => DERIVATION,
    };
    Returned { number, place: 0 }
}

/// Adds the clauses of the text to a new checker. Its source is over bytes in memory and fails at no call; if it did,
/// that would not be called a fault of the text.
fn add_text<A: Allocator + Copy>(checker: &mut Checker<A>, text: &[u8]) -> Result<(), CheckerError>
    requires new { checker.old ≡ new_checker }
    ensures clauses { OnOk result (checker.new ≡ record new_checker { clauses = (dimacs text.now).clauses }) }
    ensures fine { OnOk result ((dimacs text.now).fault ≡ None) }
    ensures fails { IfErr result (FailsText text.now) }
{
    known_bytes_are_read();
    let mut source = CutSource::new(text);
    let added = checker.add_dimacs_cnf(&mut source);
    if source.faults() != 0 {
        return Err(CheckerError::OutOfMemory);
    }
    added
}

/// Checks a marked proof by a new checker. The clauses that it was given have to be among those of the other one.
fn check_marked<A: Allocator + Copy>(
    checker: &mut Checker<A>,
    given: &Checker<A>,
    proof: &[u8],
) -> Returned
    requires new { checker.old ≡ new_checker }
    ensures returns { ReturnsMarked given.now.clauses proof.now result.number result.place }
    ensures sound { result.number ≡ 20 → IsSatisfiable given.now.clauses → ⊥ }
{
    match checker.check_marked(&mut CutSource::new(proof)) {
        Ok(report) => {
            if !are_given(given, &report.inputs) {
                return Returned {
                    number: OTHER_CLAUSE,
                    place: 0,
                };
            }
            returned_verdict(report.verdict)
        }
        Err(error) => returned_error(&error),
    }
}

/// Checks a DRAT proof against the clauses of the checker. Its clauses may be RAT, and deletions that find no clause,
/// or one by which a literal is implied, are passed over.
fn check_drat<A: Allocator + Copy>(
    checker: &mut Checker<A>,
    format: ProofFormat,
    proof: &[u8],
) -> Returned
    ensures returns { checker.old.spent ≡ false →
        ReturnsDrat format checker.old.clauses proof.now result.number result.place }
    ensures sound { result.number ≡ 20 → IsSatisfiable checker.old.clauses → ⊥ }
{
    let mut counts = DratCounts::new();
    match checker.check_drat(&mut CutSource::new(proof), format, &mut counts) {
        Ok(verdict) => returned_verdict(verdict),
        Err(error) => returned_error(&error),
    }
}

/// Checks the proof against the clauses of the text, by two new checkers.
fn check_with<A: Allocator + Copy>(
    given: &mut Checker<A>,
    checker: &mut Checker<A>,
    format: ProofFormat,
    text: &[u8],
    proof: &[u8],
) -> Returned
    requires given_new { given.old ≡ new_checker }
    requires checker_new { checker.old ≡ new_checker }
    ensures returns { ReturnsCheck (Some format) text.now proof.now result.number result.place }
    ensures sound { result.number ≡ 20 → IsRefutedText text.now }
{
    if let Err(error) = add_text(given, text) {
        return returned_error(&error);
    }
    match format {
        ProofFormat::Marked => check_marked(checker, given, proof),
        ProofFormat::Drat | ProofFormat::BinaryDrat => check_drat(given, format, proof),
    }
}

/// Checks the proof, in the format of this number, against the clauses of the text.
pub fn check_texts<A: Allocator + Copy>(alloc: A, format: u8, text: &[u8], proof: &[u8]) -> Returned
    ensures returns { ReturnsCheck (format_numbered format) text.now proof.now result.number result.place }
    ensures sound { result.number ≡ 20 → IsRefutedText text.now }
{
    let Some(format) = format_of(format) else {
        return Returned {
            number: WRONG,
            place: 0,
        };
    };
    let mut given = Checker::new_in(alloc);
    let mut checker = Checker::new_in(alloc);
    let returned = check_with(&mut given, &mut checker, format, text, proof);
    drop(checker);
    drop(given);
    returned
}
