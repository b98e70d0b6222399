//! The program's command that checks proofs, over readers and writers.
ghost use Rattle.std.specs.Prelude.{◌≡◌, ◌⊎◌, ◌-◌, ◌^◌, ◌<◌, [], Bool, true, false, Some, Err, None, IfOk, IfErr, IsTrue, ◌↔◌};
ghost use Rattle.varisat_formula.specs.promises.Written.{Puts};
ghost use Rattle.varisat_proof.specs.declared.checker.error.CheckVerdict.TheVariants.{Refutation};
ghost use Rattle.varisat_proof.specs.promises.Verified.{sources_of, Verifies, VerifiesMarked, VerifiesBy, FailsCheck, VerifiesDrat, AreGiven, EndsBy, EndsByDrat, PrintsVerdict, GivesUnsatisfiable, verdict_of, verdict_text, verdict_status, fault_status};

use crate::checker::{CheckVerdict, Checker, CheckerError, DratCounts, MarkedReport};
use crate::proof::ProofFormat;
use std::alloc::Allocator;
use std::fmt::Display;
use std::io::{self, Write};
use varisat_formula::formula::CnfFormula;
use varisat_formula::io::{ByteSource, ProofTarget};
use varisat_literals::Lit;

/// The status of `check` for a proof that refutes the clauses.
pub const STATUS_VERIFIED: u8 = 0;

/// The status of `check` for a proof that does not.
pub const STATUS_NOT_VERIFIED: u8 = 1;

/// The status of a command that met a fault.
pub const STATUS_FAULT: u8 = 2;

/// Reads a DIMACS CNF text, and then checks a proof against its clauses. Prints `s VERIFIED`, status 0, where the proof
/// refutes them, and `s NOT VERIFIED`, status 1, where it does not: no beginning of it conflicts, a line fails, or its
/// bytes are no lines. A marked proof is checked from no clause, and is verified where it refutes and each clause of
/// its `i` lines is equal as a set to one of the text. A fault of the text, the sources or `out`, and out of memory, is
/// reported on `err`, and the status is 2; `out` takes nothing then, unless it is `out` that failed, which has a beginning
/// of what was to be printed. The status is 0 only where no assignment satisfies the text's clauses. Each source and
/// `out` have to have counted fewer than 2^64-1 faults.
pub fn check_lines<A: Allocator + Copy, S: ByteSource, P: ByteSource, T: ProofTarget, E: Write>(
    alloc: A,
    cnf: &mut S,
    proof: &mut P,
    format: ProofFormat,
    out: &mut T,
    err: &mut E,
) -> u8
    requires cnf_faults { (S.input cnf.old).faults < 2 ^ 64 - 1 }
    requires proof_faults { (P.input proof.old).faults < 2 ^ 64 - 1 }
    requires out_faults { (T.taken out.old).faults < 2 ^ 64 - 1 }
    ensures outcome { EndsBy format (S.input cnf.old) (P.input proof.old) (S.input cnf.new) (P.input proof.new)
        result (T.taken out.old) (T.taken out.new) }
    ensures truth { result ≡ 0 → GivesUnsatisfiable (S.input cnf.old) (S.input cnf.new) }
{
    match verify_by(alloc, cnf, proof, format) {
        Ok(verified) => print_verdict(out, err, verified),
        Err(error) => print_fault(err, &error),
    }
}

/// As `check_lines`, but for the lines that `Checker::check_drat` takes. Why a line fails, and how many lines a check of
/// plain lines would have refused, is reported on `err`. The status is 0 only where no assignment satisfies the text's
/// clauses.
pub fn check_drat_lines<
    A: Allocator + Copy,
    S: ByteSource,
    P: ByteSource,
    T: ProofTarget,
    E: Write,
>(alloc: A, cnf: &mut S, proof: &mut P, format: ProofFormat, out: &mut T, err: &mut E) -> u8
    requires cnf_faults { (S.input cnf.old).faults < 2 ^ 64 - 1 }
    requires proof_faults { (P.input proof.old).faults < 2 ^ 64 - 1 }
    requires out_faults { (T.taken out.old).faults < 2 ^ 64 - 1 }
    ensures outcome { EndsByDrat format (S.input cnf.old) (P.input proof.old) (S.input cnf.new) (P.input proof.new)
        result (T.taken out.old) (T.taken out.new) }
    ensures truth { result ≡ 0 → GivesUnsatisfiable (S.input cnf.old) (S.input cnf.new) }
{
    match verify_drat(alloc, cnf, proof, format, err) {
        Ok(verified) => print_verdict(out, err, verified),
        Err(error) => print_fault(err, &error),
    }
}

/// Whether a DRAT proof refutes the clauses of the text.
fn verify_drat<A: Allocator + Copy, S: ByteSource, P: ByteSource, E: Write>(
    alloc: A,
    cnf: &mut S,
    proof: &mut P,
    format: ProofFormat,
    err: &mut E,
) -> Result<bool, CheckerError>
    requires cnf_faults { (S.input cnf.old).faults < 2 ^ 64 - 1 }
    requires proof_faults { (P.input proof.old).faults < 2 ^ 64 - 1 }
    ensures verified { IfOk result
        (VerifiesDrat format (sources_of (S.input cnf.old) (P.input proof.old))
        (sources_of (S.input cnf.new) (P.input proof.new))) }
    ensures fails { IfErr result
        (FailsCheck (sources_of (S.input cnf.old) (P.input proof.old))
        (sources_of (S.input cnf.new) (P.input proof.new))) }
{
    let mut checker = Checker::new_in(alloc);
    let verified = verify_drat_in(&mut checker, cnf, proof, format, err);
    drop(checker);
    verified
}

/// Whether a DRAT proof refutes the clauses of the text, with a new checker that is lent.
fn verify_drat_in<A: Allocator + Copy, S: ByteSource, P: ByteSource, E: Write>(
    checker: &mut Checker<A>,
    cnf: &mut S,
    proof: &mut P,
    format: ProofFormat,
    err: &mut E,
) -> Result<bool, CheckerError>
    requires new { checker.old ≡ record { clauses = []; spent = false } }
    requires cnf_faults { (S.input cnf.old).faults < 2 ^ 64 - 1 }
    requires proof_faults { (P.input proof.old).faults < 2 ^ 64 - 1 }
    ensures verified { IfOk result
        (VerifiesDrat format (sources_of (S.input cnf.old) (P.input proof.old))
        (sources_of (S.input cnf.new) (P.input proof.new))) }
    ensures fails { IfErr result
        (FailsCheck (sources_of (S.input cnf.old) (P.input proof.old))
        (sources_of (S.input cnf.new) (P.input proof.new))) }
{
    checker.add_dimacs_cnf(cnf)?;
    let mut counts = DratCounts::new();
    let checked = checker.check_drat(proof, format, &mut counts);
    print_refusal(err, &checked, &counts, checker.stopper());
    let verified = is_verified(checked)?;
    print_counts(err, &counts);
    Ok(verified)
}

/// Tells which line of a DRAT proof is wrong, which bytes it has, and for which clause it is not RAT on its first literal.
fn print_line<E: Write>(err: &mut E, step: u64, counts: &DratCounts, stopper: Option<&[Lit]>) {
    let (begin, end) = (counts.begin, counts.end);
    // A writer that fails here leaves nothing to report.
    let _ = write!(
        err,
        "line {step}, from byte {begin} up to {end}: neither follows nor is RAT"
    );
    if let Some(clause) = stopper {
        let _ = write!(err, "; not on its first literal, for the clause");
        for l in clause {
            let number = l.to_dimacs();
            let _ = write!(err, " {number}");
        }
        let _ = write!(err, " 0");
    }
    let _ = writeln!(err);
}

/// Tells which line of a DRAT proof, or which byte, is wrong, if one is.
fn print_refusal<E: Write>(
    err: &mut E,
    checked: &Result<CheckVerdict, CheckerError>,
    counts: &DratCounts,
    stopper: Option<&[Lit]>,
) {
    match checked {
        Err(CheckerError::CheckFailed { step }) => print_line(err, *step, counts, stopper),
        Err(CheckerError::Parse { offset }) => {
            let _ = writeln!(err, "no line at byte {offset}");
        }
        Ok(CheckVerdict::Derivation) => {
            let _ = writeln!(err, "the lines refute nothing");
        }
        _ => {}
    }
}

/// Tells how many lines of a DRAT proof were looked at, and of which kinds.
fn print_counts<E: Write>(err: &mut E, counts: &DratCounts) {
    let (steps, rats, others) = (counts.steps, counts.rats, counts.others);
    let (kept, absent) = (counts.kept, counts.absent);
    let _ = write!(
        err,
        "lines {steps}, RAT on the first literal {rats}, on another {others}"
    );
    let _ = writeln!(
        err,
        ", deletions passed over: forced {kept}, absent {absent}"
    );
}

/// Whether the proof of the format is verified.
fn verify_by<A: Allocator + Copy, S: ByteSource, P: ByteSource>(
    alloc: A,
    cnf: &mut S,
    proof: &mut P,
    format: ProofFormat,
) -> Result<bool, CheckerError>
    requires cnf_faults { (S.input cnf.old).faults < 2 ^ 64 - 1 }
    requires proof_faults { (P.input proof.old).faults < 2 ^ 64 - 1 }
    ensures verified { IfOk result
        (VerifiesBy format (sources_of (S.input cnf.old) (P.input proof.old))
        (sources_of (S.input cnf.new) (P.input proof.new))) }
    ensures fails { IfErr result
        (FailsCheck (sources_of (S.input cnf.old) (P.input proof.old))
        (sources_of (S.input cnf.new) (P.input proof.new))) }
{
    match format {
        ProofFormat::Drat => verify(alloc, cnf, proof, ProofFormat::Drat),
        ProofFormat::BinaryDrat => verify(alloc, cnf, proof, ProofFormat::BinaryDrat),
        ProofFormat::Marked => verify_marked(alloc, cnf, proof),
    }
}

/// Whether each clause of the formula is equal as a set to one that the checker has.
pub fn are_given<A: Allocator + Copy>(given: &Checker<A>, formula: &CnfFormula<A>) -> bool
    ensures { IsTrue result ↔ AreGiven given.now.clauses formula.now.clauses }
{
    for clause in formula.iter() {
        if !given.has_clause(clause) {
            return false;
        }
    }
    true
}

/// Whether a marked proof with this report is verified: it refutes, and its inputs are clauses of the text.
fn is_refuted_by<A: Allocator + Copy>(given: &Checker<A>, report: &MarkedReport<A>) -> bool
    ensures { IsTrue result
        ↔ ((report.now.verdict ≡ Refutation) × AreGiven given.now.clauses report.now.inputs.clauses) }
{
    match report.verdict {
        CheckVerdict::Refutation => are_given(given, &report.inputs),
        CheckVerdict::Derivation => false,
    }
}

/// Whether the marked proof is verified against the text. Two new checkers are lent: one keeps the clauses of the text, of
/// which it finds an equal one by their literals, and the other checks the proof.
fn verify_marked_in<A: Allocator + Copy, S: ByteSource, P: ByteSource>(
    given: &mut Checker<A>,
    checker: &mut Checker<A>,
    cnf: &mut S,
    proof: &mut P,
) -> Result<bool, CheckerError>
    requires new { given.old ≡ record { clauses = []; spent = false } }
    requires checker_new { checker.old ≡ record { clauses = []; spent = false } }
    requires cnf_faults { (S.input cnf.old).faults < 2 ^ 64 - 1 }
    requires proof_faults { (P.input proof.old).faults < 2 ^ 64 - 1 }
    ensures verified { IfOk result
        (VerifiesMarked (sources_of (S.input cnf.old) (P.input proof.old))
        (sources_of (S.input cnf.new) (P.input proof.new))) }
    ensures fails { IfErr result
        (FailsCheck (sources_of (S.input cnf.old) (P.input proof.old))
        (sources_of (S.input cnf.new) (P.input proof.new))) }
{
    given.add_dimacs_cnf(cnf)?;
    match checker.check_marked(proof) {
        Ok(report) => Ok(is_refuted_by(given, &report)),
        Err(error) => {
            let verified = is_verified(Err(error))?;
            Ok(verified)
        }
    }
}

/// Whether the marked proof is verified against the text.
// The new checkers have a function of their own, as in `verify`.
fn verify_marked<A: Allocator + Copy, S: ByteSource, P: ByteSource>(
    alloc: A,
    cnf: &mut S,
    proof: &mut P,
) -> Result<bool, CheckerError>
    requires cnf_faults { (S.input cnf.old).faults < 2 ^ 64 - 1 }
    requires proof_faults { (P.input proof.old).faults < 2 ^ 64 - 1 }
    ensures verified { IfOk result
        (VerifiesMarked (sources_of (S.input cnf.old) (P.input proof.old))
        (sources_of (S.input cnf.new) (P.input proof.new))) }
    ensures fails { IfErr result
        (FailsCheck (sources_of (S.input cnf.old) (P.input proof.old))
        (sources_of (S.input cnf.new) (P.input proof.new))) }
{
    let mut given = Checker::new_in(alloc);
    let mut checker = Checker::new_in(alloc);
    let verified = verify_marked_in(&mut given, &mut checker, cnf, proof);
    drop(checker);
    drop(given);
    verified
}

/// Whether the proof refutes the clauses of the text.
// The new checker has a function of its own: it is dropped in one place and in one step, not at each return of `verify_in`
// and part by part.
fn verify<A: Allocator + Copy, S: ByteSource, P: ByteSource>(
    alloc: A,
    cnf: &mut S,
    proof: &mut P,
    format: ProofFormat,
) -> Result<bool, CheckerError>
    requires cnf_faults { (S.input cnf.old).faults < 2 ^ 64 - 1 }
    requires proof_faults { (P.input proof.old).faults < 2 ^ 64 - 1 }
    ensures verified { IfOk result
        (Verifies format (sources_of (S.input cnf.old) (P.input proof.old))
        (sources_of (S.input cnf.new) (P.input proof.new))) }
    ensures fails { IfErr result
        (FailsCheck (sources_of (S.input cnf.old) (P.input proof.old))
        (sources_of (S.input cnf.new) (P.input proof.new))) }
{
    let mut checker = Checker::new_in(alloc);
    let verified = verify_in(&mut checker, cnf, proof, format);
    drop(checker);
    verified
}

/// Whether the proof is verified that a check returned this for: one with a wrong line, or with bytes that are no lines,
/// is not. Any other fault is returned.
fn is_verified(checked: Result<CheckVerdict, CheckerError>) -> Result<bool, CheckerError>
    ensures verdict { IfOk result (λ verified. verdict_of checked ≡ Some verified) }
    ensures fault { IfErr result (λ e. (checked ≡ Err e) × (verdict_of checked ≡ None)) }
{
    match checked {
        Ok(CheckVerdict::Refutation) => Ok(true),
        Ok(CheckVerdict::Derivation) => Ok(false),
        Err(CheckerError::CheckFailed { .. }) => Ok(false),
        Err(CheckerError::NoSuchClause { .. }) => Ok(false),
        Err(CheckerError::CoreNotAssumed { .. }) => Ok(false),
        Err(CheckerError::Parse { .. }) => Ok(false),
        Err(error) => Err(error),
    }
}

/// Whether the proof refutes the clauses of the text, with a new checker that is lent.
fn verify_in<A: Allocator + Copy, S: ByteSource, P: ByteSource>(
    checker: &mut Checker<A>,
    cnf: &mut S,
    proof: &mut P,
    format: ProofFormat,
) -> Result<bool, CheckerError>
    requires new { checker.old ≡ record { clauses = []; spent = false } }
    requires cnf_faults { (S.input cnf.old).faults < 2 ^ 64 - 1 }
    requires proof_faults { (P.input proof.old).faults < 2 ^ 64 - 1 }
    ensures verified { IfOk result
        (Verifies format (sources_of (S.input cnf.old) (P.input proof.old))
        (sources_of (S.input cnf.new) (P.input proof.new))) }
    ensures fails { IfErr result
        (FailsCheck (sources_of (S.input cnf.old) (P.input proof.old))
        (sources_of (S.input cnf.new) (P.input proof.new))) }
{
    checker.add_dimacs_cnf(cnf)?;
    let verified = is_verified(checker.check_proof(proof, format))?;
    Ok(verified)
}

/// Prints whether a proof was verified, and returns the status for it, or for a fault of `out`.
fn print_verdict<T: ProofTarget, E: Write>(out: &mut T, err: &mut E, verified: bool) -> u8
    requires { (T.taken out.old).faults < 2 ^ 64 - 1 }
    ensures { PrintsVerdict verified result (T.taken out.old) (T.taken out.new) }
{
    match print_text(out, text_of(verified)) {
        Ok(()) => status_of(verified),
        Err(error) => print_fault(err, &error),
    }
}

/// What is printed.
fn text_of(verified: bool) -> &'static [u8]
    ensures { result.now ≡ verdict_text verified }
{
    if verified {
        b"s VERIFIED\n"
    } else {
        b"s NOT VERIFIED\n"
    }
}

/// The status for it.
fn status_of(verified: bool) -> u8
    ensures { result ≡ verdict_status verified }
{
    if verified {
        STATUS_VERIFIED
    } else {
        STATUS_NOT_VERIFIED
    }
}

/// Puts the text into a target, and flushes it. One that fails has a beginning of the text.
pub fn print_text<T: ProofTarget>(target: &mut T, text: &[u8]) -> io::Result<()>
    requires { (T.taken target.old).faults < 2 ^ 64 - 1 }
    ensures { Puts (T.taken target.old) result text.now (T.taken target.new) }
{
    target.put(text)?;
    target.flush()
}

/// Prints a fault, and returns the status for it.
pub fn print_fault<E: Write, F: Display>(err: &mut E, fault: &F) -> u8
    ensures { result ≡ fault_status }
{
    // Where this writer fails too, nothing is left to print to.
    let _ = writeln!(err, "error: {fault}");
    STATUS_FAULT
}
