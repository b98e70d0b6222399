//! What `solve` prints, and its status.
ghost use Rattle.std.specs.Prelude.{◌≡◌, ◌-◌, ◌^◌, ◌<◌};
ghost use Rattle.varisat_formula.specs.promises.Written.{Puts};
ghost use Rattle.varisat.specs.promises.Decided.{StatusIsTrue, concluded};
ghost use Rattle.varisat.specs.promises.Proven.{CanCountFault};
ghost use Rattle.varisat_proof.specs.promises.Verified.{fault_status};
ghost use Rattle.varisat_solve.specs.promises.Solving.{shown_text};
ghost use Rattle.varisat_solve.specs.promises.Timing.{SolvesInTime};

use crate::deciding::decide;
pub use crate::options::{ModelLines, ProgramOptions, Simplification};
use crate::watch::Watch;
use crate::wrapping::print_wrapped;
use std::alloc::Allocator;
use std::io::{self, Write};
use std::time::{Clock, CpuClock};
use varisat::dimacs::{DimacsError, DimacsErrorKind};
use varisat::io::{ByteSource, ProofTarget};
pub use varisat::program::SolveOptions;
use varisat::program::{Report, STATUS_SATISFIABLE, print_fault, print_report, status_of};
use varisat::solver::SolverError;
use varisat_proof::program::print_text;

/// Reads a DIMACS CNF text and decides it, as `varisat::program::solve_lines` does, except that the text's formula may be
/// simplified before it is searched: `options.simplification` says which formulas are. A model is one of the text's formula,
/// and a proof one from the text's clauses. A proof as marked text gives each clause of the text, and so no formula is
/// simplified then. A formula that is not simplified is searched as `varisat::program::solve_lines` searches it, with the
/// same steps, model and proof. With `progress` it is reported on `err` what simplifying left, and how long it took; with
/// `counts`, what was counted, and how many milliseconds reading, simplifying, the search and the end of the proof took.
/// `model_lines` says how a model is printed. A fault of the text, which is in the file of this name, is told in words too.
/// Once the process has taken `max_seconds` of CPU time no further step is made: all is then as if `search.max_steps` were the
/// steps that were allowed by then. The time is asked for after the text is read and between rounds of steps, so that it may be
/// exceeded. Reading or simplifying is not cut short; but nothing is simplified once the time is spent.
pub fn solve_lines<
    A: Allocator + Copy,
    S: ByteSource,
    P: ProofTarget,
    T: ProofTarget,
    E: Write,
    C: Clock + CpuClock,
>(
    alloc: A,
    name: &str,
    cnf: &mut S,
    proof: &mut Option<P>,
    options: ProgramOptions,
    clock: &C,
    out: &mut T,
    err: &mut E,
) -> u8
    requires faults { (S.input cnf.old).faults < 2 ^ 64 - 1 }
    requires room { CanCountFault P.taken proof.old }
    requires out_faults { (T.taken out.old).faults < 2 ^ 64 - 1 }
    // Deciding fails, and nothing is printed; or the source gave a whole text, which a solver searched that has the limit, the
    // checker and the proof that the options ask for; and what it concluded was printed, or a beginning of that if a call of
    // `out` failed. If the time is limited, the limit of steps may be a lower one.
    ensures outcome { SolvesInTime P.taken options (S.input cnf.old) (S.input cnf.new) proof.old proof.new
        (T.taken out.old) (T.taken out.new) result }
    ensures truth { StatusIsTrue (S.input cnf.old) (S.input cnf.new) result }
{
    let watch = Watch::new(clock, options.counts, options.max_seconds);
    let mut asked = options;
    match decide(alloc, cnf, proof, &mut asked, &watch, err) {
        Ok(report) => match print_shown(out, &report, options.model_lines) {
            Ok(()) => status_of(&report),
            Err(error) => print_fault(err, &error),
        },
        Err(refusal) => print_refusal(err, name, &refusal),
    }
}

/// Prints what a text was found to be, and a model as it is to be printed.
fn print_shown<T: ProofTarget, A: Allocator + Copy>(
    out: &mut T,
    report: &Report<A>,
    model_lines: ModelLines,
) -> io::Result<()>
    requires { (T.taken out.old).faults < 2 ^ 64 - 1 }
    ensures { Puts (T.taken out.old) result (shown_text model_lines (concluded report.now)) (T.taken out.new) }
{
    match model_lines {
        ModelLines::One => print_report(out, report),
        ModelLines::Wrapped => print_wrapped(out, report),
        ModelLines::Hidden => print_verdict(out, report),
    }
}

/// Prints what a text was found to be, of a model only that there is one.
fn print_verdict<T: ProofTarget, A: Allocator + Copy>(
    out: &mut T,
    report: &Report<A>,
) -> io::Result<()>
    requires { (T.taken out.old).faults < 2 ^ 64 - 1 }
    ensures { Puts (T.taken out.old) result (shown_text ModelLines.Hidden (concluded report.now)) (T.taken out.new) }
{
    if status_of(report) == STATUS_SATISFIABLE {
        print_text(out, b"s SATISFIABLE\n")
    } else {
        print_report(out, report)
    }
}

/// Tells why a text is not decided. Of a fault in it a second line has the file, the line and the reason, as compilers tell
/// them. Returns the status of a fault.
fn print_refusal<E: Write>(err: &mut E, name: &str, refusal: &SolverError) -> u8
    ensures { result ≡ fault_status }
{
    let status = print_fault(err, refusal);
    if let SolverError::Dimacs { cause } = refusal {
        tell_text_fault(err, name, cause);
    }
    status
}

/// Tells the fault of the text in the file of this name: the file, the line and the reason in words.
pub fn tell_text_fault<E: Write>(err: &mut E, name: &str, fault: &DimacsError) {
    let (line, reason) = (fault.line, reason_of(fault.kind));
    // A writer that fails here leaves nothing to report.
    let _ = writeln!(err, "{name}:{line}: {reason}");
}

/// What is wrong with a text, in words.
fn reason_of(kind: DimacsErrorKind) -> &'static str {
    match kind {
        DimacsErrorKind::UnexpectedInput => "expected the number of a literal, or 0",
        DimacsErrorKind::LiteralTooLarge => "there are no more than 268435456 variables",
        DimacsErrorKind::InvalidHeader => {
            "expected p cnf VARIABLES CLAUSES, once and in front of the clauses"
        }
        DimacsErrorKind::VarCount => "the header tells fewer variables",
        DimacsErrorKind::ClauseCount => "the header tells another number of clauses",
        DimacsErrorKind::UnterminatedClause => "the text ends within a clause, without 0",
        DimacsErrorKind::Io => "the text could not be read further",
        DimacsErrorKind::OutOfMemory => "out of memory",
    }
}
