//! The commands of the program, over readers and writers.
ghost use Rattle.std.specs.Prelude.{◌≡◌, ◌-◌, ◌^◌, ◌<◌, ◌∷◌};
ghost use Rattle.varisat_literals.specs.promises.Numbers.{literal_text};
ghost use Rattle.varisat_formula.specs.promises.Written.{Puts};
ghost use Rattle.varisat.specs.promises.Lines.{literals_text};
ghost use Rattle.varisat.specs.promises.Decided.{concluded, StatusIsTrue, model_text, conclusion_text, conclusion_status};
ghost use Rattle.varisat.specs.promises.Proven.{CanCountFault, SolvesText};
ghost use Rattle.varisat_proof.specs.promises.Verified.{fault_status};

use crate::deciding::decide_text;
pub use crate::deciding::{Report, SolveOptions};
use crate::line::{parse_line, write_answer};
use crate::session::make_call;
use itoa::Buffer;
use std::alloc::Allocator;
use std::fmt::Display;
use std::io::{self, BufRead, BufReader, Empty, Read, Write};
use varisat_formula::io::{ByteSource, MemoryTarget, ProofTarget, ReadSource};
use varisat_literals::Lit;
use varisat_proof::program::print_text;
pub use varisat_proof::program::{STATUS_FAULT, check_drat_lines, check_lines, print_fault};
use varisat_solver::solver::{Solver, SolverError};

/// The status of a command that came to its end.
pub const STATUS_DONE: u8 = 0;

/// The status of `solve` where a model was found.
pub const STATUS_SATISFIABLE: u8 = 10;

/// The status of `solve` where there is none.
pub const STATUS_UNSATISFIABLE: u8 = 20;

/// Runs a session: each line of the input is one call of a new solver, and gets one line of answer. The status is 0 at
/// the end of the input. Where memory runs out for a line, or the reader or the writer fails, `error: ` and the cause
/// are reported on `err`, and the status is 2.
pub fn session_lines<A: Allocator + Copy, R: Read + Drop, W: Write, E: Write>(
    alloc: A,
    input: R,
    out: &mut W,
    err: &mut E,
) -> u8 {
    match answer_lines(alloc, input, out) {
        Ok(()) => STATUS_DONE,
        Err(error) => print_fault(err, &error),
    }
}

/// Reads a DIMACS CNF text and decides it. Prints `s SATISFIABLE` and a `v` line with the model, status 10, or `s
/// UNSATISFIABLE`, status 20; or `s UNKNOWN`, status 0, where the steps are spent before that is known. A target takes
/// the lines of the search as a proof, which is opened before a clause is accepted and closed before anything is
/// printed; then the target is there again. A fault of the text, its source, a target or memory is reported on `err`,
/// and the status is 2; nothing is printed then, or, where `out` failed, a beginning of what was to be. With `check` a
/// checker runs inside the solver, and with `progress` it is reported on `err`, after so many steps each and at the
/// end, how far the search is. Where the text was decided the solver's memory is kept: this is for a program that ends
/// then. The source and the targets have to have counted fewer than 2^64-1 faults.
pub fn solve_lines<A: Allocator + Copy, S: ByteSource, P: ProofTarget, T: ProofTarget, E: Write>(
    alloc: A,
    cnf: &mut S,
    proof: &mut Option<P>,
    options: SolveOptions,
    out: &mut T,
    err: &mut E,
) -> u8
    requires faults { (S.input cnf.old).faults < 2 ^ 64 - 1 }
    requires room { CanCountFault P.taken proof.old }
    requires out_faults { (T.taken out.old).faults < 2 ^ 64 - 1 }
    // Deciding fails, and nothing is printed; or the source gave a whole text, which a solver searched that has the limit,
    // the checker and the proof that the options ask for; and what it concluded was printed, or a beginning of that if a
    // call of `out` failed.
    ensures outcome { SolvesText P.taken options (S.input cnf.old) (S.input cnf.new) proof.old proof.new
        (T.taken out.old) (T.taken out.new) result }
    ensures truth { StatusIsTrue (S.input cnf.old) (S.input cnf.new) result }
{
    match decide_text(alloc, cnf, proof, options, err) {
        Ok(report) => match print_report(out, &report) {
            Ok(()) => status_of(&report),
            Err(error) => print_fault(err, &error),
        },
        Err(refusal) => print_fault(err, &refusal),
    }
}

/// Prints what a text was found to be.
pub fn print_report<T: ProofTarget, A: Allocator + Copy>(
    out: &mut T,
    report: &Report<A>,
) -> io::Result<()>
    requires { (T.taken out.old).faults < 2 ^ 64 - 1 }
    ensures { Puts (T.taken out.old) result (conclusion_text (concluded report.now)) (T.taken out.new) }
{
    match report {
        Report::Decided(Some(model)) => print_model(out, model),
        Report::Decided(None) => print_text(out, b"s UNSATISFIABLE\n"),
        Report::Unknown => print_text(out, b"s UNKNOWN\n"),
    }
}

/// The status for it.
pub fn status_of<A: Allocator + Copy>(report: &Report<A>) -> u8
    ensures { result ≡ conclusion_status (concluded report.now) }
{
    match report {
        Report::Decided(Some(_)) => STATUS_SATISFIABLE,
        Report::Decided(None) => STATUS_UNSATISFIABLE,
        Report::Unknown => STATUS_DONE,
    }
}

/// Prints that a model was found, and the model.
fn print_model<T: ProofTarget>(out: &mut T, model: &[Lit]) -> io::Result<()>
    requires { (T.taken out.old).faults < 2 ^ 64 - 1 }
    ensures { Puts (T.taken out.old) result (model_text model.now) (T.taken out.new) }
{
    out.put(b"s SATISFIABLE\nv")?;
    put_literals(out, model)?;
    print_text(out, b"\n")
}

/// Puts the literals' DIMACS numbers, each after a space, and then ` 0`.
fn put_literals<T: ProofTarget>(out: &mut T, literals: &[Lit]) -> io::Result<()>
    requires { (T.taken out.old).faults < 2 ^ 64 - 1 }
    ensures { Puts (T.taken out.old) result (literals_text literals.now) (T.taken out.new) }
{
    let mut buffer = Buffer::new();
    for literal in literals {
        put_literal(out, &mut buffer, *literal)?;
    }
    out.put(b" 0")
}

/// Puts a space and the literal's DIMACS number.
fn put_literal<T: ProofTarget>(out: &mut T, buffer: &mut Buffer, literal: Lit) -> io::Result<()>
    requires { (T.taken out.old).faults < 2 ^ 64 - 1 }
    ensures { Puts (T.taken out.old) result (32 ∷ literal_text literal) (T.taken out.new) }
{
    out.put(b" ")?;
    out.put(buffer.format(literal.to_dimacs()).as_bytes())
}

/// Tells how the program is called, and returns the status for a bad command line.
pub fn print_usage<E: Write>(err: &mut E) -> u8
    ensures { result ≡ fault_status }
{
    let _ = writeln!(err, "usage: varisat solve|check|session");
    STATUS_FAULT
}

/// Makes the calls of the lines in turn, in a new solver, and writes their answers.
// As in `decide_text`, what owns memory has a function of its own.
fn answer_lines<A: Allocator + Copy, R: Read + Drop, W: Write>(
    alloc: A,
    input: R,
    out: &mut W,
) -> io::Result<()> {
    let mut reader = BufReader::new(alloc, input)?;
    let mut solver: Solver<MemoryTarget<A>, A> = Solver::new_in(alloc);
    let written = answer_lines_in(alloc, &mut solver, &mut reader, out);
    drop(solver);
    written
}

/// Makes the calls of the lines in turn, and writes their answers.
fn answer_lines_in<A: Allocator + Copy, R: BufRead, W: Write>(
    alloc: A,
    solver: &mut Solver<MemoryTarget<A>, A>,
    reader: &mut R,
    out: &mut W,
) -> io::Result<()> {
    let mut line = Vec::new(alloc);
    for _ in 0..u64::MAX {
        line.clear();
        if reader.read_until(b'\n', &mut line)? == 0 {
            break;
        }
        let text = line.as_slice();
        answer_line(alloc, solver, text.strip_suffix(b"\n").unwrap_or(text), out)?;
        out.write_all(b"\n")?;
        out.flush()?;
    }
    Ok(())
}

/// Makes the call of one line, and writes its answer.
fn answer_line<A: Allocator + Copy, W: Write>(
    alloc: A,
    solver: &mut Solver<MemoryTarget<A>, A>,
    text: &[u8],
    out: &mut W,
) -> io::Result<()> {
    match parse_line::<ReadSource<Empty>, A>(alloc, text)? {
        Some(call) => write_answer(out, &make_call(solver, call)),
        None => out.write_all(b"bad line"),
    }
}
