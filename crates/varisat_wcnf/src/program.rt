//! What the program prints, and its status.
ghost use Rattle.std.specs.Prelude.{◌≡◌, ◌⊎◌, ◌-◌, ◌^◌, ◌<◌, ◌++◌, OnOk, IfOk, if◌then◌else◌};
ghost use Rattle.varisat_wcnf.specs.promises.Printed.{value_digits, solution_text, verdict_line, solution_status, PrintsText, PrintsAnswer, AnswersText};

use crate::costs::optimize_printing;
use crate::wcnf::{WcnfError, parse};
use std::alloc::{AllocError, Allocator};
use std::fmt::Display;
use std::io::Write;
use varisat_formula::io::ProofTarget;
use varisat_maxsat::problem::Problem;
use varisat_maxsat::solving::Solution;
use varisat_proof::program::print_text;

/// The status where a limit was met before a solution was found.
pub const STATUS_UNKNOWN: u8 = 0;

/// The status of a fault.
pub const STATUS_FAULT: u8 = 2;

/// The status of a solution that is not known to be an optimum.
pub const STATUS_SATISFIABLE: u8 = 10;

/// The status where no assignment satisfies the hard clauses.
pub const STATUS_UNSATISFIABLE: u8 = 20;

/// The status of an optimum.
pub const STATUS_OPTIMUM: u8 = 30;

/// Solves the problem of a WCNF text, and prints the answer as the MaxSAT Evaluations ask for it: a line `o` with the
/// cost of each solution that costs less than those before it, at once; then `s OPTIMUM FOUND` and `v`, status 30; `s
/// UNSATISFIABLE`, status 20; where a limit is met, as of steps or of memory, `s SATISFIABLE` and `v` of the best
/// solution until then, status 10, or where there is none `s UNKNOWN`, status 0, and `err` gets which limit. A fault of
/// the text is reported on `err` as `PATH:LINE: ` and what was expected, and the status is 2, as where the target fails,
/// or memory runs out as the text is read or values are written.
pub fn solve_lines<A: Allocator + Copy, T: ProofTarget, E: Write>(
    alloc: A,
    path: &str,
    text: &[u8],
    steps: Option<u64>,
    out: &mut T,
    err: &mut E,
) -> u8
    requires { (T.taken out.old).faults < 2 ^ 64 - 1 }
    ensures { AnswersText text.now (T.taken out.old) (T.taken out.new) result }
{
    match parse(text, alloc) {
        Ok(problem) => solve_problem(alloc, &problem, steps, out, err),
        Err(error) => tell_line(err, path, &error),
    }
}

/// Solves a problem, and prints the answer.
fn solve_problem<A: Allocator + Copy, T: ProofTarget, E: Write>(
    alloc: A,
    problem: &Problem<A>,
    steps: Option<u64>,
    out: &mut T,
    err: &mut E,
) -> u8
    requires { (T.taken out.old).faults < 2 ^ 64 - 1 }
    ensures { PrintsAnswer problem.now (T.taken out.old) (T.taken out.new) result }
{
    match optimize_printing(alloc, problem, steps, out) {
        Ok(Ok(Some(solution))) => print_solution(alloc, &solution, out, err),
        Ok(Ok(None)) => print_answer(b"s UNSATISFIABLE\n", STATUS_UNSATISFIABLE, out, err),
        Ok(Err(error)) => {
            // A writer that fails here leaves nothing to report.
            let _ = writeln!(err, "{error}");
            print_answer(b"s UNKNOWN\n", STATUS_UNKNOWN, out, err)
        }
        Err(error) => tell(err, &error),
    }
}

/// Prints whether a solution is an optimum, and its values; or nothing, where memory runs out.
fn print_solution<A: Allocator + Copy, T: ProofTarget, E: Write>(
    alloc: A,
    solution: &Solution<A>,
    out: &mut T,
    err: &mut E,
) -> u8
    requires { (T.taken out.old).faults < 2 ^ 64 - 1 }
    ensures { PrintsText (solution_text solution.now.is_optimum solution.now.values.items)
        (solution_status solution.now.is_optimum) (T.taken out.old) (T.taken out.new) result
        ⊎ ((T.taken out.new ≡ T.taken out.old) × (result ≡ 2)) }
{
    match written(alloc, solution.is_optimum, &solution.values) {
        Ok(text) => print_answer(&text, status_of(solution.is_optimum), out, err),
        Err(error) => tell(err, &error),
    }
}

/// What is printed behind the costs of solutions.
fn written<A: Allocator + Copy>(
    alloc: A,
    is_optimum: bool,
    values: &[bool],
) -> Result<Vec<u8, A>, AllocError>
    ensures { IfOk result (λ text. text.items ≡ solution_text is_optimum values.now) }
{
    let mut text = Vec::new(alloc);
    text.extend_from_slice(verdict_of(is_optimum))?;
    text.extend_from_slice(b"v ")?;
    put_values(&mut text, values)?;
    text.push(b'\n')?;
    Ok(text)
}

/// The line that tells whether a solution is an optimum.
fn verdict_of(is_optimum: bool) -> &'static [u8]
    ensures { result.now ≡ verdict_line is_optimum }
{
    if is_optimum {
        b"s OPTIMUM FOUND\n"
    } else {
        b"s SATISFIABLE\n"
    }
}

/// The status of a solution.
fn status_of(is_optimum: bool) -> u8
    ensures { result ≡ solution_status is_optimum }
{
    if is_optimum {
        STATUS_OPTIMUM
    } else {
        STATUS_SATISFIABLE
    }
}

/// Puts a digit for each value behind the text.
fn put_values<A: Allocator + Copy>(text: &mut Vec<u8, A>, values: &[bool]) -> Result<(), AllocError>
    ensures { OnOk result (text.new.items ≡ text.old.items ++ value_digits values.now) }
{
    for value in values {
        text.push(digit_of(*value))?;
    }
    Ok(())
}

/// The digit of a value.
fn digit_of(value: bool) -> u8
    ensures { result ≡ (if value then 49 else 48) }
{
    if value { b'1' } else { b'0' }
}

/// Prints a text, and returns its status, or that of a fault where the target fails.
fn print_answer<T: ProofTarget, E: Write>(text: &[u8], status: u8, out: &mut T, err: &mut E) -> u8
    requires { (T.taken out.old).faults < 2 ^ 64 - 1 }
    ensures { PrintsText text.now status (T.taken out.old) (T.taken out.new) result }
{
    match print_text(out, text) {
        Ok(()) => status,
        Err(error) => tell(err, &error),
    }
}

/// Tells a fault, and returns its status.
pub fn tell<E: Write, F: Display>(err: &mut E, fault: &F) -> u8
    ensures { result ≡ 2 }
{
    let _ = writeln!(err, "error: {fault}");
    STATUS_FAULT
}

/// Tells in which line of a file a fault is, and returns its status.
fn tell_line<E: Write>(err: &mut E, path: &str, error: &WcnfError) -> u8
    ensures { result ≡ 2 }
{
    let WcnfError { line, fault } = *error;
    tell(err, &format_args!("{path}:{line}: {fault}"))
}

/// Tells why a file cannot be read, and returns the status for it.
pub fn tell_file<E: Write, F: Display>(err: &mut E, path: &str, fault: &F) -> u8
    ensures { result ≡ 2 }
{
    tell(err, &format_args!("'{path}': {fault}"))
}
