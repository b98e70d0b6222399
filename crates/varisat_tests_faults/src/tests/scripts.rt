//! The lines of a session, answered by a solver whose heap or target fails where that is wanted. Before each answer stands
//! `+` where the solver is valid then, and else `-`. Two commands are added to those of a session: `formula` and `dimacs`, each
//! with a DIMACS CNF text behind a space, for the calls that take whole formulas and texts.
ghost use Rattle.std.specs.Prelude.{◌≡◌};

use std::alloc::{Allocator, Global};
use std::io::{self, Empty, Write};
use varisat::dimacs::DimacsParser;
use varisat::line::{parse_line, write_answer};
use varisat::proof::ProofFormat;
use varisat::session::{Answer, Call, make_call};
use varisat::solver::{Solver, SolverError};
use varisat_formula::io::{CutSource, CutTarget, MemoryTarget, ProofTarget, ReadSource};

/// A call of a session's line. What it is given takes memory of another heap than the solver's.
type LineCall = Call<MemoryTarget<Global>, ReadSource<Empty>, Global>;

/// What a line is answered.
type LineAnswer<A> = Answer<MemoryTarget<A>, ReadSource<Empty>, A>;

/// A solver whose target fails where that is wanted.
type CutSolver<A> = Solver<CutTarget<A>, A>;

/// The calls that targets fail: the numbers of the `put` and the `flush`, counted over all targets of a script, 0 where none
/// fails; and how many bytes such a `put` takes at most. Also how many calls there were, of the targets that came back.
#[derive(Clone, Copy, Debug, PartialEq, Eq)]
pub struct Cuts {
    pub put: u64,
    pub part: usize,
    pub flush: u64,
    pub puts: u64,
    pub flushes: u64,
}

/// Targets that do not fail.
pub const WHOLE: Cuts = Cuts {
    put: 0,
    part: 0,
    flush: 0,
    puts: 0,
    flushes: 0,
};

// The next target.
fn new_target<A: Allocator + Copy>(alloc: A, cuts: &Cuts) -> CutTarget<A>
    ensures { result.faults ≡ 0 }
{
    CutTarget::new_in(alloc)
        .failing_at_put(cuts.put.saturating_sub(cuts.puts), cuts.part)
        .failing_at_flush(cuts.flush.saturating_sub(cuts.flushes))
}

// Counts the calls of a target that came back.
fn count_calls<A: Allocator + Copy>(cuts: &mut Cuts, target: &CutTarget<A>) {
    cuts.puts = cuts.puts.saturating_add(target.puts());
    cuts.flushes = cuts.flushes.saturating_add(target.flushes());
}

fn open<A: Allocator + Copy>(
    alloc: A,
    solver: &mut CutSolver<A>,
    cuts: &mut Cuts,
    format: ProofFormat,
) -> LineAnswer<A> {
    match solver.write_proof(new_target(alloc, cuts), format) {
        Ok(()) => Answer::WriteProof(Ok(())),
        Err((error, target)) => {
            count_calls(cuts, &target);
            Answer::WriteProof(Err((error, MemoryTarget::new_in(alloc))))
        }
    }
}

// The core, copied to the solver's heap.
fn core<A: Allocator + Copy>(solver: &mut CutSolver<A>) -> LineAnswer<A> {
    let call: Call<CutTarget<A>, CutSource<'static>, A> = Call::FailedCore;
    match make_call(solver, call) {
        Answer::FailedCore(core) => Answer::FailedCore(core),
        _ => Answer::IsValid(false),
    }
}

// Makes a call that names a variable, or sets how variables are used.
fn answer_usage<A: Allocator + Copy>(
    solver: &mut CutSolver<A>,
    call: &LineCall,
) -> Option<LineAnswer<A>> {
    Some(match call {
        Call::NewVar => Answer::NewVar(solver.new_var()),
        Call::SampleVar(var) => Answer::SampleVar(solver.sample_var(*var)),
        Call::WitnessVar(var) => Answer::WitnessVar(solver.witness_var(*var)),
        Call::HideVar(var) => Answer::HideVar(solver.hide_var(*var)),
        Call::ObserveInternalVars => Answer::ObserveInternalVars(solver.observe_internal_vars()),
        _ => return None,
    })
}

// Makes a call that only returns something.
fn answer_question<A: Allocator + Copy>(
    solver: &mut CutSolver<A>,
    call: &LineCall,
) -> Option<LineAnswer<A>> {
    Some(match call {
        Call::Model => Answer::Model(solver.model()),
        Call::FailedCore => core(solver),
        Call::Steps => Answer::Steps(solver.steps()),
        Call::StepsSinceChange => Answer::StepsSinceChange(solver.steps_since_change()),
        _ => return None,
    })
}

// Makes any other call but the one that closes a proof.
fn answer_other<A: Allocator + Copy>(
    alloc: A,
    solver: &mut CutSolver<A>,
    cuts: &mut Cuts,
    call: &LineCall,
) -> LineAnswer<A> {
    match call {
        Call::AddClause(clause) => Answer::AddClause(solver.add_clause(clause)),
        Call::Assume(list) => Answer::Assume(solver.assume(list)),
        Call::Solve => Answer::Solve(solver.solve()),
        Call::Config(update) => Answer::Config(solver.config(update)),
        Call::WriteProof(_, format) => open(alloc, solver, cuts, *format),
        Call::EnableSelfChecking => Answer::EnableSelfChecking(solver.enable_self_checking()),
        _ => Answer::IsValid(false),
    }
}

fn answer<A: Allocator + Copy>(
    alloc: A,
    solver: &mut CutSolver<A>,
    cuts: &mut Cuts,
    call: &LineCall,
) -> LineAnswer<A> {
    if let Some(answer) = answer_usage(solver, call) {
        return answer;
    }
    match answer_question(solver, call) {
        Some(answer) => answer,
        None => answer_other(alloc, solver, cuts, call),
    }
}

// What adding the formula of a text comes to; none where the text has a fault.
fn add_formula<A: Allocator + Copy>(
    alloc: Global,
    solver: &mut CutSolver<A>,
    text: &str,
) -> Option<Result<(), SolverError>> {
    let formula = DimacsParser::parse(alloc, &mut CutSource::new(text.as_bytes()));
    match formula {
        Ok(formula) => Some(solver.add_formula(&formula)),
        Err(_) => None,
    }
}

// Makes the call of a line that has a text, if it is one.
fn answer_text<A: Allocator + Copy>(
    alloc: Global,
    solver: &mut CutSolver<A>,
    line: &str,
) -> Option<Result<(), SolverError>> {
    if let Some(text) = line.strip_prefix("dimacs ") {
        return Some(solver.add_dimacs_cnf(&mut CutSource::new(text.as_bytes())));
    }
    add_formula(alloc, solver, line.strip_prefix("formula ")?)
}

// Writes whether the solver is valid once a call is answered.
fn write_validity<A: Allocator + Copy>(out: &mut Vec<u8>, solver: &CutSolver<A>) -> io::Result<()> {
    let sign: &[u8] = if solver.is_valid() { b"+" } else { b"-" };
    out.write_all(sign)
}

// Writes whether the solver is valid, and the answer.
fn write_both<A: Allocator + Copy, B: Allocator + Copy>(
    out: &mut Vec<u8>,
    solver: &CutSolver<A>,
    answer: &LineAnswer<B>,
) -> io::Result<()> {
    write_validity(out, solver)?;
    write_answer(out, answer)
}

// The bytes that a target has, as what a session prints of them.
fn copied(alloc: Global, bytes: &[u8]) -> io::Result<LineAnswer<Global>> {
    let mut target = MemoryTarget::new_in(alloc);
    target.put(bytes)?;
    Ok(Answer::CloseProof(Ok(Some(target))))
}

// Closes the proof. What its target has is written to another heap.
fn close<A: Allocator + Copy>(
    alloc: Global,
    solver: &mut CutSolver<A>,
    cuts: &mut Cuts,
) -> io::Result<LineAnswer<Global>> {
    match solver.close_proof() {
        Ok(None) => Ok(Answer::CloseProof(Ok(None))),
        Ok(Some(target)) => {
            count_calls(cuts, &target);
            copied(alloc, target.bytes())
        }
        Err((error, target)) => {
            count_calls(cuts, &target);
            Ok(Answer::CloseProof(Err((error, MemoryTarget::new_in(alloc)))))
        }
    }
}

// Makes the call of a session's line, and writes whether the solver is valid then, and the answer.
fn answer_call<A: Allocator + Copy>(
    alloc: Global,
    heap: A,
    solver: &mut CutSolver<A>,
    cuts: &mut Cuts,
    line: &str,
    out: &mut Vec<u8>,
) -> io::Result<()> {
    match parse_line::<ReadSource<Empty>, Global>(alloc, line.as_bytes())? {
        None => {
            write_validity(out, solver)?;
            out.write_all(b"bad line")
        }
        Some(Call::CloseProof) => {
            let answer = close(alloc, solver, cuts)?;
            write_both(out, solver, &answer)
        }
        Some(call) => {
            let answer = answer(heap, solver, cuts, &call);
            write_both(out, solver, &answer)
        }
    }
}

// Makes the call of a line, and writes whether the solver is valid then, and the answer.
fn answer_line<A: Allocator + Copy>(
    alloc: Global,
    heap: A,
    solver: &mut CutSolver<A>,
    cuts: &mut Cuts,
    line: &str,
    out: &mut Vec<u8>,
) -> io::Result<()> {
    match answer_text(alloc, solver, line) {
        Some(done) => {
            let answer: LineAnswer<Global> = Answer::AddFormula(done);
            write_both(out, solver, &answer)?;
        }
        None => answer_call(alloc, heap, solver, cuts, line, out)?,
    }
    out.write_all(b"\n")
}

fn answer_lines<A: Allocator + Copy>(
    alloc: Global,
    heap: A,
    solver: &mut CutSolver<A>,
    cuts: &mut Cuts,
    script: &str,
    out: &mut Vec<u8>,
) -> io::Result<()> {
    for line in script.lines() {
        answer_line(alloc, heap, solver, cuts, line, out)?;
    }
    Ok(())
}

/// What a new solver in the heap answers to the lines.
pub fn answers_in<A: Allocator + Copy>(
    alloc: Global,
    heap: A,
    cuts: &mut Cuts,
    script: &str,
) -> io::Result<Vec<u8>> {
    let mut solver = Solver::new_in(heap);
    let mut out = Vec::new(alloc);
    let written = answer_lines(alloc, heap, &mut solver, cuts, script, &mut out);
    drop(solver);
    written?;
    Ok(out)
}
