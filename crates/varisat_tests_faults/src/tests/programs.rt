//! Commands of the program of which a growth is refused, or a call of a source or of the target of a proof fails: they print
//! nothing, report the cause, and end with the status of a fault.
use std::alloc::{Allocator, Global};
use varisat::program::{SolveOptions, check_drat_lines, check_lines, solve_lines};
use varisat::proof::ProofFormat;
use varisat_formula::io::{CutSource, CutTarget, MemoryTarget};
use varisat_tests_heap::CutHeap;

/// The calls that fail, 0 where none does: of the sources of the formula and the proof, which come byte by byte, and of `put`
/// and `flush` of a target. Also how many calls of each there are.
#[derive(Clone, Copy, Debug)]
struct Calls {
    cnf: u64,
    proof: u64,
    put: u64,
    flush: u64,
}

const NONE: Calls = Calls {
    cnf: 0,
    proof: 0,
    put: 0,
    flush: 0,
};

/// What a command prints, and its status.
type Printed = (&'static str, u8);

/// A text, a proof and its format; what deciding the text prints, and what checking the proof.
type Row = (&'static str, &'static [u8], ProofFormat, Printed, Printed);

const SQUARE: &str = "p cnf 2 4\n1 2 0\n-1 2 0\n1 -2 0\n-1 -2 0\n";

const UNSATISFIABLE: Printed = ("s UNSATISFIABLE\n", 20);

const VERIFIED: Printed = ("s VERIFIED\n", 0);

const ROWS: [Row; 5] = [
    (
        SQUARE,
        b"2 0\n0\n",
        ProofFormat::Drat,
        UNSATISFIABLE,
        VERIFIED,
    ),
    (
        SQUARE,
        b"a\x04\0d\x02\x04\0a\0",
        ProofFormat::BinaryDrat,
        UNSATISFIABLE,
        VERIFIED,
    ),
    (
        SQUARE,
        b"i 1 2 0\ni -1 2 0\nq -2 0\nf -2 0\ni 1 -2 0\ni -2 -1 0\n1 0\n",
        ProofFormat::Marked,
        UNSATISFIABLE,
        VERIFIED,
    ),
    (
        "c three\n1 2 3 0 -1 0\n-2 0",
        b"d 3 2 1 0\n",
        ProofFormat::Drat,
        ("s SATISFIABLE\nv -1 -2 3 0\n", 10),
        ("s NOT VERIFIED\n", 1),
    ),
    // A header names no variable.
    (
        "p cnf 5 2\n1 2 0\n-1 0\n",
        b"2 0\n",
        ProofFormat::Drat,
        ("s SATISFIABLE\nv -1 2 0\n", 10),
        ("s NOT VERIFIED\n", 1),
    ),
];

/// A proof with RAT lines, and with a deletion that finds no clause.
const DRAT_ROW: Row = (
    "1 2 3 0\n1 2 -3 0\n1 -2 3 0\n1 -2 -3 0\n-1 2 3 0\n-1 2 -3 0\n-1 -2 3 0\n-1 -2 -3 0\n",
    b"4 1 0\n-4 -1 0\nd 7 8 0\n1 2 0\n1 0\n2 0\n",
    ProofFormat::Drat,
    UNSATISFIABLE,
    VERIFIED,
);

/// Which command is run, and on what. A check that takes RAT lines reports how many there were.
#[derive(Clone, Copy)]
struct Command {
    row: Row,
    max_steps: Option<u64>,
    is_check: bool,
    is_drat: bool,
    has_checker: bool,
}

/// What came of a command: what it printed and reported, its status, and how many calls there were.
#[derive(Drop)]
struct Outcome {
    out: MemoryTarget<Global>,
    err: Vec<u8>,
    status: u8,
    calls: Calls,
}

// What comes of deciding a text with a proof. The calls of a target that does not come back are not counted.
fn decide<A: Allocator + Copy>(
    alloc: Global,
    heap: A,
    command: Command,
    failing: Calls,
) -> Outcome {
    let (mut out, mut err) = (MemoryTarget::new_in(alloc), Vec::new(alloc));
    let (text, _, format, _, _) = command.row;
    let options = SolveOptions {
        check: command.has_checker,
        max_steps: command.max_steps,
        progress: None,
        format,
    };
    let mut cnf = CutSource::new(text.as_bytes())
        .in_pieces(0, 1)
        .failing_at(failing.cnf);
    let target = CutTarget::new_in(heap)
        .failing_at_put(failing.put, 1)
        .failing_at_flush(failing.flush);
    let mut proof = Some(target);
    let status = solve_lines(heap, &mut cnf, &mut proof, options, &mut out, &mut err);
    let mut calls = NONE;
    calls.cnf = cnf.fills();
    if let Some(target) = &proof {
        calls.put = target.puts();
        calls.flush = target.flushes();
    }
    Outcome {
        out,
        err,
        status,
        calls,
    }
}

// What comes of checking a proof.
fn check<A: Allocator + Copy>(alloc: Global, heap: A, command: Command, failing: Calls) -> Outcome {
    let (mut out, mut err) = (MemoryTarget::new_in(alloc), Vec::new(alloc));
    let (text, bytes, format, _, _) = command.row;
    let mut cnf = CutSource::new(text.as_bytes())
        .in_pieces(0, 1)
        .failing_at(failing.cnf);
    let mut proof = CutSource::new(bytes)
        .in_pieces(0, 1)
        .failing_at(failing.proof);
    let status = if command.is_drat {
        check_drat_lines(heap, &mut cnf, &mut proof, format, &mut out, &mut err)
    } else {
        check_lines(heap, &mut cnf, &mut proof, format, &mut out, &mut err)
    };
    let mut calls = NONE;
    calls.cnf = cnf.fills();
    calls.proof = proof.fills();
    Outcome {
        out,
        err,
        status,
        calls,
    }
}

fn run<A: Allocator + Copy>(alloc: Global, heap: A, command: Command, failing: Calls) -> Outcome {
    if command.is_check {
        check(alloc, heap, command, failing)
    } else {
        decide(alloc, heap, command, failing)
    }
}

// Whether the command printed what it should.
fn is_answered(outcome: &Outcome, command: Command) -> bool {
    let (_, _, _, decided, checked) = command.row;
    let (wanted, status) = if command.is_check { checked } else { decided };
    (outcome.out.bytes() == wanted.as_bytes())
        & (outcome.err.is_empty() | command.is_drat)
        & (outcome.status == status)
}

// Whether the command failed and reported this cause, by its beginning and end.
fn has_failed(outcome: &Outcome, cause: (&str, &str)) -> bool {
    outcome.out.bytes().is_empty()
        & (outcome.status == 2)
        & outcome.err.starts_with(cause.0.as_bytes())
        & outcome.err.ends_with(cause.1.as_bytes())
}

// How many growths of the command may be refused.
fn sweep_growths(alloc: Global, command: Command) -> Option<u64> {
    let heap = CutHeap::new(alloc);
    for number in 1..1000 {
        heap.refuse(number);
        let outcome = run(alloc, &heap, command, NONE);
        if heap.growths() < number {
            return is_answered(&outcome, command).then_some(number - 1);
        }
        if !has_failed(&outcome, ("error: ", "ut of memory\n")) {
            return None;
        }
    }
    None
}

// Whether the command fails with this cause where that call does.
fn is_cut(alloc: Global, command: Command, failing: Calls, cause: (&str, &str)) -> bool {
    has_failed(&run(alloc, alloc, command, failing), cause)
}

// What may fail beside memory.
#[derive(Clone, Copy)]
enum Point {
    Cnf,
    Proof,
    Put,
    Flush,
}

// How the cause of each begins and ends.
const POINTS: [(Point, (&str, &str)); 4] = [
    (
        Point::Cnf,
        ("error: Error in DIMACS input: line ", ": Io\n"),
    ),
    (Point::Proof, ("error: Error reading the proof: ", "\n")),
    (Point::Put, ("error: Error writing proof file: ", "\n")),
    (Point::Flush, ("error: Error writing proof file: ", "\n")),
];

fn count_of(point: Point, calls: Calls) -> u64 {
    match point {
        Point::Cnf => calls.cnf,
        Point::Proof => calls.proof,
        Point::Put => calls.put,
        Point::Flush => calls.flush,
    }
}

// The call of this number fails there.
fn failing_at(point: Point, number: u64) -> Calls {
    let mut calls = NONE;
    match point {
        Point::Cnf => calls.cnf = number,
        Point::Proof => calls.proof = number,
        Point::Put => calls.put = number,
        Point::Flush => calls.flush = number,
    }
    calls
}

// Whether each of so many calls may fail, of which a `put` takes a byte.
fn are_cut(alloc: Global, command: Command, calls: Calls) -> bool {
    for (point, cause) in POINTS {
        for place in 0..count_of(point, calls) {
            let failing = failing_at(point, place.saturating_add(1));
            if !has_failed(&run(alloc, alloc, command, failing), cause) {
                return false;
            }
        }
    }
    true
}

// How many growths and calls of the command may fail, of which there are some.
fn sweep(alloc: Global, command: Command) -> Option<(u64, Calls)> {
    let outcome = run(alloc, alloc, command, NONE);
    let calls = outcome.calls;
    let growths = sweep_growths(alloc, command)?;
    let has_some = (growths > 0) & (calls.cnf > 0);
    if has_some & is_answered(&outcome, command) & are_cut(alloc, command, calls) {
        Some((growths, calls))
    } else {
        None
    }
}

// Deciding, also with a checker inside, and checking.
const COMMANDS: [(bool, bool); 3] = [(false, false), (false, true), (true, false)];

#[test]
fn each_fault_of_a_command_is_told(rt: HostRuntime) {
    for row in ROWS {
        for (is_check, has_checker) in COMMANDS {
            let command = Command {
                row,
                max_steps: None,
                is_check,
                is_drat: false,
                has_checker,
            };
            let swept = sweep(rt.alloc(), command);
            assert!(rt; swept.is_some(), "{} {is_check} {has_checker}", row.0);
            println!(rt; "{swept:?}").unwrap_or(());
        }
    }
}

#[test]
fn each_fault_of_a_check_with_rat_lines_is_told(rt: HostRuntime) {
    let command = Command {
        row: DRAT_ROW,
        max_steps: None,
        is_check: true,
        is_drat: true,
        has_checker: false,
    };
    let swept = sweep(rt.alloc(), command);
    assert!(rt; swept.is_some());
    println!(rt; "{swept:?}").unwrap_or(());
}

const UNKNOWN: Printed = ("s UNKNOWN\n", 0);

const FAULT: Printed = ("", 2);

const FULL: &str = "error: Error writing proof file: ";

const BAD_LINE: &str = "error: Error in DIMACS input: line 3: UnexpectedInput\n";

/// A text, how many steps may be made, which `put` and which `flush` fails, if any does, what is printed then, and how the
/// fault begins that is reported. A proof is flushed as the search ends and as it is closed.
type TargetRow = (&'static str, Option<u64>, u64, u64, Printed, &'static str);

const TARGETS: [TargetRow; 12] = [
    (SQUARE, None, 0, 3, UNSATISFIABLE, ""),
    // A satisfied clause is deleted as it is loaded.
    (
        "1 0\n2 1 2 0\n",
        None,
        2,
        3,
        ("s SATISFIABLE\nv 1 -2 0\n", 10),
        "",
    ),
    ("1 0\n2 1 2 0\n", None, 1, 0, FAULT, FULL),
    // A fault of the text stands behind the clauses before it.
    ("1 0\n2 1 2 0\nx\n", None, 1, 0, FAULT, FULL),
    ("1 0\n2 1 2 0\nx\n", None, 2, 0, FAULT, BAD_LINE),
    (SQUARE, None, 1, 0, FAULT, FULL),
    (SQUARE, None, 2, 0, FAULT, FULL),
    (SQUARE, None, 0, 1, FAULT, FULL),
    (SQUARE, None, 0, 2, FAULT, FULL),
    ("1 0\n", None, 1, 3, ("s SATISFIABLE\nv 1 0\n", 10), ""),
    ("1 0\n", Some(0), 1, 3, UNKNOWN, ""),
    ("1 0\n", Some(0), 0, 1, FAULT, FULL),
];

#[test]
fn faults_of_targets_are_told(rt: HostRuntime) {
    for (text, max_steps, put, flush, printed, fault) in TARGETS {
        for has_checker in [false, true] {
            let command = Command {
                row: (text, b"", ProofFormat::Drat, printed, printed),
                max_steps,
                is_check: false,
                is_drat: false,
                has_checker,
            };
            let mut failing = NONE;
            failing.put = put;
            failing.flush = flush;
            let outcome = run(rt.alloc(), rt.alloc(), command, failing);
            let is_right = (outcome.out.bytes() == printed.0.as_bytes())
                & (outcome.status == printed.1)
                & outcome.err.starts_with(fault.as_bytes())
                & (outcome.err.is_empty() == fault.is_empty());
            assert!(rt; is_right, "{text}");
        }
    }
}
