//! Each growth, each `put` and each `flush` of a session fails in turn: the answers are as they should be up to the one
//! that returns it, and then those of an invalid solver.
use super::scripts::{Cuts, WHOLE, answers_in};
use std::alloc::{Allocator, Global};
use std::str;
use varisat::program::session_lines;
use varisat_formula::io::CutSource;
use varisat_tests_heap::CutHeap;
use varisat_tests_sessions::{Exchange, SETTINGS, SWEPT_SESSIONS};

/// Each call of a solver, behind a session.
const EPILOGUE: &str =
    "solve\nmodel\ncore\nmodel\ncore\nsteps\nsince\nnew\nadd 1\nassume 1\nformula 1 2 0 -1 3 0\ndimacs 1 -2 0 4 0\nsample 1\nwitness 1\nhide 1\nobserve\nconfig max_steps 1\nproof text\nproof binary\nproof marked\nselfcheck\nsolve\nclose\nclose\nsteps\nsince\nmodel\ncore\n";

/// Sessions of calls that no line of a session makes, and of a clause of forty literals, whose model is open.
const OTHER_SESSIONS: [Exchange; 8] = [
    ("dimacs 1 -2 0 2\nsolve\nmodel\ndimacs 1 0 p cnf 1 1\n", ""),
    // The first text takes no memory for its own: the room suffices that the clause before it left.
    ("add 1 2 -3\ndimacs 1 -2 0 3 0\nsolve\n", ""),
    (
        "add 1 2 -3\ndimacs 1 -2 0 3 0 4 5 6 7 8 9 10 11 12 13 14 15 16 17 18 19 20 0\nsolve\n",
        "",
    ),
    // So it is of these, of which the third clause is deleted as it is loaded. By the unit the clause before the text loses a
    // literal.
    (
        "proof text\nadd 1 2 -3\ndimacs 1 -2 0 3 0 4 3 0\nsolve\n",
        "",
    ),
    (
        "proof text\nadd 1 2 -3\ndimacs 1 -2 0 3 0 5 3 0\nsolve\n",
        "",
    ),
    ("formula 1 -2 0 3 0\nsolve\nmodel\n", ""),
    (
        "proof marked\nformula 1 2 0 -1 3 0\nsolve\nassume -2 3 -2\nsolve\nadd 2 -3\ndimacs -1 0 -2 0 3 3 0\nassume 3 2\nsolve\n",
        "",
    ),
    (
        "add 1 2 3 4 5 6 7 8 9 10 11 12 13 14 15 16 17 18 19 20 21 22 23 24 25 26 27 28 29 30 31 32 33 34 35 36 37 38 39 40\nsolve\nsteps\n",
        "",
    ),
];

/// How answers are to those of a solver for which nothing failed: the same, cut where a call returned a fault, or wrong.
#[derive(Clone, Copy, Debug, PartialEq, Eq)]
enum Swept {
    Same,
    Cut,
    Wrong,
}

// Whether the bytes that a target came back with are a beginning of what it would have had.
fn is_beginning(answer: &str, whole: &str) -> bool {
    match (answer.get(1..), whole.get(1..)) {
        (Some(reported), Some(all)) => reported.starts_with("ok") && all.starts_with(reported),
        _ => false,
    }
}

// Whether an invalid solver answers the line so, where it returned these counts before.
fn is_invalid_answer(line: &str, answer: &str, whole: &str, reported: Option<&str>) -> bool {
    match line {
        "model" | "core" => answer == "-ok none",
        "steps" | "since" => match reported {
            Some(reported) => answer == reported,
            None => answer.starts_with("-ok ") && answer != "-ok none",
        },
        "close" => answer == "-ok none" || (answer.starts_with("-") && is_beginning(answer, whole)),
        _ if whole == "+bad line" => answer == "-bad line",
        _ => answer == "-err 4",
    }
}

// Whether a valid solver may answer the line so in place of what it should: a list that gets no memory changes nothing.
fn is_refused_list(line: &str, answer: &str) -> bool {
    (line == "model" || line == "core") && answer == "+err 3"
}

// What an invalid solver returned of its counts. They stay, but that a proof is closed sets the steps since then to 0.
#[derive(Clone, Copy)]
struct Reported<'a> {
    steps: Option<&'a str>,
    since: Option<&'a str>,
}

impl<'a> Reported<'a> {
    // What was logged in answer to the line.
    fn of(&self, line: &str) -> Option<&'a str> {
        if line == "steps" {
            self.steps
        } else {
            self.since
        }
    }

    fn report(&mut self, line: &str, answer: &'a str) {
        match line {
            "steps" => self.steps = Some(answer),
            "since" => self.since = Some(answer),
            "close" => self.since = Some("-ok 0"),
            _ => {}
        }
    }
}

// How the answers to the lines are, beside those where nothing failed.
fn compare(script: &str, whole: &str, cut: &str) -> Swept {
    let mut swept = Swept::Same;
    let mut is_invalid = false;
    let mut reported = Reported {
        steps: None,
        since: None,
    };
    for ((line, wanted), answer) in script.lines().zip(whole.lines()).zip(cut.lines()) {
        if is_invalid {
            if !is_invalid_answer(line, answer, wanted, reported.of(line)) {
                return Swept::Wrong;
            }
            reported.report(line, answer);
        } else if answer == "-err 3" || answer == "-err 2" {
            is_invalid = true;
            swept = Swept::Cut;
        } else if is_refused_list(line, answer) && swept == Swept::Same {
            swept = Swept::Cut;
        } else if answer != wanted {
            return Swept::Wrong;
        }
    }
    if cut.lines().count() == script.lines().count() {
        swept
    } else {
        Swept::Wrong
    }
}

fn compare_bytes(script: &str, whole: &[u8], cut: &[u8]) -> Swept {
    match (str::from_utf8(whole), str::from_utf8(cut)) {
        (Ok(whole), Ok(cut)) => compare(script, whole, cut),
        _ => Swept::Wrong,
    }
}

// How many growths of the session may be refused, each of which comes out as it should.
fn sweep_growths(alloc: Global, script: &str, whole: &[u8]) -> Option<u64> {
    let heap = CutHeap::new(alloc);
    for number in 1..10_000 {
        let mut cuts = WHOLE;
        heap.refuse(number);
        let cut = answers_in(alloc, &heap, &mut cuts, script).ok()?;
        let swept = compare_bytes(script, whole, &cut);
        if heap.growths() < number {
            return (swept == Swept::Same).then_some(number - 1);
        }
        if swept != Swept::Cut {
            return None;
        }
    }
    None
}

// Whether the answers come out as they should where the targets fail so.
fn is_cut(alloc: Global, cuts: Cuts, script: &str, whole: &[u8]) -> bool {
    let mut cuts = cuts;
    match answers_in(alloc, alloc, &mut cuts, script) {
        Ok(cut) => compare_bytes(script, whole, &cut) == Swept::Cut,
        Err(_) => false,
    }
}

fn failing_put(put: u64, part: usize) -> Cuts {
    let mut cuts = WHOLE;
    cuts.put = put;
    cuts.part = part;
    cuts
}

fn failing_flush(flush: u64) -> Cuts {
    let mut cuts = WHOLE;
    cuts.flush = flush;
    cuts
}

// Whether each of so many calls of the targets may fail, of which a `put` takes nothing or one byte.
fn are_cut(alloc: Global, calls: &Cuts, script: &str, whole: &[u8]) -> bool {
    for place in 0..calls.puts {
        let put = place.saturating_add(1);
        if !is_cut(alloc, failing_put(put, 0), script, whole)
            || !is_cut(alloc, failing_put(put, 1), script, whole)
        {
            return false;
        }
    }
    (0..calls.flushes).all(|place| {
        is_cut(alloc, failing_flush(place.saturating_add(1)), script, whole)
    })
}

/// How many growths were refused, and how many calls of `put` and of `flush` failed.
#[derive(Clone, Copy, Debug)]
struct Counts {
    growths: u64,
    puts: u64,
    flushes: u64,
}

fn joined(alloc: Global, settings: &str, session: &str) -> Option<String> {
    let mut script = String::new(alloc);
    script.push_str(settings).ok()?;
    script.push_str(session).ok()?;
    if !session.ends_with("\n") {
        script.push_str("\n").ok()?;
    }
    script.push_str(EPILOGUE).ok()?;
    Some(script)
}

// The answers of a session, which say nothing of whether the solver is valid, with signs for that: it is until a call returns a
// fault, but for a list that gets no memory.
fn with_signs(alloc: Global, script: &str, answers: &str) -> Option<String> {
    let mut signed = String::new(alloc);
    let mut is_valid = true;
    for (line, answer) in script.lines().zip(answers.lines()) {
        let is_list = line == "model" || line == "core";
        if answer == "err 2" || (answer == "err 3" && !is_list) {
            is_valid = false;
        }
        signed.push_str(if is_valid { "+" } else { "-" }).ok()?;
        signed.push_str(answer).ok()?;
        signed.push_str("\n").ok()?;
    }
    Some(signed)
}

// The signed answers of the session's lines in the heap, and whether its end was reached.
fn session_in<A: Allocator + Copy>(alloc: Global, heap: A, script: &str) -> Option<(String, bool)> {
    let (mut out, mut err) = (Vec::new(alloc), Vec::new(alloc));
    let input = CutSource::new(script.as_bytes());
    let status = session_lines(heap, input, &mut out, &mut err);
    let signed = with_signs(alloc, script, str::from_utf8(&out).ok()?)?;
    let is_ended = err.is_empty();
    ((status == 0) == is_ended).then_some((signed, is_ended))
}

// How many growths of the session's lines may be refused. Where there is no memory for a line the session ends.
fn sweep_lines(alloc: Global, script: &str) -> Option<u64> {
    let (whole, _) = session_in(alloc, alloc, script)?;
    let heap = CutHeap::new(alloc);
    for number in 1..10_000 {
        heap.refuse(number);
        let (cut, is_ended) = session_in(alloc, &heap, script)?;
        if heap.growths() < number {
            return (cut.as_str() == whole.as_str()).then_some(number - 1);
        }
        let is_right = if is_ended {
            compare(script, &whole, &cut) == Swept::Cut
        } else {
            whole.starts_with(cut.as_str())
        };
        if !is_right {
            return None;
        }
    }
    None
}

// Goes through all points at which the session can fail.
fn sweep(alloc: Global, settings: &str, session: &str) -> Option<Counts> {
    let script = joined(alloc, settings, session)?;
    let mut calls = WHOLE;
    let whole = answers_in(alloc, alloc, &mut calls, &script).ok()?;
    let growths = sweep_growths(alloc, &script, &whole)?;
    if growths == 0 || !are_cut(alloc, &calls, &script, &whole) {
        return None;
    }
    Some(Counts {
        growths,
        puts: calls.puts,
        flushes: calls.flushes,
    })
}

// Goes through the sessions of a table, and adds what was counted. The one that fails is returned.
fn sweep_table(
    alloc: Global,
    settings: &'static str,
    table: &[Exchange],
    all: &mut Counts,
) -> Option<&'static str> {
    for (session, _) in table {
        match sweep(alloc, settings, *session) {
            Some(counts) => {
                all.growths = all.growths.saturating_add(counts.growths);
                all.puts = all.puts.saturating_add(counts.puts);
                all.flushes = all.flushes.saturating_add(counts.flushes);
            }
            None => return Some(*session),
        }
    }
    None
}

#[test]
fn each_growth_of_a_session_may_be_refused(rt: HostRuntime) {
    let mut all: u64 = 0;
    for table in SWEPT_SESSIONS {
        for (session, _) in table {
            let growths = match joined(rt.alloc(), "", *session) {
                Some(script) => sweep_lines(rt.alloc(), &script),
                None => None,
            };
            match growths {
                Some(growths) if growths > 0 => all = all.saturating_add(growths),
                _ => panic!(rt; "{session}"),
            }
        }
    }
    println!(rt; "{all} growths").unwrap_or(());
}

#[test]
fn each_fault_of_a_session_is_met(rt: HostRuntime) {
    let mut all = Counts {
        growths: 0,
        puts: 0,
        flushes: 0,
    };
    for (settings, _) in SETTINGS {
        for table in SWEPT_SESSIONS {
            let wrong = sweep_table(rt.alloc(), settings, table, &mut all);
            assert!(rt; wrong.is_none(), "{settings}{wrong:?}");
        }
        let wrong = sweep_table(rt.alloc(), settings, &OTHER_SESSIONS, &mut all);
        assert!(rt; wrong.is_none(), "{settings}{wrong:?}");
    }
    println!(rt; "{all:?}").unwrap_or(());
}
