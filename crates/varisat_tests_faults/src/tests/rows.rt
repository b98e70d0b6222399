//! Calls under an open proof, targets that fail, and refusals that are asked for twice.
use super::scripts::{Cuts, WHOLE, answers_in};
use std::alloc::Global;
use varisat_tests_heap::CutHeap;
use varisat_tests_sessions::SETTINGS;

/// The number of the `put` that fails, how many bytes it takes, and the number of the `flush` that fails; lines, and their
/// answers; how often `put` and `flush` are called.
type Row = ((u64, usize, u64), &'static str, &'static str, (u64, u64));

const ROWS: [Row; 17] = [
    // Under a marked proof clauses and assumptions go on, and are refused for their names as ever.
    (
        (0, 0, 0),
        "witness 3\nproof marked\nassume 3\nadd 1 2\nsolve\nadd 3\nadd -1\nassume 1 268435457\nassume -2\nsolve\nproof marked\nclose\nproof marked\n",
        "+ok\n+ok\n+err 6\n+ok\n+ok true\n+err 6\n+ok\n+err 7\n+ok\n+ok false\n+err 10\n+ok 692031203220300a69202d3120300a71202d3220300a3220300a642031203220300a66202d3220300a\n+err 11\n",
        (6, 3),
    ),
    // Its target fails as a list of assumptions is logged, of which it takes a byte.
    (
        (2, 1, 0),
        "proof marked\nadd 1 2\nassume -1\nassume -1\nclose\nclose\n",
        "+ok\n+ok\n-err 2\n-err 4\n-ok 692031203220300a71\n-ok none\n",
        (2, 0),
    ),
    // Once `solve` was called under the proof each clause is refused, and each list of assumptions from its beginning on.
    (
        (0, 0, 0),
        "proof text\nassume 1\nassume 1 268435457\nassume\nadd 1 2\nadd 1 268435457\nsolve\nadd 3\nadd 3\nadd 1 268435457\nadd\nassume 1\nassume 1\nproof text\nproof text\nsolve\nclose\nadd 3\nassume 1\nproof text\nproof text\nsolve\nclose\n",
        "+ok\n+err 10\n+err 10\n+err 10\n+ok\n+err 7\n+ok true\n+err 9\n+err 9\n+err 9\n+err 9\n+err 10\n+err 10\n+err 10\n+err 10\n+ok true\n+ok\n+ok\n+ok\n+err 11\n+err 11\n+ok true\n+ok none\n",
        (0, 3),
    ),
    // These refusals are looked for before those for a name: behind 9 or 10 a witness and the limit are not returned.
    (
        (0, 0, 0),
        "witness 1\nproof text\nassume 1\nadd 1\nadd 2 3\nsolve\nadd 1\nassume 1\nclose\nassume 1\n",
        "+ok\n+ok\n+err 10\n+err 6\n+ok\n+ok true\n+err 9\n+err 10\n+ok\n+err 6\n",
        (0, 2),
    ),
    // A call of `solve` before the proof does not count; any under it does, also where the verdict is known.
    (
        (0, 0, 0),
        "solve\nproof text\nadd 1\nsolve\nadd 2\nclose\n",
        "+ok true\n+ok\n+ok\n+ok true\n+err 9\n+ok\n",
        (0, 2),
    ),
    (
        (0, 0, 0),
        "solve\nproof text\nsolve\nadd 1\nclose\nproof text\n",
        "+ok true\n+ok\n+ok true\n+err 9\n+ok\n+ok\n",
        (0, 2),
    ),
    // An interrupted call counts, and flushes.
    (
        (0, 0, 0),
        "config max_steps 0\nproof text\nadd 1 2\nsolve\nadd 3\nclose\n",
        "+ok\n+ok\n+ok\n+err 1\n+err 9\n+ok\n",
        (0, 2),
    ),
    // Once the clauses are known to be unsatisfiable a clause is accepted all the same, and the proof is flushed.
    (
        (0, 0, 0),
        "proof text\nadd 1\nadd -1\nsolve\nadd 5\nsolve\nclose\n",
        "+ok\n+ok\n+ok\n+ok false\n+ok\n+ok false\n+ok\n",
        (0, 3),
    ),
    // Where nothing fails the lines are flushed once, and once more as the proof closes.
    (
        (0, 0, 0),
        "proof text\nadd 1\nadd -1 2\nadd -2 3\nadd -2 -3\nsolve\nclose\n",
        "+ok\n+ok\n+ok\n+ok\n+ok\n+ok false\n+ok 3220300a3320300a300a\n",
        (3, 2),
    ),
    // The second line fails, of which the target takes nothing, or one byte.
    (
        (2, 0, 0),
        "proof text\nadd 1\nadd -1 2\nadd -2 3\nadd -2 -3\nsolve\nsolve\nmodel\ncore\nclose\nclose\n",
        "+ok\n+ok\n+ok\n+ok\n+ok\n-err 2\n-err 4\n-ok none\n-ok none\n-ok 3220300a\n-ok none\n",
        (2, 0),
    ),
    (
        (2, 1, 0),
        "proof text\nadd 1\nadd -1 2\nadd -2 3\nadd -2 -3\nsolve\nclose\nsolve\n",
        "+ok\n+ok\n+ok\n+ok\n+ok\n-err 2\n-ok 3220300a33\n-err 4\n",
        (2, 0),
    ),
    // A clause that is deleted as it is loaded.
    (
        (1, 3, 0),
        "proof text\nadd 1\nadd 1 2\nadd 3\nclose\n",
        "+ok\n+ok\n-err 2\n-err 4\n-ok 642031\n",
        (1, 0),
    ),
    // Assumptions under a marked proof, of which the target takes a part.
    (
        (2, 3, 0),
        "proof marked\nadd 1 2\nassume -1\nassume -1\nsolve\nclose\nclose\n",
        "+ok\n+ok\n-err 2\n-err 4\n-err 4\n-ok 692031203220300a71202d\n-ok none\n",
        (2, 0),
    ),
    // A flush that fails is returned before an interruption, and a target that failed is not flushed again.
    (
        (0, 0, 1),
        "proof text\nadd 1\nsolve\nsolve\nclose\nclose\n",
        "+ok\n+ok\n-err 2\n-err 4\n-ok\n-ok none\n",
        (0, 1),
    ),
    (
        (0, 0, 1),
        "config max_steps 0\nproof text\nadd 1\nsolve\nsolve\nsteps\nclose\nclose\n",
        "+ok\n+ok\n+ok\n-err 2\n-err 4\n-ok 0\n-ok\n-ok none\n",
        (0, 1),
    ),
    // So it is where the verdict is known.
    (
        (0, 0, 1),
        "solve\nproof text\nsolve\nsolve\nclose\n",
        "+ok true\n+ok\n-err 2\n-err 4\n-ok\n",
        (0, 1),
    ),
    // So is one at the end of a proof.
    (
        (0, 0, 1),
        "proof text\nclose\nclose\nsolve\nsteps\nsince\n",
        "+ok\n-err 2\n-ok none\n-err 4\n-ok 0\n-ok 0\n",
        (0, 1),
    ),
];

// The answers to these lines in turn.
fn answers(alloc: Global, cuts: &mut Cuts, parts: [&str; 5]) -> Option<Vec<u8>> {
    let mut lines = String::new(alloc);
    for part in parts {
        lines.push_str(part).ok()?;
    }
    answers_in(alloc, alloc, cuts, &lines).ok()
}

// Whether the row's lines are answered so behind the settings, with these calls of the target.
fn is_answered(alloc: Global, settings: &'static str, row: Row) -> Option<bool> {
    let ((put, part, flush), lines, wanted, calls) = row;
    let mut cuts = WHOLE;
    let before = answers(alloc, &mut cuts, [settings, "", "", "", ""])?;
    cuts.put = put;
    cuts.part = part;
    cuts.flush = flush;
    let reported = answers(alloc, &mut cuts, [settings, lines, "", "", ""])?;
    let behind = reported.strip_prefix(before.as_slice())?;
    Some((behind == wanted.as_bytes()) & ((cuts.puts, cuts.flushes) == calls))
}

#[test]
fn calls_under_a_proof(rt: HostRuntime) {
    for (settings, _) in SETTINGS {
        for row in ROWS {
            let is_right = is_answered(rt.alloc(), settings, row) == Some(true);
            assert!(rt; is_right, "{settings}{}", row.1);
        }
    }
}

/// Calls of which the last one asks for memory for its list, and then has it written.
const ASSUMED: &str = "proof marked\nadd 1 2\nassume -1 3 4\n";

// What the calls are answered where that growth is refused, and that `put` fails; and how many growths there were.
fn assumed(alloc: Global, growth: u64, put: u64) -> Option<(Vec<u8>, u64)> {
    let heap = CutHeap::new(alloc);
    heap.refuse(growth);
    let mut cuts = WHOLE;
    cuts.put = put;
    let reported = answers_in(alloc, &heap, &mut cuts, ASSUMED).ok()?;
    Some((reported, heap.growths()))
}

// Whether a list of assumptions that has no room is refused for that, also if the target would fail.
fn is_refused_for_memory(alloc: Global) -> Option<bool> {
    let mut is_reached = false;
    for growth in 1..1000 {
        let (whole, growths) = assumed(alloc, growth, 0)?;
        let (failing, _) = assumed(alloc, growth, 2)?;
        if growths < growth {
            let is_written = (whole.as_slice() == b"+ok\n+ok\n+ok\n".as_slice())
                & (failing.as_slice() == b"+ok\n+ok\n-err 2\n".as_slice());
            return Some(is_reached & is_written);
        }
        if whole.as_slice() == b"+ok\n+ok\n-err 3\n".as_slice() {
            is_reached = true;
            if failing.as_slice() != whole.as_slice() {
                return Some(false);
            }
        }
    }
    None
}

#[test]
fn memory_is_asked_for_before_a_target(rt: HostRuntime) {
    assert!(rt; is_refused_for_memory(rt.alloc()) == Some(true));
}

/// Lines, one behind them that is refused, and the refusal.
const REFUSED: [(&str, &str, &str); 35] = [
    ("witness 1\nadd 2 3\nsolve\n", "add 3 1\n", "+err 6\n"),
    ("witness 1\nadd 2\nsolve\n", "assume 2 1\n", "+err 6\n"),
    (
        "add 1 2\nhide 2\nobserve\nassume -1\nsolve\n",
        "add 2 9\n",
        "+err 6\n",
    ),
    ("add 1 2\nsolve\n", "add 9 268435457\n", "+err 7\n"),
    ("add -1\nassume 1\nsolve\n", "add 268435457\n", "+err 7\n"),
    (
        "add -1\nassume 1\nsolve\n",
        "assume 9 268435457\n",
        "+err 7\n",
    ),
    ("add 1 2\nsolve\n", "hide 268435457\n", "+err 7\n"),
    ("add 1 2\nsolve\n", "witness 268435457\n", "+err 7\n"),
    ("add 1 2\nsolve\n", "sample 268435457\n", "+err 7\n"),
    ("add -1 2\nassume 1 2\nsolve\n", "hide 2\n", "+err 8\n"),
    ("add -1 2\nassume 1 -2\nsolve\n", "witness 1\n", "+err 8\n"),
    ("assume 1\n", "sample 1\n", "+err 8\n"),
    ("proof text\nadd 1 2\nsolve\n", "add 9\n", "+err 9\n"),
    (
        "proof binary\nconfig max_steps 0\nadd 1 2\nsolve\n",
        "add\n",
        "+err 9\n",
    ),
    (
        "proof text\nadd 1 2\nadd 1\nsolve\n",
        "assume 9\n",
        "+err 10\n",
    ),
    (
        "proof text\nadd 1 2\nadd 1\n",
        "proof binary\n",
        "+err 10\n",
    ),
    ("proof text\n", "proof text\n", "+err 10\n"),
    ("add 1\nsolve\n", "proof text\n", "+err 11\n"),
    ("new\n", "proof binary\n", "+err 11\n"),
    ("assume\n", "proof text\n", "+err 11\n"),
    ("add 1 2\nassume 1\nsolve\n", "selfcheck\n", "+err 11\n"),
    ("selfcheck\nproof text\nadd 1\n", "selfcheck\n", "+err 11\n"),
    ("add 1 2\nsolve\n", "config vsids_decay 499\n", "+err 12\n"),
    (
        "proof text\nadd 1 2\n",
        "config reduce_locals_interval 0\n",
        "+err 12\n",
    ),
    // Calls with whole formulas and texts, and the same under a marked proof.
    ("witness 1\nadd 2 3\nsolve\n", "formula 3 1 0\n", "+err 6\n"),
    (
        "witness 1\nadd 2 3\nsolve\n",
        "dimacs 3 1 0 4 0\n",
        "+err 6\n",
    ),
    ("proof text\nadd 1 2\nsolve\n", "formula 9 0\n", "+err 9\n"),
    ("proof text\nadd 1 2\nsolve\n", "dimacs 9 0\n", "+err 9\n"),
    (
        "witness 3\nproof marked\nadd 1 2\nassume -1\nsolve\n",
        "assume 1 3\n",
        "+err 6\n",
    ),
    (
        "proof marked\nadd 1 2\nassume -1\nsolve\n",
        "add 9 268435457\n",
        "+err 7\n",
    ),
    (
        "proof marked\nadd -1\nassume 1\nsolve\n",
        "witness 1\n",
        "+err 8\n",
    ),
    (
        "proof marked\nadd 1 2\nassume -1\n",
        "proof marked\n",
        "+err 10\n",
    ),
    ("add 1 2\n", "proof marked\n", "+err 11\n"),
    ("proof marked\nadd 1 2\n", "selfcheck\n", "+err 11\n"),
    (
        "proof marked\nadd -1\nassume 1\nsolve\n",
        "config luby_restart_interval_scale 0\n",
        "+err 12\n",
    ),
];

// Calls that show all that a user can know: the model, the core, the steps, the names in use and free, the bytes.
const SHOWN: &str =
    "model\ncore\nsteps\nsince\nclose\nnew\nnew\nmodel\nobserve\nsolve\nmodel\ncore\nsteps\nsince\nadd 9\nsolve\nmodel\n";

// Whether the line is refused twice in turn, and all is as it would be without it.
fn changes_nothing(alloc: Global, settings: &str, row: (&str, &str, &str)) -> Option<bool> {
    let (lines, line, refusal) = row;
    let mut cuts = WHOLE;
    let before = answers(alloc, &mut cuts, [settings, lines, "", "", ""])?;
    let once = answers(alloc, &mut cuts, [settings, lines, SHOWN, "", ""])?;
    let twice = answers(alloc, &mut cuts, [settings, lines, line, line, SHOWN])?;
    let behind = twice.strip_prefix(before.as_slice())?;
    let behind = behind
        .strip_prefix(refusal.as_bytes())?
        .strip_prefix(refusal.as_bytes())?;
    Some(Some(behind) == once.strip_prefix(before.as_slice()))
}

#[test]
fn refusals_change_nothing(rt: HostRuntime) {
    for (settings, _) in SETTINGS {
        for row in REFUSED {
            let is_right = changes_nothing(rt.alloc(), settings, row) == Some(true);
            assert!(rt; is_right, "{settings}{}{}", row.0, row.1);
        }
    }
}
