//! Sources of which a call fails, and texts that break off: the clauses before that stay, and the solver goes on.
ghost use Rattle.std.specs.Prelude.{◌≡◌};

use std::alloc::Global;
use varisat::config::SolverConfigUpdate;
use varisat::dimacs::DimacsErrorKind::{self, Io, UnterminatedClause};
use varisat::solver::{Solver, SolverError};
use varisat_formula::io::{CutSource, MemoryTarget};
use varisat_literals::{Lit, lits};

type TestSolver = Solver<MemoryTarget<Global>, Global>;

/// A fault of a text, by its line and kind; the model then, and the one once 2 is true too.
type Refused = (u64, DimacsErrorKind, &'static [isize], &'static [isize]);

// Whether the text is refused so, its first clauses stay, and the solver can be used as before.
fn goes_on(solver: &mut TestSolver, source: &mut CutSource, refused: Refused) -> bool
    requires { source.old.faults ≡ 0 }
{
    let (line, kind, first, second) = refused;
    let is_told = match solver.add_dimacs_cnf(source) {
        Err(SolverError::Dimacs { cause }) => (cause.line == line) & (cause.kind == kind),
        _ => false,
    };
    let has_first = has_model(solver, first);
    let is_added = solver.add_clause(&lits![2]).is_ok();
    is_told & has_first & is_added & has_model(solver, second)
}

fn are_numbers(literals: &[Lit], numbers: &[isize]) -> bool {
    for (literal, number) in literals.iter().zip(numbers) {
        if literal.to_dimacs() != *number {
            return false;
        }
    }
    literals.len() == numbers.len()
}

// Whether the solver finds this model.
fn has_model(solver: &mut TestSolver, model: &[isize]) -> bool {
    let is_satisfiable = matches!(solver.solve(), Ok(true));
    match solver.model() {
        Ok(Some(found)) => is_satisfiable & are_numbers(&found, model),
        _ => false,
    }
}

/// After how many steps each both reductions of learned clauses come, and whether a checker runs inside.
type Settings = (u64, bool);

const ALL_SETTINGS: [Settings; 3] = [(10_000, false), (1, false), (10_000, true)];

// Whether a new solver with the settings goes on so.
fn goes_on_in_new(
    alloc: Global,
    settings: Settings,
    mut source: CutSource,
    refused: Refused,
) -> bool
    requires { source.faults ≡ 0 }
{
    let (interval, is_checked) = settings;
    let mut update = SolverConfigUpdate::new();
    update.reduce_locals_interval = Some(interval);
    update.reduce_mids_interval = Some(interval);
    let mut solver = Solver::new_in(alloc);
    if is_checked {
        let _ = solver.enable_self_checking();
    }
    let _ = solver.config(&update);
    let goes_on = goes_on(&mut solver, &mut source, refused);
    drop(solver);
    goes_on
}

const TEXT: &[u8] = b"p cnf 3 4\n1 -2 0\n2 0\nc\n-3 -1 0\n3 1 2 0\n";

// Up to which place of the text, where each row is behind the one before, a source that fails tells this line, and what the models
// are then. No decision is needed but for the first, and that is false.
const BREAKS: [(usize, Refused); 5] = [
    (9, (1, Io, &[], &[-1, 2])),
    (16, (2, Io, &[], &[-1, 2])),
    (20, (3, Io, &[-1, -2], &[1, 2])),
    (22, (4, Io, &[1, 2], &[1, 2])),
    (30, (5, Io, &[1, 2], &[1, 2])),
];

// What comes of the text behind so many bytes.
fn refused_behind(length: usize) -> Refused {
    for (last, refused) in BREAKS {
        if length <= last {
            return refused;
        }
    }
    let line = if length < TEXT.len() { 6 } else { 7 };
    (line, Io, &[1, 2, -3], &[1, 2, -3])
}

#[test]
fn sources_fail(rt: HostRuntime) {
    for length in 0..=TEXT.len() {
        let source = CutSource::new(TEXT)
            .in_pieces(0, 1)
            .failing_at((length as u64).saturating_add(1));
        let refused = refused_behind(length);
        let goes_on = goes_on_in_new(rt.alloc(), ALL_SETTINGS[0], source, refused);
        assert!(rt; goes_on, "behind {length} bytes");
    }
}

// A text that ends in an open clause in line 3.
const CUT_TEXT: &[u8] = b"p cnf 2 2\n1 -2 0\n2";

const CUT: Refused = (3, UnterminatedClause, &[-1, -2], &[1, 2]);

const BROKEN: Refused = (3, Io, &[-1, -2], &[1, 2]);

#[test]
fn a_text_is_cut_anywhere(rt: HostRuntime) {
    for settings in ALL_SETTINGS {
        for size in 1..=CUT_TEXT.len() {
            let calls = CUT_TEXT.len().div_ceil(size) as u64;
            let whole = CutSource::new(CUT_TEXT).in_pieces(0, size);
            let failing = CutSource::new(CUT_TEXT)
                .in_pieces(0, size)
                .failing_at(calls.saturating_add(1));
            let is_cut = goes_on_in_new(rt.alloc(), settings, whole, CUT)
                & goes_on_in_new(rt.alloc(), settings, failing, BROKEN);
            assert!(rt; is_cut, "in pieces of {size}");
        }
        for place in 0..=CUT_TEXT.len() {
            let source = CutSource::new(CUT_TEXT).in_pieces(place, CUT_TEXT.len());
            assert!(rt;
                goes_on_in_new(rt.alloc(), settings, source, CUT),
                "cut at {place}"
            );
        }
    }
}
