//! Lists of calls with their answers, and the texts of refusals.
ghost use Rattle.std.specs.Prelude.{IfSome};
ghost use Rattle.varisat.specs.promises.Runs.{AreReady};

use std::alloc::{AllocError, Global};
use std::io::{self, Write};
use varisat::line::write_answer;
use varisat::session::{Answer, Call, answers_of, run};
use varisat::solver::{Solver, SolverError};
use varisat_formula::cnf_formula;
use varisat_formula::dimacs::{DimacsError, DimacsErrorKind};
use varisat_formula::formula::Var;
use varisat_formula::io::{CutSource, MemoryTarget, ReadSource};
use varisat_literals::{Lit, lits};
use varisat_names::config::ConfigField;

/// The text in pieces of at most so many bytes, as a reader that fails or ends behind them.
pub fn in_pieces(text: &'static [u8], size: usize, fails: bool) -> CutSource<'static> {
    let pieces = text.len().div_ceil(size.max(1)) as u64;
    let failing = if fails { pieces.saturating_add(1) } else { 0 };
    CutSource::new(text).in_pieces(0, size).failing_at(failing)
}

// A call on a text.
type TextCall = Call<MemoryTarget<Global>, ReadSource<CutSource<'static>>, Global>;

// An answer of such a call.
type TextAnswer = Answer<MemoryTarget<Global>, ReadSource<CutSource<'static>>, Global>;

// Writes a line for each answer.
fn write_answers(out: &mut Vec<u8>, answers: &[TextAnswer]) -> io::Result<()> {
    for answer in answers {
        write_answer(out, answer)?;
        out.write_all(b"\n")?;
    }
    Ok(())
}

// Whether the answers are these lines.
fn are_lines(alloc: Global, answers: &[TextAnswer], wanted: &[u8]) -> bool {
    let mut out = Vec::new(alloc);
    let is_written = write_answers(&mut out, answers).is_ok();
    is_written & (out.as_slice() == wanted)
}

// A clause, a formula, a phase, a text that breaks off, the question without a step and with some, the model, in which the
// phase shows, whether two literals are fixed, no phase, and whether the solver is valid.
fn calls(alloc: Global) -> Option<Vec<TextCall>>
    ensures { IfSome result (λ calls. AreReady (λ s. s) (λ t. t) calls.items) }
{
    let clause = Vec::from_slice(alloc, &lits![3, -1]).ok()?;
    let formula = cnf_formula!(in alloc; 4, -1; -5;).ok()?;
    let text = in_pieces(b"6 0\n-2 0\n2", 3, false);
    let calls = [
        Call::AddClause(clause),
        Call::AddFormula(formula),
        Call::SetPhase(Lit::from_dimacs(3)),
        Call::AddDimacsCnf(ReadSource::new(text)),
        Call::SetMaxSteps(0),
        Call::Solve,
        Call::SetMaxSteps(9),
        Call::Solve,
        Call::Model,
        Call::IsFixed(Lit::from_dimacs(-5)),
        Call::IsFixed(Lit::from_dimacs(3)),
        Call::UnsetPhase(Var::from_dimacs(3)),
        Call::IsValid,
    ];
    Vec::from_array(alloc, calls).ok()
}

const ANSWERS: &[u8] =
    b"ok\nok\nok\nerr 13\nok\nerr 1\nok\nok true\nok -1 -2 3 -4 -5 6 0\nok true\nok false\nok\nok true\n";

// Whether the solver gives the calls these answers.
fn runs(solver: &mut Solver<MemoryTarget<Global>, Global>, alloc: Global) -> Option<bool> {
    let answers = run(solver, calls(alloc)?).ok()?;
    Some(are_lines(alloc, &answers, ANSWERS))
}

fn runs_in_new(alloc: Global) -> Option<bool> {
    let mut solver = Solver::new_in(alloc);
    let right = runs(&mut solver, alloc);
    drop(solver);
    right
}

// Whether a new solver gives them to the list.
fn answers(alloc: Global) -> Option<bool> {
    let answers = answers_of::<MemoryTarget<Global>, ReadSource<CutSource<'static>>, Global>(calls(
        alloc,
    )?).ok()?;
    Some(are_lines(alloc, &answers, ANSWERS))
}

#[test]
fn calls_are_answered(rt: HostRuntime) {
    assert!(rt; runs_in_new(rt.alloc()) == Some(true));
    assert!(rt; answers(rt.alloc()) == Some(true));
}

// Refusals with their texts.
fn refusals() -> [(SolverError, &'static str); 12] {
    let var = Var::from_index(1);
    [
        (SolverError::Interrupted, "The solver was interrupted"),
        (SolverError::OutOfMemory, "Out of memory"),
        (
            SolverError::Invalid,
            "The solver is invalid after an unrecoverable error",
        ),
        (SolverError::ClauseStoreFull, "The clause store is full"),
        (
            SolverError::WitnessVar { var },
            "Variable 2 is a witness variable and cannot be constrained",
        ),
        (SolverError::VariableLimit, "The variable limit is passed"),
        (
            SolverError::AssumedVar { var },
            "Variable 2 is assumed and its mode cannot change",
        ),
        (
            SolverError::ClauseAfterSolve,
            "A clause cannot be added after solve under an open proof",
        ),
        (SolverError::ProofOpen, "A proof is open"),
        (
            SolverError::ProofTooLate,
            "A proof must begin before any clause, variable or assumption",
        ),
        (
            SolverError::ConfigOutOfRange {
                field: ConfigField::VsidsDecay,
            },
            "Configuration value out of range: vsids_decay",
        ),
        (
            SolverError::Dimacs {
                cause: DimacsError {
                    line: 3,
                    kind: DimacsErrorKind::UnterminatedClause,
                },
            },
            "Error in DIMACS input: line 3: UnterminatedClause",
        ),
    ]
}

// Whether the solver can be used as before after the refusal, by its number.
fn is_passing(error: &SolverError) -> bool {
    !matches!(error.number(), 2..=5)
}

// Whether the refusal is printed so.
fn has_text(alloc: Global, error: &SolverError, wanted: &str) -> Result<bool, AllocError> {
    let text = error.to_string(alloc)?;
    Ok(text.as_str() == wanted)
}

#[test]
fn refusals_have_their_texts(rt: HostRuntime) {
    for (error, text) in &refusals() {
        assert!(rt;
            matches!(has_text(rt.alloc(), error, text), Ok(true)),
            "{text}"
        );
        assert!(rt; error.is_recoverable() == is_passing(error), "{text}");
    }
}
