//! Calls of formulas and of steps that no solver makes, sources of formulas that fail, and the texts of a checker's refusals.
use std::alloc::{AllocError, Global};
use varisat::checker::CheckerError;
use varisat::proof::{MapStep, ProofStep};
use varisat_formula::cnf_formula;
use varisat_formula::dimacs::{DimacsError, DimacsErrorKind, DimacsParser};
use varisat_formula::formula::{CnfFormula, ExtendFormula, FormulaError, Var, new_lits, new_vars};
use varisat_formula::io::CutSource;
use varisat_literals::{lits, var};

// Whether the first six variables and literals that are made are those of 1 to 6, and then the last variable, and none after it.
fn makes_variables(formula: &mut CnfFormula<Global>) -> Result<bool, FormulaError> {
    let [a, b] = new_vars::<_, 2>(formula)?;
    let [c, d] = new_lits::<_, 2>(formula)?;
    let e = formula.new_var()?;
    let f = formula.new_lit()?;
    let are_first = [a, b, e] == [var!(1), var!(2), var!(5)] && [c, d, f] == lits![3, 4, 6];
    formula.set_var_count(2147483647);
    let last = formula.new_var()?;
    let is_full = matches!(&formula.new_var(), Err(FormulaError::Full));
    Ok(are_first & is_full & (last == var!(2147483648)))
}

fn makes_variables_in(alloc: Global) -> Result<bool, FormulaError> {
    let mut formula = CnfFormula::new_in(alloc);
    makes_variables(&mut formula)
}

#[test]
fn formulas_are_made(rt: HostRuntime) -> Result<(), FormulaError> {
    assert!(rt; makes_variables_in(rt.alloc())?);
    let two = cnf_formula!(in rt.alloc(); ; 1;)?.len();
    let none = cnf_formula!(in rt.alloc();)?.len();
    assert!(rt; (two, none) == (2, 0));
    Ok(())
}

// How many calls of a source that gives the text byte by byte may fail, each of which is told as a fault of the source.
fn failing_calls(alloc: Global, text: &'static [u8]) -> Option<u64> {
    for number in 1..100 {
        let mut source = CutSource::new(text).in_pieces(0, 1).failing_at(number);
        let fault = DimacsParser::parse(alloc, &mut source).err();
        if source.fills() < number {
            return fault.is_none().then_some(number - 1);
        }
        if !fault.is_some_and(|fault| fault.kind == DimacsErrorKind::Io) {
            return None;
        }
    }
    None
}

// A call for each of nine bytes, and one for the end.
#[test]
fn each_call_of_a_source_may_fail(rt: HostRuntime) {
    assert!(rt; failing_calls(rt.alloc(), b"c\n1 -2 0\n") == Some(10));
}

// The variable that is ten further.
fn ten_further(var: Var) -> Var {
    Var::from_index((var.index() + 10) % 0x1000_0000)
}

// Whether a step with the clause of 1 and -2 becomes one with that of 11 and -12.
fn maps(map: &mut MapStep<Global>) -> bool {
    let clause = lits![1, -2];
    match map.map(&ProofStep::DeleteClause { clause: &clause }, &ten_further) {
        Ok(ProofStep::DeleteClause { clause }) => clause == lits![11, -12].as_slice(),
        _ => false,
    }
}

#[test]
fn steps_are_mapped(rt: HostRuntime) {
    let mut map = MapStep::new_in(rt.alloc());
    assert!(rt; maps(&mut map));
}

const FAULT: DimacsError = DimacsError {
    line: 3,
    kind: DimacsErrorKind::UnterminatedClause,
};

// Refusals of a checker with their texts.
fn refusals() -> [(CheckerError, &'static str); 7] {
    [
        (
            CheckerError::CheckFailed { step: 7 },
            "Step 7 does not follow",
        ),
        (
            CheckerError::CoreNotAssumed { step: 7 },
            "Step 7 names a literal that is not assumed",
        ),
        (
            CheckerError::NoSuchClause { step: 8 },
            "Step 8 deletes no clause",
        ),
        (
            CheckerError::Parse { offset: 9 },
            "Error in the proof at byte 9",
        ),
        (CheckerError::OutOfMemory, "Out of memory"),
        (
            CheckerError::Dimacs { cause: FAULT },
            "Error in DIMACS input: line 3: UnterminatedClause",
        ),
        (CheckerError::Spent, "The checker is spent"),
    ]
}

// Whether the refusal is printed so.
fn has_text(alloc: Global, error: &CheckerError, wanted: &str) -> Result<bool, AllocError> {
    let text = error.to_string(alloc)?;
    Ok(text.as_str() == wanted)
}

#[test]
fn refusals_of_checkers_have_their_texts(rt: HostRuntime) {
    for (error, text) in &refusals() {
        assert!(rt;
            matches!(has_text(rt.alloc(), error, text), Ok(true)),
            "{text}"
        );
    }
}
