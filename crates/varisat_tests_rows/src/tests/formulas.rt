//! Formulas and parsers whose memory is refused, and sources that fail: a fault is returned again, with the same line.

use linked_list_allocator::LocalHeap;
use std::alloc::{AllocError, Allocator, Global};
use varisat_formula::dimacs::{DimacsError, DimacsErrorKind, DimacsParser};
use varisat_formula::formula::{CnfFormula, FormulaError, Lit};
use varisat_formula::io::CutSource;
use varisat_formula::{cnf_formula, lits};

// Adds a clause up to the first refusal. How many were added, and whether the formula has these alone then.
fn fill_up<A: Allocator + Copy>(formula: &mut CnfFormula<A>) -> (usize, bool) {
    for added in 0..20 {
        if let Err(FormulaError::Memory) = formula.add_clause(&lits![1, -2, 3]) {
            let var_count = if added == 0 { 0 } else { 3 };
            let is_kept = formula.len() == added && formula.var_count() == var_count;
            return (added, is_kept);
        }
    }
    (formula.len(), true)
}

fn fill_up_with(alloc: Global, room: u8) -> Result<(usize, bool), AllocError> {
    let heap = LocalHeap::new(alloc, 16 * usize::from(room))?;
    let mut formula = CnfFormula::new_in(&heap);
    Ok(fill_up(&mut formula))
}

// Each growth of a formula is refused in turn.
#[test]
fn a_refused_clause_leaves_the_formula(rt: HostRuntime) -> Result<(), AllocError> {
    let mut most = 0;
    for room in 0..80 {
        let (added, is_kept) = fill_up_with(rt.alloc(), room)?;
        assert!(rt; is_kept && (room > 0 || added == 0), "with {room}");
        most = added.max(most);
    }
    assert!(rt; most == 20);
    Ok(())
}

// The macro returns the refusal too.
fn made_with(alloc: Global, room: u8) -> Result<bool, AllocError> {
    let heap = LocalHeap::new(alloc, 16 * usize::from(room))?;
    Ok(has_three(&heap))
}

fn has_three<A: Allocator + Copy>(alloc: A) -> bool {
    match make_three(alloc) {
        Ok(formula) => formula.len() == 3,
        Err(_) => false,
    }
}

fn make_three<A: Allocator + Copy>(alloc: A) -> Result<CnfFormula<A>, FormulaError> {
    let formula = cnf_formula!(in alloc; 1, 2; -1, 2; 1, -2;)?;
    Ok(formula)
}

#[test]
fn a_formula_is_made_if_there_is_memory(rt: HostRuntime) -> Result<(), AllocError> {
    let are_made = [made_with(rt.alloc(), 0)?, made_with(rt.alloc(), 100)?];
    assert!(rt; are_made == [false, true]);
    Ok(())
}

// The fault of a text of five clauses, one in each line, and whether it comes again and the clauses before it stay.
fn read_five<A: Allocator + Copy>(parser: &mut DimacsParser<A>) -> Option<(DimacsError, bool)> {
    let fault = parser.feed(b"1 0\n2 0\n3 -4 5 -6 7 0\n8 0\n9 0\n").err()?;
    let again = parser.feed(b"1 0").err() == Some(fault) && parser.finish().err() == Some(fault);
    let is_kept = parser.take_formula().len() as u64 == fault.line.saturating_sub(1);
    Some((
        fault,
        again & is_kept & (parser.finish().err() == Some(fault)),
    ))
}

// Whether the text is read whole on a heap of that many times 16 bytes; None where a fault is not as it should be.
fn is_read_with(alloc: Global, room: u8) -> Result<Option<bool>, AllocError> {
    let heap = LocalHeap::new(alloc, 16 * usize::from(room))?;
    let mut parser = DimacsParser::new_in(&heap);
    let read = read_five(&mut parser);
    Ok(match read {
        None => Some(true),
        Some((fault, is_right)) => (is_right
            && fault.kind == DimacsErrorKind::OutOfMemory).then_some(false),
    })
}

#[test]
fn each_growth_of_a_parser_may_be_refused(rt: HostRuntime) -> Result<(), AllocError> {
    let mut reached = [false; 2];
    for room in 0..61 {
        match is_read_with(rt.alloc(), room)? {
            Some(true) => reached[1] = true,
            Some(false) => reached[0] = true,
            None => panic!(rt; "with {room}"),
        }
    }
    assert!(rt; reached == [true; 2]);
    Ok(())
}

// A source that fails after its pieces: its fault, that of the parser from then on, and how often it failed.
fn faults_of(parser: &mut DimacsParser<Global>) -> [Option<(u64, DimacsErrorKind)>; 3] {
    let mut source = CutSource::new(b"1 0\n2").in_pieces(0, 3).failing_at(3);
    let mut buffer = [0; 16];
    let _ = parser.next_piece(&mut source, &mut buffer);
    let _ = parser.next_piece(&mut source, &mut buffer);
    let told = [
        parser.next_piece(&mut source, &mut buffer).err(),
        parser.finish().err(),
        parser.feed(b" 0").err(),
    ];
    told.map(|fault| fault.map(|fault| (fault.line, fault.kind)))
}

fn has_one_clause(formula: &CnfFormula<Global>, clause: &[Lit]) -> bool {
    formula.len() == 1 && formula.iter().next() == Some(clause)
}

#[test]
fn a_fault_of_a_source_is_returned_again(rt: HostRuntime) {
    let mut parser = DimacsParser::new_in(rt.alloc());
    let fault = Some((2, DimacsErrorKind::Io));
    assert!(rt; faults_of(&mut parser) == [fault; 3]);
    assert!(rt; parser.clause_count() == 1);
    assert!(rt; has_one_clause(&parser.take_formula(), &lits![1]));
}
