//! DIMACS texts and what they give: whole, in pieces of one byte, and cut in two at each place.
ghost use Rattle.std.specs.Prelude.{◌≡◌};

use std::alloc::Global;
use varisat_formula::dimacs::DimacsErrorKind::{
    ClauseCount, InvalidHeader, LiteralTooLarge, UnexpectedInput, UnterminatedClause, VarCount,
};
use varisat_formula::dimacs::{DimacsError, DimacsErrorKind, DimacsParser, PieceReader};
use varisat_formula::formula::{CnfFormula, Lit};
use varisat_formula::io::CutSource;

/// The clauses that end, the count of variables, and the fault by its line and kind.
type Given = (
    &'static [&'static [isize]],
    usize,
    Option<(u64, DimacsErrorKind)>,
);

const TEXTS: [(&[u8], Given); 13] = [
    (b"", (&[], 0, None)),
    (b"1 2 0", (&[&[1, 2]], 2, None)),
    (b"1\nc 2 0\n-2 0", (&[&[1, -2]], 2, None)),
    (b"1 2", (&[], 2, Some((1, UnterminatedClause)))),
    (b"1 -0 0\n", (&[], 1, Some((1, UnexpectedInput)))),
    (b" c\n", (&[], 0, Some((1, UnexpectedInput)))),
    (b"p cnf 2 01\n", (&[], 0, Some((1, InvalidHeader)))),
    (b"1 0\np cnf 1 1\n", (&[&[1]], 1, Some((2, InvalidHeader)))),
    (b"p cnf 268435457 0\n", (&[], 0, Some((1, LiteralTooLarge)))),
    (b"p cnf 2 3\n3 0\n", (&[], 2, Some((2, VarCount)))),
    (
        b"p cnf 2 1\n1 2\n0 -1 0\n",
        (&[&[1, 2]], 2, Some((3, ClauseCount))),
    ),
    (b"p cnf 3 2\n1 0\n", (&[&[1]], 3, Some((3, ClauseCount)))),
    (
        b"p cnf 2 2\n1 -2 0\n2",
        (&[&[1, -2]], 2, Some((3, UnterminatedClause))),
    ),
];

const CUT_TEXT: &[u8] = b"p cnf 3 2\n1 -2 0\n0\n";

/// What the beginnings of the text give, each row up to a length.
const BEGINNINGS: [(usize, Given); 10] = [
    (0, (&[], 0, None)),
    (8, (&[], 0, Some((1, InvalidHeader)))),
    (9, (&[], 3, Some((1, ClauseCount)))),
    (10, (&[], 3, Some((2, ClauseCount)))),
    (12, (&[], 3, Some((2, UnterminatedClause)))),
    (13, (&[], 3, Some((2, UnexpectedInput)))),
    (15, (&[], 3, Some((2, UnterminatedClause)))),
    (16, (&[&[1, -2]], 3, Some((2, ClauseCount)))),
    (17, (&[&[1, -2]], 3, Some((3, ClauseCount)))),
    (19, (&[&[1, -2], &[]], 3, None)),
];

fn is_clause(literals: &[Lit], numbers: &[isize]) -> bool {
    for (literal, number) in literals.iter().zip(numbers) {
        if literal.to_dimacs() != *number {
            return false;
        }
    }
    literals.len() == numbers.len()
}

// Whether the formula has the clauses and the count of variables.
fn is_formula(formula: &CnfFormula<Global>, given: &Given) -> bool {
    let (clauses, var_count, _) = *given;
    for (clause, numbers) in formula.iter().zip(clauses) {
        if !is_clause(clause, *numbers) {
            return false;
        }
    }
    (formula.len() == clauses.len()) & (formula.var_count() == var_count)
}

fn is_fault(fault: Option<DimacsError>, given: &Given) -> bool {
    let (_, _, wanted) = *given;
    fault.map(|fault| (fault.line, fault.kind)) == wanted
}

// A text in a first piece of so many bytes, and then in pieces of a size.
fn source(text: &'static [u8], first: usize, size: usize) -> CutSource<'static>
    ensures { result.faults ≡ 0 }
{
    CutSource::new(text).in_pieces(first, size)
}

fn is_parsed(alloc: Global, mut source: CutSource<'static>, given: &Given) -> bool
    requires { source.faults ≡ 0 }
{
    match DimacsParser::parse(alloc, &mut source) {
        Ok(formula) => is_fault(None, given) & is_formula(&formula, given),
        Err(fault) => is_fault(Some(fault), given),
    }
}

fn is_parsed_incrementally(alloc: Global, mut source: CutSource<'static>, given: &Given) -> bool
    requires { source.faults ≡ 0 }
{
    let parsed: Result<DimacsParser<Global>, DimacsError> = DimacsParser::parse_incremental(
        alloc,
        &mut source,
        |_reader| Ok(()),
    );
    match parsed {
        Ok(mut parser) => is_fault(None, given) & is_formula(&parser.take_formula(), given),
        Err(fault) => is_fault(Some(fault), given),
    }
}

// Whether the text is read so when its pieces are fed, and its clauses stay where it has a fault.
fn is_fed(alloc: Global, text: &[u8], first: usize, size: usize, given: &Given) -> bool {
    if size == 0 {
        return false;
    }
    let mut parser = DimacsParser::new_in(alloc);
    let (front, rest) = text.split_at(first.min(text.len()));
    let _ = parser.feed(front);
    for piece in rest.chunks(size) {
        let _ = parser.feed(piece);
    }
    let fault = parser.finish().err();
    is_fault(fault, given) & is_formula(&parser.take_formula(), given)
}

// Whether all three read the text so in these pieces.
fn is_read(alloc: Global, text: &'static [u8], first: usize, size: usize, given: &Given) -> bool {
    is_fed(alloc, text, first, size.max(1), given)
        & is_parsed(alloc, source(text, first, size), given)
        & is_parsed_incrementally(alloc, source(text, first, size), given)
}

// Whether the text is read so whole, in pieces of one byte, and cut in two at each place.
fn is_read_in_all_pieces(alloc: Global, text: &'static [u8], given: &Given) -> bool {
    for first in 0..text.len() {
        if !is_read(alloc, text, first, text.len(), given) {
            return false;
        }
    }
    is_read(alloc, text, 0, 1, given) & is_read(alloc, text, text.len(), 1, given)
}

#[test]
fn texts_are_read_in_any_pieces(rt: HostRuntime) {
    for (place, (text, given)) in TEXTS.iter().enumerate() {
        assert!(rt;
            is_read_in_all_pieces(rt.alloc(), *text, given),
            "text {place}"
        );
    }
}

// What the first bytes of the text give.
fn of_beginning(length: usize) -> Given {
    for (last, given) in BEGINNINGS {
        if length <= last {
            return given;
        }
    }
    (&[], 0, None)
}

#[test]
fn beginnings_of_a_text_are_read_in_any_pieces(rt: HostRuntime) {
    for length in 0..CUT_TEXT.len() + 1 {
        let given = of_beginning(length);
        assert!(rt;
            is_read_in_all_pieces(rt.alloc(), &CUT_TEXT[..length], &given),
            "the first {length} bytes"
        );
    }
}
