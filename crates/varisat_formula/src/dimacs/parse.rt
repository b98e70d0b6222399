//! Reads texts from sources.
ghost use Rattle.std.specs.Prelude.{◌≡◌, ◌-◌, ◌<◌, ◌^◌, List, Result, length, IfOk, IfErr};
ghost use Rattle.varisat_theory.specs.promises.Literals.{Clause};
ghost use Rattle.varisat_formula.specs.promises.Parsed.{TakesPiece, Parses};
ghost use Rattle.varisat_formula.specs.promises.TakenTexts.{TakesText, RefusesClause};

use crate::dimacs::error::DimacsError;
use crate::dimacs::incremental::PieceReader;
use crate::dimacs::parser::DimacsParser;
use crate::formula::CnfFormula;
use crate::io::{ByteSource, PIECE};
use std::alloc::Allocator;

impl<A: Allocator + Copy> DimacsParser<A> {
    /// Reads the next piece of the source, with room for it in the buffer. Returns false at the source's end, and the
    /// fault of the text or the source, if there is one.
    pub fn next_piece<S: ByteSource>(
        &mut self,
        source: &mut S,
        buffer: &mut [u8],
    ) -> Result<bool, DimacsError>
        requires few { (S.input source.old).faults < 2 ^ 64 - 1 }
        requires room { 0 < length buffer.old }
        ensures takes { TakesPiece (S.input source.old) self.old result (S.input source.new) self.new }
        ensures open { self.new.over ≡ self.old.over }
    {
        let count = match source.fill(buffer) {
            Ok(count) => count,
            Err(_) => return Err(self.break_off()),
        };
        match self.feed(&buffer[..count]) {
            Ok(()) => Ok(count > 0),
            Err(fault) => Err(fault),
        }
    }

    /// Reads all of the source as one text, and returns its formula or its first fault.
    pub fn parse<S: ByteSource>(alloc: A, source: &mut S) -> Result<CnfFormula<A>, DimacsError>
        requires { (S.input source.old).faults < 2 ^ 64 - 1 }
        ensures { Parses (S.input source.old) result (S.input source.new) }
    {
        let parsed: Result<DimacsParser<A>, DimacsError> = DimacsParser::parse_incremental(
            alloc,
            source,
            |_parser| Ok(()),
        );
        match parsed {
            Ok(mut parser) => Ok(parser.take_formula()),
            Err(fault) => Err(fault),
        }
    }
}

/// Takes the clauses of a text.
pub trait ClauseSink {
    /// Why it refused one.
    type Error;

    /// What clauses make of it, by what the call returned.
    ghost takes: { Self → List Clause → Result (Unit {0}) Self.Error → Self → Type 0 };

    /// Takes the clauses in turn, up to the first that it refuses.
    fn take_clauses<A: Allocator + Copy>(
        &mut self,
        clauses: &CnfFormula<A>,
    ) -> Result<(), Self::Error>
        ensures { takes self.old clauses.now.clauses result self.new };
}

/// Reads all of the source as one text, whose clauses the sink takes as they end, up to the first that it refuses.
/// Returns the refusal, or else the first fault of the text or the source, if there is one, behind all clauses that
/// ended before it.
pub fn read_clauses<S: ByteSource, T: ClauseSink, A: Allocator + Copy>(
    alloc: A,
    source: &mut S,
    sink: &mut T,
) -> Result<Option<DimacsError>, T::Error>
    requires { (S.input source.old).faults < 2 ^ 64 - 1 }
    ensures taken { IfOk result
        (λ fault. TakesText T.takes (S.input source.old) sink.old fault (S.input source.new) sink.new) }
    ensures refused { IfErr result
        (λ e. RefusesClause T.takes (S.input source.old) sink.old e (S.input source.new) sink.new) }
{
    let mut parser = DimacsParser::new_in(alloc);
    let mut buffer = [0; PIECE];
    'pieces: while let Ok(true) = parser.next_piece(source, &mut buffer) {
        sink.take_clauses(&parser.take_formula())?;
    }
    // After a fault the clauses are still here that ended before it.
    let end = parser.finish();
    sink.take_clauses(&parser.take_formula())?;
    Ok(end.err())
}
