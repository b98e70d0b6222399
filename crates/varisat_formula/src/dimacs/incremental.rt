//! Reads texts from sources, with a call of the caller's function after each piece and after the end.
ghost use Rattle.std.specs.Prelude.{◌≡◌, ◌-◌, ◌<◌, ◌^◌, ◌⊎◌, [], true, length, IfOk, IfErr};
ghost use Rattle.varisat_formula.specs.promises.Rest.{Progress, begin, dimacs_from, IsEnding, RunsOut, fault_of};
ghost use Rattle.varisat_formula.specs.promises.Parsed.{TakesPiece, reading_with, Finishes, Refuses};

use crate::dimacs::error::DimacsError;
use crate::dimacs::parser::DimacsParser;
use crate::io::{ByteSource, PIECE};
use std::alloc::Allocator;

/// A reader of texts in pieces.
pub trait PieceReader<A: Allocator + Copy>: Drop {
    /// How far it has come.
    ghost progress: { Self → Progress };

    /// A reader before the first byte of a text.
    fn begin_in(alloc: A) -> Self
        ensures { progress result ≡ begin };

    /// Reads the next piece of the source, as `next_piece` of a `DimacsParser` does.
    fn take_piece<S: ByteSource>(
        &mut self,
        source: &mut S,
        buffer: &mut [u8],
    ) -> Result<bool, DimacsError>
        requires few { (S.input source.old).faults < 2 ^ 64 - 1 }
        requires room { 0 < length buffer.old }
        ensures { TakesPiece (S.input source.old) (progress self.old) result (S.input source.new) (progress self.new) };

    /// Ends the text, and returns its first fault.
    fn end(&mut self) -> Result<(), DimacsError>
        ensures reads { IsEnding (progress self.old) (progress self.new) }
        ensures answer { fault_of result ≡ (progress self.new).reading.fault }
        ensures over { (progress self.new).over ≡ true };

    /// Begins a text and reads the source piece by piece to its end. Calls `f` with the reader after each piece that
    /// has bytes, and after the end of the text, where the reader has no fault; it goes on as `f` left it. The first
    /// fault, or the first error of `f`, ends it and is returned. Else the reader is returned as `f` left it.
    final fn parse_incremental<
        S: ByteSource,
        E: From<DimacsError>,
        F: FnMut(&mut Self) -> Result<(), E>,
    >(alloc: A, source: &mut S, mut f: F) -> Result<Self, E>
    where
        Self: Sized,
        F: Drop,
        requires few { (S.input source.old).faults < 2 ^ 64 - 1 }
        requires callable { (state : F) (x : _) → F.pre state x }
        ensures ok { IfOk result
            (Finishes (reading_with progress F.FnMut E.from_gives) (S.input source.old) f (S.input source.new)) }
        ensures err { IfErr result
            (Refuses (reading_with progress F.FnMut E.from_gives) (S.input source.old) f (S.input source.new)) }
    {
        let mut parser = Self::begin_in(alloc);
        let mut buffer = [0; PIECE];
        'pieces: while parser.take_piece(source, &mut buffer)? {
            f(&mut parser)?;
        }
        parser.end()?;
        f(&mut parser)?;
        Ok(parser)
    }
}

impl<A: Allocator + Copy> PieceReader<A> for DimacsParser<A> {
    ghost progress = { λ p. p };

    fn begin_in(alloc: A) -> DimacsParser<A> {
        DimacsParser::new_in(alloc)
    }

    fn take_piece<S: ByteSource>(
        &mut self,
        source: &mut S,
        buffer: &mut [u8],
    ) -> Result<bool, DimacsError> {
        self.next_piece(source, buffer)
    }

    fn end(&mut self) -> Result<(), DimacsError> {
        self.finish()
    }
}
