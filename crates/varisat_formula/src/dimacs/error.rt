//! The faults of a DIMACS text.

use thiserror::Error;

/// What is wrong with a DIMACS text.
#[derive(Clone, Copy, Debug, PartialEq, Eq)]
pub enum DimacsErrorKind {
    /// A token that is no number of the form `0`, or of digits without a leading zero, with an optional `-` before a
    /// number other than 0.
    UnexpectedInput,
    /// A literal, or the header's count of variables, above 2^28.
    LiteralTooLarge,
    /// A header that is malformed, late or repeated.
    InvalidHeader,
    /// A literal above the header's count of variables.
    VarCount,
    /// More or fewer clauses than the header says.
    ClauseCount,
    /// The text ends inside a clause.
    UnterminatedClause,
    /// The source of the text failed.
    Io,
    /// A growth was refused, and the token in this line could not be kept.
    OutOfMemory,
}

/// A fault of a DIMACS text, and its line, counted from 1.
#[derive(Clone, Copy, Debug, PartialEq, Eq, Error)]
#[error("line {line}: {kind:?}")]
pub struct DimacsError {
    pub line: u64,
    pub kind: DimacsErrorKind,
}
