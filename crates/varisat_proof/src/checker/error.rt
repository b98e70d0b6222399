//! What a check of a proof returns.

use std::io;
use thiserror::Error;
use varisat_formula::dimacs::DimacsError;

/// What a proof is.
#[derive(Clone, Copy, Debug, PartialEq, Eq)]
pub enum CheckVerdict {
    /// Some beginning of its lines is a derivation, after which propagation conflicts.
    Refutation,
    /// All lines are a derivation, and none of its beginnings refutes.
    Derivation,
}

/// Why a call of a checker was refused. Steps are the call's lines counted from 1, offsets its bytes counted from 0.
/// Both stay at 2^64-1 once they are there.
#[derive(Debug, Drop, Error)]
pub enum CheckerError {
    /// The line adds a clause that does not follow, or propagation from its core does not conflict. The clauses are those that the lines before left.
    #[error("Step {step} does not follow")]
    CheckFailed { step: u64 },
    /// The line deletes a clause that is not present. The clauses are those that the lines before left.
    #[error("Step {step} deletes no clause")]
    NoSuchClause { step: u64 },
    /// The line's core has a literal that is not assumed. The clauses are those that the lines before left.
    #[error("Step {step} names a literal that is not assumed")]
    CoreNotAssumed { step: u64 },
    /// The bytes are no lines: the token at the offset does not fit, or they end there inside a line. The checker is
    /// spent.
    #[error("Error in the proof at byte {offset}")]
    Parse { offset: u64 },
    /// The source of the proof failed. The checker is spent.
    #[error("Error reading the proof: {cause}")]
    Io { cause: io::Error },
    /// A growth was refused. The checker is spent.
    #[error("Out of memory")]
    OutOfMemory,
    /// The text has a fault. The clauses that ended before it stay.
    #[error("Error in DIMACS input: {cause}")]
    Dimacs { cause: DimacsError },
    /// An earlier call spent the checker.
    #[error("The checker is spent")]
    Spent,
}
