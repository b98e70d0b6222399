//! Why no answer is returned.
ghost use Rattle.std.specs.Prelude.{◌≡◌};
ghost use Rattle.varisat_maxsat.specs.declared.refusal.MaxSatError.TheVariants.{OutOfMemory};
ghost use Rattle.varisat_maxsat.specs.inside.Errors.{error_of_formula, error_of_refusal};

use std::alloc::{AllocError, AllocFailed};
use thiserror::Error;
use varisat_client::refusal::Refusal;
use varisat_formula::formula::FormulaError;

/// Why no answer is returned.
#[derive(Clone, Copy, Debug, PartialEq, Eq, Error)]
pub enum MaxSatError {
    /// Memory ran out.
    #[error("out of memory")]
    OutOfMemory,
    /// A variable would be past the limit of 2^28.
    #[error("more than 268435456 variables")]
    VariableLimit,
    /// The solver's store of clauses is full.
    #[error("the store of clauses is full")]
    ClauseStoreFull,
    /// The least cost is 2^64 or more.
    #[error("the least cost is 2^64 or more")]
    CostOverflow,
    /// The searches made all the steps that they may, or no more can be counted, or what is counted comes to no end.
    #[error("the searches made all the steps that they may")]
    StepsSpent,
    /// Who takes the solutions ended the search.
    #[error("the search was ended")]
    Ended,
}

impl From<AllocError> for MaxSatError {
    ghost from_gives = { λ _ e. e ≡ OutOfMemory };

    fn from(_error: AllocError) -> MaxSatError {
        MaxSatError::OutOfMemory
    }
}

impl<T: Drop> From<AllocFailed<T>> for MaxSatError {
    ghost from_gives = { λ _ e. e ≡ OutOfMemory };

    fn from(_error: AllocFailed<T>) -> MaxSatError {
        MaxSatError::OutOfMemory
    }
}

impl From<FormulaError> for MaxSatError {
    ghost from_gives = { λ fault e. e ≡ error_of_formula fault };

    fn from(error: FormulaError) -> MaxSatError {
        match error {
            FormulaError::Full => MaxSatError::VariableLimit,
            FormulaError::Memory => MaxSatError::OutOfMemory,
        }
    }
}

impl From<Refusal> for MaxSatError {
    ghost from_gives = { λ refusal e. e ≡ error_of_refusal refusal };

    fn from(refusal: Refusal) -> MaxSatError {
        match refusal {
            Refusal::OutOfMemory => MaxSatError::OutOfMemory,
            Refusal::VariableLimit => MaxSatError::VariableLimit,
            Refusal::ClauseStoreFull => MaxSatError::ClauseStoreFull,
        }
    }
}
