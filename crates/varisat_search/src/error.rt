//! Why a step of a search failed.

use std::alloc::AllocError;
use std::io;
use varisat_prop::clause::StoreError;
use varisat_steps::TraceError;

/// Why a step failed. Contracts say when the clause store is full, and that `Target` is returned just where the
/// tracer's target failed.
#[derive(Debug, Drop)]
pub enum StepError {
    /// The clause store has no room for a clause of all variables.
    Full,
    /// It is out of memory.
    Memory,
    /// The target of the proof failed.
    Target(io::Error),
}

impl From<AllocError> for StepError {
    ghost use Rattle.std.specs.Prelude.{◌≡◌};
    ghost use Rattle.varisat_search.specs.declared.error.StepError.TheVariants.{Memory};

    ghost from_gives = { λ _ e. e ≡ Memory };

    fn from(_error: AllocError) -> StepError {
        StepError::Memory
    }
}

impl From<StoreError> for StepError {
    ghost use Rattle.std.specs.Prelude.{◌≡◌};
    ghost use Rattle.varisat_search.specs.StepErrors.{step_error_of_store};

    ghost from_gives = { λ error result. result ≡ step_error_of_store error };

    fn from(error: StoreError) -> StepError {
        match error {
            StoreError::Full => StepError::Full,
            StoreError::Memory => StepError::Memory,
        }
    }
}

impl From<TraceError> for StepError {
    ghost use Rattle.std.specs.Prelude.{◌≡◌};
    ghost use Rattle.varisat_search.specs.StepErrors.{step_error_of_trace};

    ghost from_gives = { λ error result. result ≡ step_error_of_trace error };

    fn from(error: TraceError) -> StepError {
        match error {
            TraceError::Memory => StepError::Memory,
            TraceError::Target(error) => StepError::Target(error),
        }
    }
}
