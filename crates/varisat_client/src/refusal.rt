//! Why a client refuses calls.
ghost use Rattle.std.specs.Prelude.{◌≡◌};
ghost use Rattle.varisat_client.specs.inside.Refusals.{refusal_for, store_refusal_for};

use varisat::solver::SolverError;

/// Why a client refused a call, and each one since.
#[derive(Clone, Copy)]
pub enum Refusal {
    /// Memory ran out.
    OutOfMemory,
    /// A literal's variable is past the limit of 2^28 variables.
    VariableLimit,
    /// The store of clauses is full.
    ClauseStoreFull,
}

/// As which reason a client returns an error of the solver. Only these three come: a client opens no proof, hides no
/// variable, and calls nothing more after a refusal.
pub(crate) fn refusal_for(error: &SolverError) -> Refusal
    ensures { result ≡ refusal_for error.now }
{
    match error {
        SolverError::VariableLimit => Refusal::VariableLimit,
        SolverError::ClauseStoreFull => Refusal::ClauseStoreFull,
        _ => Refusal::OutOfMemory,
    }
}

/// The same where clauses are given whose variables are not past the limit.
pub(crate) fn store_refusal_for(error: &SolverError) -> Refusal
    ensures { result ≡ store_refusal_for error.now }
{
    match error {
        SolverError::ClauseStoreFull => Refusal::ClauseStoreFull,
        _ => Refusal::OutOfMemory,
    }
}
