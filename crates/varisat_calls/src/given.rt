//! The clauses that were given, for proofs alone. They take no memory, and no method does anything at run time.
ghost use Rattle.std.specs.Prelude.{◌≡◌, ℕ, List};
ghost use Rattle.std.specs.Borrow.{ftrue};

use std::marker::Model;
use varisat_formula::formula::cnf::Clauses;

/// Clauses that only contracts read.
#[derive(Drop)]
pub struct GivenClauses {
    pub ghost clauses: { List (List ℕ) },
}

impl Model for GivenClauses {
    ghost also_owns = { λ _. ftrue };
}

impl GivenClauses {
    /// The clauses that the iterator has.
    pub fn of(_clauses: &Clauses<'_>) -> GivenClauses
        ensures { result.clauses ≡ _clauses.now }
    {
        GivenClauses {}
    }
}
