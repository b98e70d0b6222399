//! The steps of a solver's proof.

use varisat_literals::{Lit, Var};

/// A step of a proof. No format has a line for a variable that leaves, and only marked proofs have one for a core: these are
/// for a checker.
#[derive(Clone, Copy)]
pub enum ProofStep<'a> {
    /// The clause follows from those that are present, and joins them.
    AtClause { clause: &'a [Lit] },
    /// Each of the literals follows in turn, as a clause of its own.
    UnitClauses { units: &'a [Lit] },
    /// One present clause that is equal as a set leaves.
    DeleteClause { clause: &'a [Lit] },
    /// The clauses with a literal of the variable leave.
    DeleteVar { var: Var },
    /// Propagation from the literals conflicts.
    FailedAssumptions { failed_core: &'a [Lit] },
}
