//! Proofs of unsatisfiability: what a solver logs, and a checker by unit propagation.
#![tactic(auto)]

pub mod checker;
pub mod laws;
pub mod program;
pub mod proof;
