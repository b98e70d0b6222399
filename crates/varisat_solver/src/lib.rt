//! The solver: clauses, assumptions, searches, models, cores, modes of variables, settings and proofs.
#![tactic(auto)]

mod accept;
mod carrying;
mod detaching;
mod fixed;
mod name_checks;
mod phases;
mod progress;
pub mod rounds;
pub mod solver;
mod solving;
mod usage;

pub use solver::Solver;
