//! The lines of a proof, and what is written for them.

pub mod proving;

pub use proving::{
    Proof, add_assumptions, add_clause, add_step, close_proof, delete_var, flush_proof,
    solve_finished, take_target,
};
pub use varisat_lines::format::{LineKind, ProofFormat};
pub use varisat_lines::step::{MapStep, ProofStep};
pub use varisat_lines::writer::{WriteError, write_binary_step, write_step};
