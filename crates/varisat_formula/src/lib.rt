//! Formulas, DIMACS CNF text, and where bytes are read from and written to.
#![tactic(auto)]

pub mod dimacs;
pub mod formula;
pub mod io;
mod macros;
pub mod values;

pub use varisat_literals::{lit, lits, var};
