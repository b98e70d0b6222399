//! The settings of a solver, and its variables: names of the user, the global variables that they lead to, and solver
//! variables.
#![tactic(auto)]

pub mod config;
pub mod variables;
