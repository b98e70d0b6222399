//! How the steps of a search reach the solver's proof: over global variables.
#![tactic(auto)]

pub mod tracer;

pub use tracer::SolverTracer;
