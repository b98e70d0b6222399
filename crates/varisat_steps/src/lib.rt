//! The steps of a search's proof, and what takes them.
#![tactic(auto)]

pub mod step;
pub mod tracer;

pub use step::ProofStep;
pub use tracer::{NoTracer, ProofTracer, TraceError};
