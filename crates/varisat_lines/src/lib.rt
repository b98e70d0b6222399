//! The lines of a proof of unsatisfiability: their formats, written and read as bytes.
#![tactic(auto)]

pub mod format;
pub mod laws;
pub mod reader;
pub mod step;
pub mod token;
pub mod writer;
