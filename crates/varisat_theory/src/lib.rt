//! The theory that a solver of clauses stands on, with no solver in sight: definitions and laws over plain lists.
#![tactic(auto)]

pub mod laws;
