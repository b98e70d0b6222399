//! Simplification of clauses that go on growing: variables are eliminated from them, and come back once they are named.
#![tactic(auto)]

pub mod batches;
pub mod flags;
pub mod forecast;
pub mod reconstruction;
