//! A client of the solver, by which clauses and assumptions are given a literal at a time, as DIMACS numbers.
#![tactic(auto)]

pub mod client;
pub mod literal_set;
pub mod numbers;
pub mod refusal;
pub mod session;
