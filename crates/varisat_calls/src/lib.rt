//! A solver and a simplifier for callers in other languages: lists of DIMACS numbers and pieces of texts go in, a
//! number comes out of each call, and a list that is returned is kept until the next one.
#![tactic(auto)]

pub mod caller;
pub mod checks;
pub mod codes;
pub mod given;
pub mod lists;
pub mod lookups;
pub mod numbers;
pub mod simplifier;
pub mod stream;
