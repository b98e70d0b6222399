//! The laws, by subject: each is the contract of a function with an empty body.

pub mod growth;
pub mod held;
pub mod journals;
pub mod learning;
pub mod luby;
pub mod rank;
pub mod renaming;
pub mod soundness;
pub mod steps;
