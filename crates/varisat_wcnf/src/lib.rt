//! MaxSAT problems as texts in the format WCNF, and what the program prints of them.
#![tactic(auto)]

mod costs;
pub mod program;
pub mod wcnf;
