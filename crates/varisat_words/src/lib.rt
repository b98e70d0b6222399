//! What the command lines of the programs have in common.
#![tactic(auto)]

pub mod amounts;
pub mod mistakes;
