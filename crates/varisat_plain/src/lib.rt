//! A slow and readable checker of proofs, over plain lists.
#![tactic(auto)]

pub mod checker;
pub mod propagation;
