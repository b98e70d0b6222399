//! The clauses that a checker of proofs has present: what follows from them or is RAT, and what is kept between lines of what
//! propagation over them came to.
#![tactic(auto)]

mod firsts;
mod index;
pub mod present;
mod resolvents;

pub use present::{Deletion, PresentClauses};
