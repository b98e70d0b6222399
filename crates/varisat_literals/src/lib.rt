//! Variables and literals.
#![tactic(auto)]

pub mod laws;
pub mod lit;
mod macros;

pub use lit::{Lit, VARIABLE_LIMIT, Var};
