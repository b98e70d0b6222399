//! Clauses at places, the literals that are known, and unit propagation from these over those.
#![tactic(auto)]

pub mod clause;
mod copies;
pub mod guide;
pub mod known;
pub mod pairs;
pub mod places;
pub mod propagation;
pub mod sets;
mod tiers;
mod watches;

pub use known::Known;
