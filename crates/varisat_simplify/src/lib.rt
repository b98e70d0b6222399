//! Simplification of a formula before it is searched: fewer variables and clauses, and a way back for its models.
#![tactic(auto)]

pub mod components;
pub mod congruence;
pub mod eliminate;
pub mod equal;
pub mod equate;
pub mod gates;
pub mod laws;
pub mod limits;
pub mod normal;
pub mod pairs;
pub mod probe;
pub mod propagate;
pub mod simplify;
pub mod subsume;
pub mod tables;

pub use varisat_database::{clauses, history};
pub use varisat_rules::stack;
