//! Weighted partial MaxSAT: an assignment that satisfies each hard clause, and misses soft clauses of the least weight.
#![tactic(auto)]

mod charge;
mod counter;
mod feeding;
pub mod problem;
mod reduction;
pub mod refusal;
pub mod sink;
pub mod solving;

pub use problem::Problem;
pub use refusal::MaxSatError;
pub use sink::{NoSink, SolutionSink};
pub use solving::{Optimum, Solution, optimize, optimize_within};
