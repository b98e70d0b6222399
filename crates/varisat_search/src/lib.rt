//! One search: learning from conflicts, backtracking, loading of clauses, and the step that a solver repeats.
#![tactic(auto)]

pub mod assess;
pub mod assumptions;
mod bumps;
pub mod cdcl;
pub mod collect;
pub mod context;
pub mod decision;
pub mod error;
pub mod forgetting;
pub mod levels;
pub mod literals;
pub mod load;
mod mend;
pub mod model;
pub mod reduce;
mod replace;
pub mod schedule;
pub mod solver_variables;
pub mod state;
mod trace;
pub mod unit_simplify;

pub use varisat_analysis::{analyze_conflict, glue, tmp};
