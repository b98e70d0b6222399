//! The parts of a search that propagate: the kept clauses, the assignment, the trail, the implication graph and the
//! lists of watches.
#![tactic(auto)]

pub mod binary;
pub mod clause;
pub mod prop;
pub mod short;
