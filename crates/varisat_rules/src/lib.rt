//! The steps of a simplification, each of which keeps what the clauses say: resolution, subsumption, what units fix, and the way back for
//! models.
#![tactic(auto)]

pub mod derive;
pub mod eliminate;
pub mod positions;
pub mod resolve;
pub mod stack;
pub mod subsume;
pub mod units;
