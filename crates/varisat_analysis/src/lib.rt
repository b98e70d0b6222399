//! What a search learns from its parts: clauses from conflicts, cores of assumptions, glue and tiers, and which clauses
//! are reasons.
#![tactic(auto)]

pub mod analyze_conflict;
pub mod assess;
pub mod bumps;
pub mod clause_literals;
pub mod failed_core;
pub mod glue;
pub mod reasons;
pub mod tmp;
mod unimplied;
