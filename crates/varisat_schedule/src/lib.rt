//! When a search restarts: the Luby sequence, and the schedule of a search's steps. What is counted of it.
#![tactic(auto)]

pub mod counters;
pub mod laws;
pub mod luby;
pub mod schedule;
