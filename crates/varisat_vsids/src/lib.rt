//! The variables of a search by activity, of which the most active available one is decided next.
#![tactic(auto)]

mod heap;
mod idle;
pub mod vsids;

pub use vsids::Vsids;
