//! The clauses of a formula that is simplified, as memory has them: those that there ever were, which of them are live, and
//! where their literals stand.
#![tactic(auto)]

pub mod clauses;
pub mod database;
pub mod history;
pub mod lists;
pub mod names;
pub mod occurrences;
