//! The store of the clauses of three or more literals, in one flat buffer.
#![tactic(auto)]

pub mod activity;
pub mod alloc;
pub mod clause;
pub mod collect;
pub mod db;
pub mod filter;
pub mod header;
pub mod iter;
pub mod reduce;
