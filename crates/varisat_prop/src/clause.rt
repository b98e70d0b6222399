//! The store of the kept clauses, and their headers.

pub use varisat_clause::alloc::{ClauseAlloc, ClauseRef, StoreError};
pub use varisat_clause::header::{ClauseHeader, Tier};
