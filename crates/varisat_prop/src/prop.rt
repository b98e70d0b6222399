//! Assignments, and unit propagation.

pub mod assignment;
pub mod binary;
pub mod enqueue;
pub mod graph;
mod lit_value;
pub mod long;
pub mod propagation;
pub mod trail;
pub mod watch;
pub mod watch_list;

pub use assignment::Assignment;
pub use binary::propagate_binary;
pub use enqueue::enqueue_assignment;
pub use graph::{Conflict, ImplGraph, ImplNode, Reason};
pub use long::propagate_long;
pub use propagation::{enable_watchlists, propagate};
pub use trail::Trail;
pub use watch::Watchlists;
pub use watch_list::{Watch, WatchList};
