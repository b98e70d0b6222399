//! A heap for tests, of which a chosen growth is refused.
#![tactic(auto)]

mod heap;

pub use heap::CutHeap;
