//! The tests, a file for each subject.

mod answers;
mod costs;
mod simplifying;
