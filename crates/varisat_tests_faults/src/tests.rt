//! The tests, a file for each subject.

mod examples;
mod programs;
mod rows;
mod scripts;
mod sources;
mod sweeps;
