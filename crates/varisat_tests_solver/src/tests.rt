//! The tests, a file for each subject.

mod calls;
mod checking;
mod counting;
mod formulas;
mod hiding;
mod paths;
mod programs;
