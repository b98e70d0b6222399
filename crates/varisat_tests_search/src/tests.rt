//! The tests, a file for each subject.

mod assuming;
mod checker;
mod collecting;
mod decisions;
mod lent;
mod loading;
mod naming;
mod schedule;
mod scheduled;
mod searches;
mod steps;
mod tiers;
mod variables;
mod watching;
