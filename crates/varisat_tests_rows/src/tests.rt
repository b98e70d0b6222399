//! The tests, a file for each table.

mod checkers;
mod checks;
mod formulas;
mod heap;
mod marked;
mod schedule;
mod settings;
mod store;
mod texts;
mod values;
