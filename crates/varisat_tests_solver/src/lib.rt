//! Tests over the public calls of the solver and of its program: worked examples, printed texts, lines of a session as they are
//! read and written, and sessions and commands with what they print. What owns memory has a function of its own, with one
//! return, and lends it to another that compares.
#![tactic(auto)]

#[cfg(test)]
mod tests;
