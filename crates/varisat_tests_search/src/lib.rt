//! Tests of what no contract says, over the calls of a search, and over calls of its parts that none makes: worked examples.
#![tactic(auto)]

#[cfg(test)]
mod tests;
