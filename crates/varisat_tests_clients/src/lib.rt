//! Tests of what no contract says of the client, of MaxSAT and of a simplification: that they come to answers, at small
//! formulas and numbers at the ends, how texts are read and where a fault is, and each growth refused.
#![tactic(auto)]

#[cfg(test)]
mod tests;
