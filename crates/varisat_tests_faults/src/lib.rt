//! Tests of what comes of faults, over the public calls of the solver: each growth refused, each call of a target and a
//! source failing, each refusal asked for twice.
#![tactic(auto)]

#[cfg(test)]
mod tests;
