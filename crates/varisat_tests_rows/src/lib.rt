//! Tests of the parts below a search by tables: texts of formulas and of proofs, the clause store, the heap, restarts and settings.
#![tactic(auto)]

#[cfg(test)]
mod tests;
