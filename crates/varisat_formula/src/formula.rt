//! Formulas, with the variables and literals that they are made of.

pub mod cnf;

pub use cnf::{Clauses, CnfFormula, ExtendFormula, FormulaError, new_lits, new_vars};
pub use varisat_literals::{Lit, VARIABLE_LIMIT, Var, laws, lit};
