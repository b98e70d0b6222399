//! Short forms of formulas, by the DIMACS numbers of their literals.

/// An array of clauses by their literals' DIMACS numbers: `cnf![1, -2; 3;]`.
#[macro_export]
macro_rules! cnf {
    ($($($number:expr),*;)*) => {
        [$(&[$($crate::formula::Lit::from_dimacs($number)),*] as &[$crate::formula::Lit]),*]
    };
    ($($($number:expr),*);+) => {
        [$(&[$($crate::formula::Lit::from_dimacs($number)),*] as &[$crate::formula::Lit]),*]
    };
}

/// The formula of the clauses, in the allocator's memory: `cnf_formula!(in alloc; 1, -2; 3;)`. It returns a `Result`,
/// whose only error is `FormulaError::Memory`.
#[macro_export]
macro_rules! cnf_formula {
    (in $alloc:expr; $($clauses:tt)*) => {
        $crate::formula::CnfFormula::from_clauses_in($alloc, &$crate::cnf![$($clauses)*])
    };
}
