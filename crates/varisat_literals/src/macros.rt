//! Short forms of variables and literals, by their DIMACS numbers.

/// The variable with the DIMACS number: `var!(3)`.
#[macro_export]
macro_rules! var {
    ($number:expr) => {
        $crate::Var::from_dimacs($number)
    };
}

/// The literal with the DIMACS number: `lit!(3)`, `lit!(-2)`.
#[macro_export]
macro_rules! lit {
    ($number:expr) => {
        $crate::Lit::from_dimacs($number)
    };
}

/// An array of the literals with the DIMACS numbers: `lits![1, -2, 3]`.
#[macro_export]
macro_rules! lits {
    ($($number:expr),* $(,)?) => {
        [$($crate::Lit::from_dimacs($number)),*]
    };
}
