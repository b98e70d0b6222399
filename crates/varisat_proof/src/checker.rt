//! A checker of proofs by unit propagation.

pub mod check;
pub mod drat;
pub mod error;
pub mod line;
pub mod marked;

pub use check::Checker;
pub use drat::DratCounts;
pub use error::{CheckVerdict, CheckerError};
pub use marked::MarkedReport;
