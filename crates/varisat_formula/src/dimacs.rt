//! DIMACS CNF text: a reader that takes it in any pieces, and a writer.

pub mod error;
mod header;
pub mod incremental;
pub mod parse;
pub mod parser;
mod reading;
pub mod token;
pub mod writer;

pub use error::{DimacsError, DimacsErrorKind};
pub use incremental::PieceReader;
pub use parse::{ClauseSink, read_clauses};
pub use parser::DimacsParser;
pub use writer::write_dimacs;
