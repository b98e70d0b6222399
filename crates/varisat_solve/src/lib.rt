//! The command `solve`, which simplifies a text's formula, if it is long, before it searches.
#![tactic(auto)]

pub mod deciding;
pub mod lines;
pub mod models;
pub mod options;
pub mod pace;
pub mod program;
pub mod rounds;
pub mod watch;
pub mod wrapping;
