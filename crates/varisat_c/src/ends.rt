//! The numbers by which a C program is given how a search ended, and why calls are refused.
ghost use Rattle.std.specs.Prelude.{◌≡◌};
ghost use Rattle.varisat_c.specs.Ends.{end_code, refusal_code};

use varisat_client::client::SearchEnd;
use varisat_client::refusal::Refusal;

/// The number of an end, as IPASIR has it, and 1 for a search that is refused.
pub fn end_code(end: SearchEnd) -> u8
    ensures { result ≡ end_code end }
{
    match end {
        SearchEnd::Satisfiable => 10,
        SearchEnd::Unsatisfiable => 20,
        SearchEnd::Interrupted => 0,
        SearchEnd::Refused => 1,
    }
}

/// The number of a reason, and 0 where there is none.
pub fn refusal_code(refusal: Option<Refusal>) -> u8
    ensures { result ≡ refusal_code refusal }
{
    match refusal {
        None => 0,
        Some(Refusal::OutOfMemory) => 1,
        Some(Refusal::VariableLimit) => 2,
        Some(Refusal::ClauseStoreFull) => 3,
    }
}
