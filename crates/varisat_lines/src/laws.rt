//! What the formats promise: the contract of a function with an empty body.
ghost use Rattle.varisat_lines.specs.inside.Laws.{WrittenIsAccepted, AcceptedOnce, AcceptedOrFaulty, NotBoth, FaultyOnce};
ghost use Rattle.varisat_lines.specs.promises.Lines.{encoding_of};

use crate::format::ProofFormat;

/// Each byte string means one thing: it is accepted for one list of lines, or has its first fault at one offset, behind
/// one list of lines. What is written for lines whose variables have numbers up to 2^28 is accepted for just these.
pub fn bytes_mean_one_thing(_format: ProofFormat)
    ensures written { WrittenIsAccepted (encoding_of _format) }
    ensures once { AcceptedOnce (encoding_of _format) }
    ensures one { AcceptedOrFaulty (encoding_of _format) }
    ensures not_both { NotBoth (encoding_of _format) }
    ensures fault_once { FaultyOnce (encoding_of _format) }
{}
