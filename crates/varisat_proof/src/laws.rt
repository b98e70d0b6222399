//! What a check promises: each is the contract of a function with an empty body.
ghost use Rattle.varisat_proof.specs.promises.DratChecks.{drat_rules};
ghost use Rattle.varisat_lines.specs.promises.Lines.{encoding_of, plain_encoding};
ghost use Rattle.varisat_proof.specs.promises.Marked.{CheckOnce, CheckOnceBy, CheckGoesThrough};
ghost use Rattle.varisat_proof.specs.promises.Passing.{JournalsPass};
ghost use Rattle.varisat_proof.specs.promises.Results.{DerivationIsAccepted, ResultOnce};

use varisat_lines::format::ProofFormat;

/// Over all bytes of a proof just one result of a check is right.
pub fn one_result_is_right(_format: ProofFormat)
    ensures { ResultOnce _format }
{}

/// What is written for a derivation whose variables have numbers up to 2^28 is accepted as a refutation where it refutes,
/// and else as a derivation.
pub fn derivation_is_accepted(_format: ProofFormat)
    ensures { DerivationIsAccepted _format }
{}

/// Over all bytes just one result of a check of marked lines is right, and the clauses and cores that were logged up to
/// where it stops are determined.
pub fn one_check_is_right(_format: ProofFormat)
    ensures { CheckOnce (encoding_of _format) }
{}

/// Over all bytes just one result of a check of DRAT lines is right, whichever present clauses that are equal as sets its
/// deletions take out.
pub fn one_drat_check_is_right(_format: ProofFormat)
    ensures { CheckOnceBy drat_rules (plain_encoding _format) }
{}

/// A check of lines that are right one after the other finds none wrong, whichever present clauses the deletions take
/// out: it refutes as soon as propagation conflicts, or comes to their end.
pub fn right_lines_pass(_format: ProofFormat)
    ensures { CheckGoesThrough (encoding_of _format) }
{}

/// A check from no clause finds nothing wrong in the marked proof of a right journal, and reports its clauses and its cores,
/// up to where propagation first conflicts.
pub fn right_journals_pass()
    ensures { JournalsPass }
{}
