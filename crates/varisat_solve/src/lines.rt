//! The lines of a simplification, as a proof has them.
ghost use Rattle.std.specs.Prelude.{◌≡◌, ◌-◌, ◌^◌, ◌<◌, [], ◌∷◌, false, length, slice_index_or};
ghost use Rattle.varisat_theory.specs.promises.Derivations.{Add};
ghost use Rattle.varisat_lines.specs.promises.Lines.{encoding_of, has_marks, plain_line, plain_lines};
ghost use Rattle.varisat_lines.specs.promises.Steps.{PutsLines, step_lines};

use std::alloc::Allocator;
use varisat::io::ProofTarget;
use varisat::proof::{ProofFormat, ProofStep, WriteError, write_binary_step, write_step};
use varisat_simplify::history::History;

/// Writes a step in the format, which has no marks.
fn write_plain<W: ProofTarget, A: Allocator + Copy>(
    target: &mut W,
    buffer: &mut Vec<u8, A>,
    format: ProofFormat,
    step: &ProofStep<'_>,
) -> Result<(), WriteError>
    requires room { (W.taken target.old).faults < 2 ^ 64 - 1 }
    requires plain { has_marks format ≡ false }
    ensures { PutsLines (encoding_of format) (W.taken target.old) result (plain_lines (step_lines step.now))
        (W.taken target.new) }
{
    match format {
        ProofFormat::BinaryDrat => write_binary_step(target, buffer, step),
        ProofFormat::Drat | ProofFormat::Marked => write_step(target, buffer, step),
    }
}

/// Writes the line of the history at the index.
fn write_line<W: ProofTarget, A: Allocator + Copy>(
    target: &mut W,
    buffer: &mut Vec<u8, A>,
    format: ProofFormat,
    history: &History<A>,
    line: usize,
) -> Result<(), WriteError>
    requires room { (W.taken target.old).faults < 2 ^ 64 - 1 }
    requires plain { has_marks format ≡ false }
    requires within { line < length history.now.lines }
    ensures { PutsLines (encoding_of format) (W.taken target.old) result
        (plain_line (slice_index_or history.now.lines line (Add [])) ∷ []) (W.taken target.new) }
{
    let clause = history.lits(line);
    let step = if history.deletes(line) {
        ProofStep::DeleteClause { clause }
    } else {
        ProofStep::AtClause { clause }
    };
    write_plain(target, buffer, format, &step)
}

/// Writes the lines of the history, each by one `put`.
pub fn write_history<W: ProofTarget, A: Allocator + Copy>(
    target: &mut W,
    buffer: &mut Vec<u8, A>,
    format: ProofFormat,
    history: &History<A>,
) -> Result<(), WriteError>
    requires room { (W.taken target.old).faults < 2 ^ 64 - 1 }
    requires plain { has_marks format ≡ false }
    ensures { PutsLines (encoding_of format) (W.taken target.old) result (plain_lines history.now.lines)
        (W.taken target.new) }
{
    for line in 0..history.line_count() {
        write_line(target, buffer, format, history, line)?;
    }
    Ok(())
}
