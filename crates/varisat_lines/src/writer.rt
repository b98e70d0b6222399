//! Writes the lines of a proof.
ghost use Rattle.std.specs.Prelude.{◌≡◌, false, ℕ, List, [], ◌∷◌, ◌++◌, ◌+◌, ◌-◌, ◌<◌, ◌≤◌, ◌^◌, length, take, flat_map, OnOk};
ghost use Rattle.varisat_literals.specs.promises.Numbers.{literal_text};
ghost use Rattle.varisat_formula.specs.promises.Written.{spaced_literals};
ghost use Rattle.varisat_lines.specs.declared.format.Encoding.TheVariants.{Text, Binary};
ghost use Rattle.varisat_lines.specs.promises.Lines.{line_of_kind, plain_lines, letter};
ghost use Rattle.varisat_lines.specs.promises.Written.{leb128, leb128_by, codes_bytes, mark_text, line_text, line_bytes, line_written};
ghost use Rattle.varisat_lines.specs.promises.Steps.{step_lines, PutsLines};
ghost use Rattle.varisat_theory.specs.inside.StepLaws.{unit_lines};
ghost use Rattle.varisat_steps.specs.Traces.{entries_of};
ghost use Rattle.varisat_lines.specs.promises.Logging.{marked_line, logged_lines};

use crate::format::{Encoding, LineKind};
use crate::step::ProofStep;
use itoa::Buffer;
use std::alloc::{AllocError, Allocator};
use std::io;
use varisat_formula::io::ProofTarget;
use varisat_literals::Lit;

/// Why a step was not written.
#[derive(Debug, Drop)]
pub enum WriteError {
    /// The growth of the buffer was refused.
    Memory,
    /// The target failed.
    Target(io::Error),
}

/// The literal's number and a space.
fn push_literal<A: Allocator + Copy>(
    buffer: &mut Vec<u8, A>,
    literal: Lit,
) -> Result<(), AllocError>
    ensures { OnOk result (buffer.new.items ≡ buffer.old.items ++ (literal_text literal ++ 32 ∷ [])) }
{
    let mut digits = Buffer::new();
    let number = digits.format(literal.index() + 1).as_bytes();
    if literal.is_negative() {
        buffer.push(b'-')?;
    }
    buffer.extend_from_slice(number)?;
    buffer.push(b' ')?;
    Ok(())
}

/// The bytes of a line of text.
fn push_text<A: Allocator + Copy>(
    buffer: &mut Vec<u8, A>,
    kind: LineKind,
    clause: &[Lit],
) -> Result<(), AllocError>
    ensures { OnOk result (buffer.new.items ≡ line_text (line_of_kind kind clause.now)) }
{
    buffer.clear();
    match kind {
        LineKind::Adds => {}
        LineKind::Deletes => buffer.extend_from_slice(b"d ")?,
        LineKind::Accepts => buffer.extend_from_slice(b"i ")?,
        LineKind::Assumes => buffer.extend_from_slice(b"q ")?,
        LineKind::Fails => buffer.extend_from_slice(b"f ")?,
    }
    for literal in clause {
        push_literal(buffer, *literal)?;
    }
    buffer.extend_from_slice(b"0\n")?;
    Ok(())
}

/// The shortest LEB128 of the number.
fn push_number<A: Allocator + Copy>(buffer: &mut Vec<u8, A>, number: u64) -> Result<(), AllocError>
    requires { number < 2 ^ 35 }
    ensures { OnOk result (buffer.new.items ≡ buffer.old.items ++ leb128 number) }
{
    let mut rest = number;
    let mut left: u8 = 4;
    'bytes: while left > 0 && rest >= 128 {
        buffer.push((128 + rest % 128) as u8)?;
        rest /= 128;
        left -= 1;
    }
    buffer.push(rest as u8)?;
    Ok(())
}

/// The bytes of a binary line.
fn push_binary<A: Allocator + Copy>(
    buffer: &mut Vec<u8, A>,
    kind: LineKind,
    clause: &[Lit],
) -> Result<(), AllocError>
    ensures { OnOk result (buffer.new.items ≡ line_bytes (line_of_kind kind clause.now)) }
{
    buffer.clear();
    let tag = match kind {
        LineKind::Adds => b'a',
        LineKind::Deletes => b'd',
        LineKind::Accepts => b'i',
        LineKind::Assumes => b'q',
        LineKind::Fails => b'f',
    };
    buffer.push(tag)?;
    for literal in clause {
        push_number(buffer, literal.code() as u64 + 2)?;
    }
    buffer.push(0)?;
    Ok(())
}

/// The bytes of a line.
fn push_line<A: Allocator + Copy>(
    buffer: &mut Vec<u8, A>,
    encoding: Encoding,
    kind: LineKind,
    clause: &[Lit],
) -> Result<(), AllocError>
    ensures { OnOk result (buffer.new.items ≡ line_written encoding (line_of_kind kind clause.now)) }
{
    match encoding {
        Encoding::Text { .. } => push_text(buffer, kind, clause)?,
        Encoding::Binary => push_binary(buffer, kind, clause)?,
    }
    Ok(())
}

/// Writes a line by one `put`. The buffer is room to put it together.
fn write_line<W: ProofTarget, A: Allocator + Copy>(
    target: &mut W,
    buffer: &mut Vec<u8, A>,
    encoding: Encoding,
    kind: LineKind,
    clause: &[Lit],
) -> Result<(), WriteError>
    requires { (W.taken target.old).faults < 2 ^ 64 - 1 }
    ensures { PutsLines encoding (W.taken target.old) result (line_of_kind kind clause.now ∷ []) (W.taken target.new) }
{
    match push_line(buffer, encoding, kind, clause) {
        Ok(()) => {}
        Err(_) => return Err(WriteError::Memory),
    }
    match target.put(buffer.as_slice()) {
        Ok(()) => Ok(()),
        Err(error) => Err(WriteError::Target(error)),
    }
}

/// Writes each literal as a clause of its own, a line each.
fn write_units<W: ProofTarget, A: Allocator + Copy>(
    target: &mut W,
    buffer: &mut Vec<u8, A>,
    encoding: Encoding,
    units: &[Lit],
) -> Result<(), WriteError>
    requires { (W.taken target.old).faults < 2 ^ 64 - 1 }
    ensures { PutsLines encoding (W.taken target.old) result (plain_lines (unit_lines units.now)) (W.taken target.new) }
{
    for unit in units {
        write_line(target, buffer, encoding, LineKind::Adds, &[*unit])?;
    }
    Ok(())
}

/// Writes a line of a kind that only marked text has, and nothing in another encoding.
pub fn write_marked<W: ProofTarget, A: Allocator + Copy>(
    target: &mut W,
    buffer: &mut Vec<u8, A>,
    encoding: Encoding,
    kind: LineKind,
    literals: &[Lit],
) -> Result<(), WriteError>
    requires { (W.taken target.old).faults < 2 ^ 64 - 1 }
    ensures { PutsLines encoding (W.taken target.old) result (marked_line encoding (line_of_kind kind literals.now))
        (W.taken target.new) }
{
    match encoding {
        Encoding::Text { marked: true } => write_line(target, buffer, encoding, kind, literals),
        Encoding::Text { marked: false } | Encoding::Binary => Ok(()),
    }
}

/// Writes the lines that the step has in the encoding, each by one `put`: only marked text has one for a core.
pub fn write_entries<W: ProofTarget, A: Allocator + Copy>(
    target: &mut W,
    buffer: &mut Vec<u8, A>,
    encoding: Encoding,
    step: &ProofStep<'_>,
) -> Result<(), WriteError>
    requires { (W.taken target.old).faults < 2 ^ 64 - 1 }
    ensures { PutsLines encoding (W.taken target.old) result (logged_lines encoding (entries_of step.now))
        (W.taken target.new) }
{
    match step {
        ProofStep::AtClause { clause } => {
            write_line(target, buffer, encoding, LineKind::Adds, clause)
        }
        ProofStep::UnitClauses { units } => write_units(target, buffer, encoding, units),
        ProofStep::DeleteClause { clause } => {
            write_line(target, buffer, encoding, LineKind::Deletes, clause)
        }
        ProofStep::FailedAssumptions { failed_core } => {
            write_marked(target, buffer, encoding, LineKind::Fails, failed_core)
        }
        ProofStep::DeleteVar { .. } => Ok(()),
    }
}

/// Writes the lines of the step as text, each by one `put`, which the clause does not say. The buffer is room to put a line
/// together. After an error a beginning of them stands in the target.
pub fn write_step<W: ProofTarget, A: Allocator + Copy>(
    target: &mut W,
    buffer: &mut Vec<u8, A>,
    step: &ProofStep<'_>,
) -> Result<(), WriteError>
    requires { (W.taken target.old).faults < 2 ^ 64 - 1 }
    ensures { PutsLines (Text false) (W.taken target.old) result (plain_lines (step_lines step.now))
        (W.taken target.new) }
{
    write_entries(target, buffer, Encoding::Text { marked: false }, step)
}

/// Writes the lines of the step in the binary format, each by one `put`, which the clause does not say. The buffer is room to
/// put a line together. After an error a beginning of them stands in the target.
pub fn write_binary_step<W: ProofTarget, A: Allocator + Copy>(
    target: &mut W,
    buffer: &mut Vec<u8, A>,
    step: &ProofStep<'_>,
) -> Result<(), WriteError>
    requires { (W.taken target.old).faults < 2 ^ 64 - 1 }
    ensures { PutsLines Binary (W.taken target.old) result (plain_lines (step_lines step.now)) (W.taken target.new) }
{
    write_entries(target, buffer, Encoding::Binary, step)
}
