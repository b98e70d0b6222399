//! The lines of a session: reading a line's command as a call, and writing the answer.
ghost use Rattle.std.specs.Prelude.{◌≡◌, ◌≢◌, ◌==◌, ℕ, ◌+◌, ◌<◌, ◌≤◌, ◌^◌, List, [], ◌∷◌, ◌++◌, map, IfOk, IfSome, IfNone, OnOk, decimal, length, codes};
ghost use Rattle.std.specs.List.{All, join_with_byte};
ghost use Rattle.std.specs.Io.KnownBytes.{Appends};
ghost use Rattle.varisat_theory.specs.promises.Literals.{Literal};
ghost use Rattle.varisat_literals.specs.promises.Numbers.{literal_text, variable_text};
ghost use Rattle.varisat.specs.promises.Lines.{Command, Add, Assume, Config, words, MeansCommand, BeginsList, MeansUpdate, MeansOneCommand, AsksFor, SetsUsage, Opens, words_of, literals_text, variables_text, names_text, refusal_text, done_text, list_text, made_text, solved_text, truth_text, count_text, hex_digit, hex_text, bytes_text, opened_text, closed_text, answer_text};
ghost use Rattle.varisat_solver.specs.promises.ReturnedLists.{returned_list, returned_variables};

use crate::session::{Answer, Call};
use itoa::Buffer;
use std::alloc::{AllocError, Allocator};
use std::io::{self, Write};
use std::str;
use varisat_formula::io::{ByteSource, MemoryTarget};
use varisat_literals::{Lit, Var};
use varisat_names::config::{ConfigField, SolverConfigUpdate};
use varisat_proof::proof::ProofFormat;
use varisat_solver::solver::SolverError;

// The highest number of a variable.
const MAX_NUMBER: u64 = 0x8000_0000;

/// Reads a line's command, without the line feed. None is for a text that is no command; the only error is out of
/// memory.
pub fn parse_line<S: ByteSource, A: Allocator + Copy>(
    alloc: A,
    text: &[u8],
) -> Result<Option<Call<MemoryTarget<A>, S, A>>, AllocError>
    ensures command { IfOk result
        (λ found. IfSome found (λ call. (command : Command) × AsksFor call command × MeansCommand text.now command)) }
    ensures no_command { IfOk result (λ found. IfNone found ((command : Command) → MeansCommand text.now command → ⊥)) }
{
    if let Some(numbers) = text.strip_prefix(b"add ") {
        return match parse_literals(alloc, numbers)? {
            Some(literals) => Ok(Some(Call::AddClause(literals))),
            None => Ok(None),
        };
    }
    match text.strip_prefix(b"assume ") {
        Some(numbers) => match parse_literals(alloc, numbers)? {
            Some(literals) => Ok(Some(Call::Assume(literals))),
            None => Ok(None),
        },
        None => Ok(parse_short(alloc, text)),
    }
}

// The call of a command that does not begin with `add` or `assume` and a space.
fn parse_short<S: ByteSource, A: Allocator + Copy>(
    alloc: A,
    text: &[u8],
) -> Option<Call<MemoryTarget<A>, S, A>>
    ensures command { IfSome result
        (λ call. (command : Command) × AsksFor call command × MeansCommand text.now command) }
    ensures no_command { IfNone result ((command : Command) → MeansCommand text.now command → BeginsList text.now) }
{
    match text.strip_prefix(b"config ") {
        Some(setting) => Some(Call::Config(parse_setting(setting)?)),
        None => match parse_usage(text) {
            Some(call) => Some(call),
            None => match parse_proof(alloc, text) {
                Some(call) => Some(call),
                None => parse_word(alloc, text),
            },
        },
    }
}

// The call of a command that sets how a variable is used.
fn parse_usage<S: ByteSource, A: Allocator + Copy>(
    text: &[u8],
) -> Option<Call<MemoryTarget<A>, S, A>>
    ensures command { IfSome result
        (λ call. (command : Command) × AsksFor call command × MeansCommand text.now command) }
    ensures no_command { IfNone result ((command : Command) → MeansCommand text.now command → SetsUsage command → ⊥) }
{
    if let Some(number) = text.strip_prefix(b"sample ") {
        return Some(Call::SampleVar(parse_variable(number)?));
    }
    if let Some(number) = text.strip_prefix(b"witness ") {
        return Some(Call::WitnessVar(parse_variable(number)?));
    }
    match text.strip_prefix(b"hide ") {
        Some(number) => Some(Call::HideVar(parse_variable(number)?)),
        None => None,
    }
}

// The call of a command that opens a proof, which is written to memory.
fn parse_proof<S: ByteSource, A: Allocator + Copy>(
    alloc: A,
    text: &[u8],
) -> Option<Call<MemoryTarget<A>, S, A>>
    ensures command { IfSome result
        (λ call. (command : Command) × AsksFor call command × MeansCommand text.now command) }
    ensures no_command { IfNone result ((command : Command) → MeansCommand text.now command → Opens command → ⊥) }
{
    if text == b"proof text".as_slice() {
        Some(Call::WriteProof(MemoryTarget::new_in(alloc), ProofFormat::Drat))
    } else if text == b"proof binary".as_slice() {
        Some(Call::WriteProof(MemoryTarget::new_in(alloc), ProofFormat::BinaryDrat))
    } else if text == b"proof marked".as_slice() {
        Some(Call::WriteProof(MemoryTarget::new_in(alloc), ProofFormat::Marked))
    } else {
        None
    }
}

// The call of a command that is one word.
fn parse_word<S: ByteSource, A: Allocator + Copy>(
    alloc: A,
    word: &[u8],
) -> Option<Call<MemoryTarget<A>, S, A>>
    ensures command { IfSome result
        (λ call. (command : Command) × AsksFor call command × MeansCommand word.now command) }
    ensures no_command { IfNone result
        ((command : Command) → MeansCommand word.now command → 1 < length (words command)) }
{
    if word == b"add".as_slice() {
        Some(Call::AddClause(Vec::new(alloc)))
    } else if word == b"assume".as_slice() {
        Some(Call::Assume(Vec::new(alloc)))
    } else if word == b"new".as_slice() {
        Some(Call::NewVar)
    } else if word == b"solve".as_slice() {
        Some(Call::Solve)
    } else if word == b"model".as_slice() {
        Some(Call::Model)
    } else if word == b"core".as_slice() {
        Some(Call::FailedCore)
    } else if word == b"close".as_slice() {
        Some(Call::CloseProof)
    } else if word == b"steps".as_slice() {
        Some(Call::Steps)
    } else if word == b"since".as_slice() {
        Some(Call::StepsSinceChange)
    } else if word == b"observe".as_slice() {
        Some(Call::ObserveInternalVars)
    } else if word == b"selfcheck".as_slice() {
        Some(Call::EnableSelfChecking)
    } else {
        None
    }
}

// The update of a command that begins with `config` and a space, from what follows: a setting's name and a number.
fn parse_setting(setting: &[u8]) -> Option<SolverConfigUpdate>
    ensures command { IfSome result (MeansUpdate (codes "config " ++ setting.now)) }
    ensures no_command { IfNone result
        ((command : Command) → MeansCommand (codes "config " ++ setting.now) command → ⊥) }
{
    let (name, number) = split_word(setting);
    let field = ConfigField::from_name(name)?;
    let value = parse_number(number?)?;
    Some(SolverConfigUpdate::one(field, value))
}

// The literals of a command that begins with `add` or `assume` and a space, from what follows.
fn parse_literals<A: Allocator + Copy>(
    alloc: A,
    numbers: &[u8],
) -> Result<Option<Vec<Lit, A>>, AllocError>
    ensures clause { IfOk result
        (λ found. IfSome found (λ literals. MeansCommand (codes "add " ++ numbers.now) (Add literals.items))) }
    ensures list { IfOk result
        (λ found. IfSome found (λ literals. MeansCommand (codes "assume " ++ numbers.now) (Assume literals.items))) }
    ensures no_clause { IfOk result
        (λ found. IfNone found ((command : Command) → MeansCommand (codes "add " ++ numbers.now) command → ⊥)) }
    ensures no_list { IfOk result
        (λ found. IfNone found ((command : Command) → MeansCommand (codes "assume " ++ numbers.now) command → ⊥)) }
{
    let mut literals = Vec::new(alloc);
    let mut rest = Some(numbers);
    while let Some(text) = rest {
        let (number, others) = split_word(text);
        match parse_literal(number) {
            Some(literal) => literals.push(literal)?,
            None => return Ok(None),
        }
        rest = others;
    }
    Ok(Some(literals))
}

// What stands before the first space, and what behind it, if there is one.
fn split_word(text: &[u8]) -> (&[u8], Option<&[u8]>)
    ensures last { IfNone result.1 (words_of text.now ≡ result.0.now ∷ []) }
    ensures more { IfSome result.1 (λ rest. words_of text.now ≡ result.0.now ∷ words_of rest.now) }
    ensures shorter { IfSome result.1 (λ rest. length rest.now < length text.now) }
{
    match text.iter().position(|byte| *byte == b' ') {
        Some(end) => (&text[..end], Some(&text[end + 1..])),
        None => (text, None),
    }
}

/// The literal of a DIMACS number, which is an optional `-` and digits without a leading zero, from 1 to 2^31.
pub fn parse_literal(number: &[u8]) -> Option<Lit>
    ensures literal { IfSome result (λ l. (literal_text l ≡ number.now) × (l < 2 ^ 32)) }
    ensures no_literal { IfNone result ((l : Literal) → l < 2 ^ 32 → literal_text l ≢ number.now) }
{
    match number.strip_prefix(b"-") {
        Some(digits) => Some(parse_variable(digits)?.lit(false)),
        None => Some(parse_variable(number)?.lit(true)),
    }
}

/// The variable of a DIMACS number, which is digits without a leading zero, from 1 to 2^31.
pub fn parse_variable(number: &[u8]) -> Option<Var>
    ensures variable { IfSome result (λ v. (variable_text v ≡ number.now) × (v < 2 ^ 31)) }
    ensures no_variable { IfNone result ((v : ℕ) → v < 2 ^ 31 → variable_text v ≢ number.now) }
{
    let value = parse_number(number)?;
    if value == 0 || value > MAX_NUMBER {
        return None;
    }
    Some(Var::from_index(value as usize - 1))
}

/// The number that digits without a leading zero write, up to 2^64-1.
pub fn parse_number(text: &[u8]) -> Option<u64>
    ensures number { IfSome result (λ n. (decimal n ≡ text.now) × (n < 2 ^ 64)) }
    ensures no_number { IfNone result ((n : ℕ) → n < 2 ^ 64 → decimal n ≢ text.now) }
{
    let first = *text.first()?;
    if first == b'+' {
        return None;
    }
    if first == b'0' && text.len() > 1 {
        return None;
    }
    let Ok(digits) = str::from_utf8(text) else {
        return None;
    };
    match digits.parse::<u64>() {
        Ok(value) => Some(value),
        Err(_) => None,
    }
}

/// A text means at most one command.
pub fn means_one_command()
    ensures { MeansOneCommand }
{}

/// Writes the answer of a call, without a line feed: of a proof that was closed its bytes in hexadecimal. An error is
/// the writer's, and a beginning of the answer may be written.
pub fn write_answer<O: Write, S: ByteSource, A: Allocator + Copy>(
    out: &mut O,
    answer: &Answer<MemoryTarget<A>, S, A>,
) -> io::Result<()>
    ensures { OnOk result (Appends (O.contents out.old) (O.contents out.new) (answer_text answer.now)) }
{
    match answer {
        Answer::AddClause(done)
        | Answer::AddFormula(done)
        | Answer::AddDimacsCnf(done, _)
        | Answer::SampleVar(done)
        | Answer::WitnessVar(done)
        | Answer::HideVar(done)
        | Answer::SetPhase(done)
        | Answer::Assume(done)
        | Answer::Config(done)
        | Answer::EnableSelfChecking(done) => write_done(out, done),
        Answer::SetMaxSteps | Answer::UnsetPhase => out.write_all(b"ok"),
        Answer::NewVar(made) => write_made(out, made),
        Answer::ObserveInternalVars(names) => write_names(out, names),
        Answer::Steps(steps) | Answer::StepsSinceChange(steps) => write_count(out, *steps),
        Answer::Solve(solved) => write_solved(out, solved),
        Answer::IsValid(truth) | Answer::IsFixed(truth) => write_truth(out, *truth),
        Answer::Model(list) | Answer::FailedCore(list) => write_list(out, list),
        Answer::WriteProof(opened) => write_opened(out, opened),
        Answer::CloseProof(closed) => write_closed(out, closed),
    }
}

/// Writes a variable that was made, or the refusal. Of errors the same holds as of `write_answer`.
fn write_made<W: Write>(out: &mut W, made: &Result<Var, SolverError>) -> io::Result<()>
    ensures { OnOk result (Appends (W.contents out.old) (W.contents out.new) (made_text made.now)) }
{
    match made {
        Ok(var) => {
            out.write_all(b"ok ")?;
            out.write_all(Buffer::new().format(var.to_dimacs()).as_bytes())
        }
        Err(error) => write_refusal(out, error),
    }
}

/// Writes a number. Of errors the same holds as of `write_answer`.
fn write_count<W: Write>(out: &mut W, count: u64) -> io::Result<()>
    ensures { OnOk result (Appends (W.contents out.old) (W.contents out.new) (count_text count)) }
{
    out.write_all(b"ok ")?;
    out.write_all(Buffer::new().format(count).as_bytes())
}

/// Writes what `solve` returned. Of errors the same holds as of `write_answer`.
fn write_solved<W: Write>(out: &mut W, solved: &Result<bool, SolverError>) -> io::Result<()>
    ensures { OnOk result (Appends (W.contents out.old) (W.contents out.new) (solved_text solved.now)) }
{
    match solved {
        Ok(truth) => write_truth(out, *truth),
        Err(error) => write_refusal(out, error),
    }
}

/// Writes a truth value. Of errors the same holds as of `write_answer`.
fn write_truth<W: Write>(out: &mut W, truth: bool) -> io::Result<()>
    ensures { OnOk result (Appends (W.contents out.old) (W.contents out.new) (truth_text truth)) }
{
    if truth {
        out.write_all(b"ok true")
    } else {
        out.write_all(b"ok false")
    }
}

/// Writes that a proof is open, or the refusal. Of errors the same holds as of `write_answer`.
fn write_opened<W: Write, A: Allocator + Copy>(
    out: &mut W,
    opened: &Result<(), (SolverError, MemoryTarget<A>)>,
) -> io::Result<()>
    ensures { OnOk result (Appends (W.contents out.old) (W.contents out.new) (opened_text opened.now)) }
{
    match opened {
        Ok(()) => out.write_all(b"ok"),
        Err((error, _)) => write_refusal(out, error),
    }
}

/// Writes the bytes of a proof that was closed, if one was open, or the refusal. Of errors the same holds as of
/// `write_answer`.
fn write_closed<W: Write, A: Allocator + Copy>(
    out: &mut W,
    closed: &Result<Option<MemoryTarget<A>>, (SolverError, MemoryTarget<A>)>,
) -> io::Result<()>
    ensures { OnOk result (Appends (W.contents out.old) (W.contents out.new) (closed_text closed.now)) }
{
    match closed {
        Ok(Some(target)) => write_bytes(out, target.bytes()),
        Ok(None) => out.write_all(b"ok none"),
        Err((error, _)) => write_refusal(out, error),
    }
}

/// Writes the bytes of a proof. Of errors the same holds as of `write_answer`.
fn write_bytes<W: Write>(out: &mut W, bytes: &[u8]) -> io::Result<()>
    ensures { OnOk result (Appends (W.contents out.old) (W.contents out.new) (bytes_text bytes.now)) }
{
    if bytes.is_empty() {
        return out.write_all(b"ok");
    }
    out.write_all(b"ok ")?;
    write_hex(out, bytes)
}

/// Writes each byte in two digits. Of errors the same holds as of `write_answer`.
fn write_hex<W: Write>(out: &mut W, bytes: &[u8]) -> io::Result<()>
    ensures { OnOk result (Appends (W.contents out.old) (W.contents out.new) (hex_text bytes.now)) }
{
    for byte in bytes {
        out.write_all(&[hex_digit(*byte / 16), hex_digit(*byte % 16)])?;
    }
    Ok(())
}

// A digit of hexadecimal in lower case.
fn hex_digit(digit: u8) -> u8
    requires { digit < 16 }
    ensures { result ≡ hex_digit digit }
{
    if digit < 10 {
        b'0' + digit
    } else {
        b'a' + (digit - 10)
    }
}

/// Writes a model or a core, if there is one. Of errors the same holds as of `write_answer`.
fn write_list<W: Write, A: Allocator + Copy>(
    out: &mut W,
    list: &Result<Option<Vec<Lit, A>>, AllocError>,
) -> io::Result<()>
    ensures { OnOk result (Appends (W.contents out.old) (W.contents out.new) (list_text (returned_list list.now))) }
{
    match list {
        Ok(Some(literals)) => {
            out.write_all(b"ok")?;
            write_literals(out, literals)
        }
        Ok(None) => out.write_all(b"ok none"),
        Err(_) => write_refusal(out, &SolverError::OutOfMemory),
    }
}

/// Writes the names that came back, or the refusal. Of errors the same holds as of `write_answer`.
fn write_names<W: Write, A: Allocator + Copy>(
    out: &mut W,
    names: &Result<Vec<Var, A>, SolverError>,
) -> io::Result<()>
    ensures { OnOk result
        (Appends (W.contents out.old) (W.contents out.new) (names_text (returned_variables names.now))) }
{
    match names {
        Ok(variables) => {
            out.write_all(b"ok")?;
            write_variables(out, variables)
        }
        Err(error) => write_refusal(out, error),
    }
}

/// Writes `ok` or the refusal. Of errors the same holds as of `write_answer`.
fn write_done<W: Write>(out: &mut W, done: &Result<(), SolverError>) -> io::Result<()>
    ensures { OnOk result (Appends (W.contents out.old) (W.contents out.new) (done_text done.now)) }
{
    match done {
        Ok(()) => out.write_all(b"ok"),
        Err(error) => write_refusal(out, error),
    }
}

/// Writes a refusal by its number. Of errors the same holds as of `write_answer`.
fn write_refusal<W: Write>(out: &mut W, error: &SolverError) -> io::Result<()>
    ensures { OnOk result (Appends (W.contents out.old) (W.contents out.new) (refusal_text error.now)) }
{
    out.write_all(b"err ")?;
    out.write_all(Buffer::new().format(error.number()).as_bytes())
}

/// Writes the literals' DIMACS numbers, each after a space, and then ` 0`. Of errors the same holds as of
/// `write_answer`.
fn write_literals<W: Write>(out: &mut W, literals: &[Lit]) -> io::Result<()>
    ensures { OnOk result (Appends (W.contents out.old) (W.contents out.new) (literals_text literals.now)) }
{
    let mut buffer = Buffer::new();
    for literal in literals {
        out.write_all(b" ")?;
        out.write_all(buffer.format(literal.to_dimacs()).as_bytes())?;
    }
    out.write_all(b" 0")
}

/// Writes the variables' DIMACS numbers, each after a space, and then ` 0`. Of errors the same holds as of
/// `write_answer`.
fn write_variables<W: Write>(out: &mut W, variables: &[Var]) -> io::Result<()>
    ensures { OnOk result (Appends (W.contents out.old) (W.contents out.new) (variables_text variables.now)) }
{
    let mut buffer = Buffer::new();
    for variable in variables {
        out.write_all(b" ")?;
        out.write_all(buffer.format(variable.to_dimacs()).as_bytes())?;
    }
    out.write_all(b" 0")
}
