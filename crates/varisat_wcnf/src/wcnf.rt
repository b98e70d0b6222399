//! Problems as texts in the format WCNF, new and old.
ghost use Rattle.std.specs.Prelude.{◌≡◌, ◌≤◌, ◌<◌, ◌^◌, ◌∷◌, [], ◌⊎◌, Ok, Err, List, ℕ, length, slice_index, false, OnOk, IfOk, IfErr, IfSome, IfNone};
ghost use Rattle.std.specs.List.{slice_split};
ghost use Rattle.varisat_formula.specs.promises.Dimacs.{is_line_feed, is_blank, meaning, number};
ghost use Rattle.varisat_maxsat.specs.promises.Problems.{with_hard, with_soft};
ghost use Rattle.varisat_wcnf.specs.promises.Texts.{WcnfReading, line_words, below_limit, clause_of, heading_by, top_of, heading_of, after_heading, after_clause, after_weight, after_line, is_hard, wcnf};
ghost use Rattle.varisat_wcnf.specs.declared.wcnf.WcnfFault.TheVariants.{OutOfMemory, End};
ghost use Rattle.varisat_wcnf.specs.inside.Faults.{fault_of_formula, ReadsAs};

use std::alloc::{AllocFailed, Allocator};
use std::marker::Model;
use thiserror::Error;
use varisat_formula::dimacs::token::{Digits, Meaning, Word, is_blank_byte};
use varisat_formula::formula::FormulaError;
use varisat_literals::{Lit, VARIABLE_LIMIT};
use varisat_maxsat::problem::Problem;

/// What is wrong in a line.
#[derive(Clone, Copy, Debug, PartialEq, Eq, Error)]
pub enum WcnfFault {
    /// Memory ran out.
    #[error("out of memory")]
    OutOfMemory,
    /// A line begins neither with `h`, nor with a weight, nor with `p` or `c`.
    #[error("expected h, a weight, p wcnf or c")]
    Start,
    /// The header is not `p wcnf VARIABLES CLAUSES`, maybe with a TOP, or another one or a clause came before it.
    #[error("expected p wcnf VARIABLES CLAUSES TOP, once and in front of the clauses")]
    Header,
    /// A word of a clause is neither 0 nor the number of a literal.
    #[error("expected a literal")]
    Literal,
    /// A variable is past the limit of 2^28.
    #[error("more than 268435456 variables")]
    VariableLimit,
    /// A clause has no 0 at its end, or something behind it.
    #[error("expected 0 at the end of the line")]
    End,
}

impl<T: Drop> From<AllocFailed<T>> for WcnfFault {
    ghost from_gives = { λ _ fault. fault ≡ OutOfMemory };

    fn from(_error: AllocFailed<T>) -> WcnfFault {
        WcnfFault::OutOfMemory
    }
}

impl From<FormulaError> for WcnfFault {
    ghost from_gives = { λ error fault. fault ≡ fault_of_formula error };

    fn from(error: FormulaError) -> WcnfFault {
        match error {
            FormulaError::Full => WcnfFault::VariableLimit,
            FormulaError::Memory => WcnfFault::OutOfMemory,
        }
    }
}

/// A fault, and the number of its line.
#[derive(Clone, Copy, Debug, PartialEq, Eq, Error)]
#[error("line {line}: {fault}")]
pub struct WcnfError {
    pub line: u64,
    pub fault: WcnfFault,
}

/// What a header names: how many variables there are, and the weight from which on a clause must be satisfied.
#[derive(Clone, Copy)]
pub struct WcnfHeading {
    pub variables: u64,
    pub top: Option<u64>,
}

/// The problem as far as it was read, whether a header or a clause came, and the weight from which on a clause must be
/// satisfied.
#[derive(Drop)]
struct Reader<A: Allocator + Copy> {
    problem: Problem<A>,
    has_begun: bool,
    top: Option<u64>,
}

impl<A: Allocator + Copy> Model for Reader<A> {
    ghost use Rattle.varisat_wcnf.specs.promises.Texts as texts;

    ghost Value = { texts.WcnfReading };

    ghost view = { λ r. record { problem = r.problem; begun = r.has_begun; top = r.top } };
}

/// The first line, and what stands behind its end, if it ends.
fn split_line(text: &[u8]) -> (&[u8], Option<&[u8]>)
    ensures last { IfNone result.1 (slice_split is_line_feed text.now ≡ result.0.now ∷ []) }
    ensures more { IfSome result.1
        (λ rest. slice_split is_line_feed text.now ≡ result.0.now ∷ slice_split is_line_feed rest.now) }
    ensures shorter { IfSome result.1 (λ rest. length rest.now < length text.now) }
{
    match text.iter().position(|byte| *byte == b'\n') {
        Some(end) => (&text[..end], Some(&text[end + 1..])),
        None => (text, None),
    }
}

/// What begins with the first word.
fn behind_blanks(line: &[u8]) -> Option<&[u8]>
    ensures none { IfNone result (line_words line.now ≡ []) }
    ensures same { IfSome result (λ rest. line_words rest.now ≡ line_words line.now) }
    ensures some { IfSome result (λ rest. 0 < length rest.now) }
    ensures within { IfSome result (λ rest. length rest.now ≤ length line.now) }
    ensures begun { IfSome result (λ rest. is_blank (slice_index rest.now 0) ≡ false) }
{
    let start = line.iter().position(|byte| !is_blank_byte(*byte))?;
    Some(&line[start..])
}

/// The first word of a line, and what stands behind it.
fn split_word(line: &[u8]) -> Option<(&[u8], &[u8])>
    ensures none { IfNone result (line_words line.now ≡ []) }
    ensures some { IfSome result (λ r. line_words line.now ≡ r.0.now ∷ line_words r.1.now) }
    ensures shorter { IfSome result (λ r. length r.1.now < length line.now) }
    ensures letters { IfSome result (λ r. 0 < length r.0.now) }
{
    let text = behind_blanks(line)?;
    match text.iter().position(|byte| is_blank_byte(*byte)) {
        Some(end) => Some((&text[..end], &text[end + 1..])),
        None => Some((text, &line[..0])),
    }
}

/// What a word of a clause means.
fn token_of(word: &[u8]) -> Meaning
    ensures { result ≡ meaning word.now }
{
    let mut read = Word::new();
    for byte in word {
        read = read.after(*byte);
    }
    read.meaning()
}

/// The number below 2^64 that the word writes.
fn number_of(word: &[u8]) -> Option<u64>
    ensures { result ≡ below_limit (number word.now) }
{
    let mut digits = Digits::Empty;
    for byte in word {
        digits = digits.after(*byte);
    }
    match digits {
        Digits::Number(number) => Some(number),
        Digits::Empty | Digits::Large | Digits::NoNumber => None,
    }
}

/// Refuses a line that goes on.
fn ensure_end(line: &[u8]) -> Result<(), WcnfFault>
    ensures ok { OnOk result (line_words line.now ≡ []) }
    ensures err { IfErr result
        (λ e. (e ≡ End) × ((w : List ℕ) × (ws : List (List ℕ)) × (line_words line.now ≡ w ∷ ws))) }
{
    match split_word(line) {
        Some(_) => Err(WcnfFault::End),
        None => Ok(()),
    }
}

/// Reads the literals of a clause, up to the 0 that ends it and the line.
fn parse_clause<A: Allocator + Copy>(line: &[u8], clause: &mut Vec<Lit, A>) -> Result<(), WcnfFault>
    ensures { ReadsAs (clause_of (line_words line.now)) result clause.new.items }
{
    clause.clear();
    let mut rest = line;
    'words: while let Some((word, others)) = split_word(rest) {
        match token_of(word) {
            Meaning::End => {
                ensure_end(others)?;
                return Ok(());
            }
            Meaning::Literal(literal) => clause.push(literal)?,
            Meaning::TooLarge => return Err(WcnfFault::VariableLimit),
            Meaning::Wrong => return Err(WcnfFault::Literal),
        }
        rest = others;
    }
    Err(WcnfFault::End)
}

/// The header of these numbers.
fn heading_by(
    variables: Option<u64>,
    clauses: Option<u64>,
    top: Option<Option<u64>>,
) -> Result<WcnfHeading, WcnfFault>
    ensures heading { result ≡ heading_by variables clauses top }
    ensures small { IfOk result (λ h. h.variables ≤ 2 ^ 28) }
{
    let variables = variables.ok_or(WcnfFault::Header)?;
    clauses.ok_or(WcnfFault::Header)?;
    let top = top.ok_or(WcnfFault::Header)?;
    if variables > VARIABLE_LIMIT as u64 {
        return Err(WcnfFault::VariableLimit);
    }
    Ok(WcnfHeading { variables, top })
}

/// The weight from which on a clause must be satisfied, which may be absent.
fn top_of(line: &[u8]) -> Option<Option<u64>>
    ensures { result ≡ top_of (line_words line.now) }
{
    let Some((word, rest)) = split_word(line) else {
        return Some(None);
    };
    if split_word(rest).is_some() {
        return None;
    }
    let top = number_of(word)?;
    Some(Some(top))
}

/// Reads what follows the `p` of a header.
fn parse_header(line: &[u8]) -> Result<WcnfHeading, WcnfFault>
    ensures heading { result ≡ heading_of (line_words line.now) }
    ensures small { IfOk result (λ h. h.variables ≤ 2 ^ 28) }
{
    let (name, rest) = split_word(line).ok_or(WcnfFault::Header)?;
    let (variables, rest) = split_word(rest).ok_or(WcnfFault::Header)?;
    let (clauses, rest) = split_word(rest).ok_or(WcnfFault::Header)?;
    if name != b"wcnf".as_slice() {
        return Err(WcnfFault::Header);
    }
    heading_by(number_of(variables), number_of(clauses), top_of(rest))
}

impl<A: Allocator + Copy> Reader<A> {
    /// Takes a header.
    fn take_header(&mut self, line: &[u8]) -> Result<(), WcnfFault>
        ensures ok { OnOk result (after_heading self.old (heading_of (line_words line.now)) ≡ Ok self.new) }
        ensures err { IfErr result (λ e. after_heading self.old (heading_of (line_words line.now)) ≡ Err e) }
    {
        let heading = parse_header(line)?;
        if self.has_begun {
            return Err(WcnfFault::Header);
        }
        self.has_begun = true;
        self.problem.set_var_count(heading.variables as usize);
        self.top = heading.top;
        Ok(())
    }

    /// Takes a hard clause.
    fn take_hard(&mut self, line: &[u8], clause: &mut Vec<Lit, A>) -> Result<(), WcnfFault>
        ensures { ReadsAs (after_clause with_hard self.old (clause_of (line_words line.now))) result self.new }
    {
        parse_clause(line, clause)?;
        self.problem.add_hard(clause)?;
        self.has_begun = true;
        Ok(())
    }

    /// Takes a soft clause.
    fn take_soft(
        &mut self,
        weight: u64,
        line: &[u8],
        clause: &mut Vec<Lit, A>,
    ) -> Result<(), WcnfFault>
        ensures { ReadsAs (after_clause (with_soft weight) self.old (clause_of (line_words line.now))) result self.new }
    {
        parse_clause(line, clause)?;
        self.problem.add_soft(weight, clause)?;
        self.has_begun = true;
        Ok(())
    }

    /// Takes a clause with a weight.
    fn take_weighted(
        &mut self,
        weight: Option<u64>,
        line: &[u8],
        clause: &mut Vec<Lit, A>,
    ) -> Result<(), WcnfFault>
        ensures { ReadsAs (after_weight weight self.old (clause_of (line_words line.now))) result self.new }
    {
        let Some(weight) = weight else {
            return Err(WcnfFault::Start);
        };
        if is_hard(self.top, weight) {
            self.take_hard(line, clause)?;
        } else {
            self.take_soft(weight, line, clause)?;
        }
        Ok(())
    }

    /// Takes a line.
    fn take_line(&mut self, line: &[u8], clause: &mut Vec<Lit, A>) -> Result<(), WcnfFault>
        ensures { ReadsAs (after_line self.old (line_words line.now)) result self.new }
    {
        let Some((word, rest)) = split_word(line) else {
            return Ok(());
        };
        if word[0] == b'c' {
            return Ok(());
        }
        if word == b"p".as_slice() {
            self.take_header(rest)?;
            return Ok(());
        }
        if word == b"h".as_slice() {
            self.take_hard(rest, clause)?;
            return Ok(());
        }
        self.take_weighted(number_of(word), rest, clause)?;
        Ok(())
    }
}

/// Whether a clause of the weight must be satisfied.
fn is_hard(top: Option<u64>, weight: u64) -> bool
    ensures { result ≡ is_hard top weight }
{
    match top {
        Some(least) => weight >= least,
        None => false,
    }
}

/// The problem of a text.
pub fn parse<A: Allocator + Copy>(text: &[u8], alloc: A) -> Result<Problem<A>, WcnfError>
    ensures ok { IfOk result (λ p. (r : WcnfReading) × (wcnf text.now ≡ Ok r) × (p ≡ r.problem)) }
    ensures err { IfErr result (λ e. (e.fault ≡ OutOfMemory) ⊎ (wcnf text.now ≡ Err e)) }
{
    let mut reader = Reader {
        problem: Problem::new_in(alloc),
        has_begun: false,
        top: None,
    };
    let mut clause = Vec::new(alloc);
    let mut rest = Some(text);
    let mut number: u64 = 0;
    'lines: while let Some(behind) = rest {
        let (line, others) = split_line(behind);
        number += 1;
        if let Err(fault) = reader.take_line(line, &mut clause) {
            return Err(WcnfError {
                line: number,
                fault,
            });
        }
        rest = others;
    }
    Ok(reader.problem)
}
