//! What a DIMACS text gave so far.
ghost use Rattle.std.specs.Prelude.{◌≡◌, ℕ, IsTrue, false, List, [], ◌∷◌, ◌++◌, ◌+◌, ◌/◌, ◌<◌, ◌≤◌, ◌^◌, max, Option, None, Some, OnOk, OnErr};
ghost use Rattle.varisat_formula.specs.promises.Dimacs.{Reading, nothing, failed, is_one_too_many, is_above, next, after_token, after_header, is_started, is_short, at_end, FitsLimit};
ghost use Rattle.varisat_literals.specs.promises.Numbers.{variable_limit};
ghost use Rattle.varisat_formula.specs.declared.dimacs.token.Meaning.TheVariants.{End};
ghost use Rattle.varisat_formula.specs.inside.Machine.{word_says, a_number};
ghost use Rattle.varisat_formula.specs.promises.Rest.{Allows, KeepsToken};

use crate::dimacs::error::{DimacsError, DimacsErrorKind};
use crate::dimacs::header::{Heading, Sizes};
use crate::dimacs::token::{LiteralToken, Meaning};
use crate::formula::{CnfFormula, ExtendFormula, Lit};
use std::alloc::{AllocError, Allocator};
use std::marker::Model;
use std::mem;
use varisat_literals::VARIABLE_LIMIT;

/// What a text gave so far: the clauses that ended since they were last taken, the open clause, how many clauses ended,
/// what the header says, and the first fault. The formula's count of variables is the larger of the header's and the
/// highest number of a literal.
#[derive(Drop)]
pub struct Reader<A: Allocator + Copy> {
    alloc: A,
    formula: CnfFormula<A>,
    begun: Vec<Lit, A>,
    count: u64,
    header: Option<Sizes>,
    fault: Option<DimacsError>,
}

impl<A: Allocator + Copy> Model for Reader<A> {
    ghost use Rattle.std.specs.Prelude.{◌≤◌};
    ghost use Rattle.varisat_formula.specs.promises.Formulas.{variables_of};
    ghost use Rattle.varisat_formula.specs.promises.Dimacs.{Reading};

    ghost Value = { Reading };

    ghost view = { λ r. record {
      clauses = r.formula.clauses;
      begun = r.begun.items;
      count = r.count;
      header = r.header;
      highest = r.formula.var_count;
      fault = r.fault;
    } };

    ghost invariant = { λ r. variables_of r.begun.items ≤ r.formula.var_count };
}

impl<A: Allocator + Copy> Reader<A> {
    /// Nothing was read.
    pub fn new_in(alloc: A) -> Reader<A>
        ensures { result ≡ nothing }
    {
        Reader {
            alloc,
            formula: CnfFormula::new_in(alloc),
            begun: Vec::new(alloc),
            count: 0,
            header: None,
            fault: None,
        }
    }

    /// The first fault.
    pub fn fault(&self) -> Option<DimacsError>
        ensures { result ≡ self.now.fault }
    {
        self.fault
    }

    /// How many clauses ended.
    pub fn clause_count(&self) -> u64
        ensures { result ≡ self.now.count }
    {
        self.count
    }

    /// The larger of the header's count of variables and the highest number of a literal.
    pub fn var_count(&self) -> usize
        ensures { result ≡ self.now.highest }
    {
        self.formula.var_count()
    }

    /// Keeps a fault: only its line and kind, so that a text with a long faulty token costs no memory.
    pub fn fail(&mut self, line: u64, kind: DimacsErrorKind)
        ensures { self.new ≡ failed self.old line kind }
    {
        self.fault = Some(DimacsError { line, kind });
    }

    fn is_full(&self) -> bool
        ensures { result ≡ is_one_too_many self.now.header self.now.begun self.now.count }
    {
        match self.header {
            None => false,
            Some(sizes) => self.begun.is_empty() && sizes.clauses <= self.count,
        }
    }

    fn is_above(&self, number: u64) -> bool
        ensures { result ≡ is_above self.now.header number }
    {
        match self.header {
            None => false,
            Some(sizes) => sizes.vars < number,
        }
    }

    /// Ends the clause, unless memory runs out: then nothing changes.
    // Most tokens end no clause, and are read in registers.
    #[inline(never)]
    fn end_clause(&mut self) -> Result<(), AllocError>
        ensures ok { OnOk result
            (self.new
            ≡ record self.old {
              clauses = self.old.clauses ++ self.old.begun ∷ [];
              begun = [];
              count =
                  next self.old.count;
            }) }
        ensures refused { OnErr result (self.new ≡ self.old) }
    {
        self.formula.add_counted_clause(self.begun.as_slice())?;
        self.begun.clear();
        self.count = self.count.saturating_add(1);
        Ok(())
    }

    /// Ends the clause, if that is no fault and there is room for it. Else nothing changes.
    pub fn end_with_room(&mut self) -> bool
        ensures ended { IsTrue result → (line : ℕ) → self.new ≡ after_token self.old line End }
        ensures same { result ≡ false → self.new ≡ self.old }
        ensures fine { self.new.fault ≡ self.old.fault }
    {
        !self.is_full() && self.formula.has_room(self.begun.len()) && self.end_clause().is_ok()
    }

    /// Takes a literal into the open clause, unless memory runs out: then nothing changes.
    fn literal(&mut self, literal: Lit) -> Result<(), AllocError>
        ensures ok { OnOk result
            (self.new
            ≡ record self.old {
              begun = self.old.begun ++ literal ∷ [];
              highest =
                  max self.old.highest (literal / 2 + 1);
            }) }
        ensures refused { OnErr result (self.new ≡ self.old) }
    {
        match self.begun.push(literal) {
            Ok(()) => {
                self.formula.set_var_count(literal.index() + 1);
                Ok(())
            }
            Err(_) => Err(AllocError),
        }
    }

    /// Up to which number a literal is no fault here: 0 where none may come.
    pub fn highest_allowed(&self) -> u64
        ensures { Allows self.now result }
    {
        if self.is_full() {
            return 0;
        }
        match self.header {
            None => VARIABLE_LIMIT as u64,
            Some(sizes) => sizes.vars.min(VARIABLE_LIMIT as u64),
        }
    }

    /// Takes a literal, if its number is allowed and there is room for it. Else nothing changes.
    #[inline(always)]
    pub fn literal_with_room(&mut self, allowed: u64, token: LiteralToken) -> bool
        requires allows { Allows self.old allowed }
        requires some { 0 < token.number }
        ensures taken { IsTrue result → (line : ℕ) →
            self.new ≡ after_token self.old line (word_says (a_number token.minus token.number)) }
        ensures same { result ≡ false → self.new ≡ self.old }
        ensures fine { self.new.fault ≡ self.old.fault }
        ensures allows { Allows self.new allowed }
    {
        if token.number > allowed || self.begun.len() >= self.begun.capacity() {
            return false;
        }
        self.begun
            .push_reserved(Lit::from_index((token.number - 1) as usize, !token.minus));
        self.formula.set_var_count(token.number as usize);
        true
    }

    /// Reads a token, unless memory runs out: then nothing changes.
    pub fn token(&mut self, line: u64, meaning: Meaning) -> Result<(), AllocError>
        ensures ok { OnOk result (self.new ≡ after_token self.old line meaning) }
        ensures refused { OnErr result (self.new ≡ self.old) }
        ensures wants { OnErr result (KeepsToken self.old (after_token self.old line meaning)) }
    {
        match meaning {
            Meaning::Wrong => self.fail(line, DimacsErrorKind::UnexpectedInput),
            Meaning::TooLarge => self.fail(line, DimacsErrorKind::LiteralTooLarge),
            Meaning::End => {
                if self.is_full() {
                    self.fail(line, DimacsErrorKind::ClauseCount);
                } else {
                    self.end_clause()?;
                }
            }
            Meaning::Literal(literal) => {
                if self.is_full() {
                    self.fail(line, DimacsErrorKind::ClauseCount);
                } else if self.is_above(literal.index() as u64 + 1) {
                    self.fail(line, DimacsErrorKind::VarCount);
                } else {
                    self.literal(literal)?;
                }
            }
        }
        Ok(())
    }

    fn is_started(&self) -> bool
        ensures { result ≡ is_started self.now.header self.now.count self.now.begun }
    {
        self.header.is_some() || self.count > 0 || !self.begun.is_empty()
    }

    fn keep_header(&mut self, sizes: Sizes)
        requires { sizes.vars ≤ variable_limit }
        ensures { self.new ≡ record self.old { header = Some sizes; highest = max self.old.highest sizes.vars } }
    {
        self.header = Some(sizes);
        self.formula.set_var_count(sizes.vars as usize);
    }

    /// Reads a header.
    pub fn header(&mut self, line: u64, heading: Heading)
        requires { FitsLimit heading }
        ensures { self.new ≡ after_header self.old line heading }
    {
        match heading {
            Heading::Malformed => self.fail(line, DimacsErrorKind::InvalidHeader),
            Heading::Oversized => {
                if self.is_started() {
                    self.fail(line, DimacsErrorKind::InvalidHeader);
                } else {
                    self.fail(line, DimacsErrorKind::LiteralTooLarge);
                }
            }
            Heading::Sized(sizes) => {
                if self.is_started() {
                    self.fail(line, DimacsErrorKind::InvalidHeader);
                } else {
                    self.keep_header(sizes);
                }
            }
        }
    }

    fn is_short(&self) -> bool
        ensures { result ≡ is_short self.now.header self.now.count }
    {
        match self.header {
            None => false,
            Some(sizes) => self.count < sizes.clauses,
        }
    }

    /// The end of the text.
    pub fn end(&mut self, line: u64)
        ensures { self.new ≡ at_end self.old line }
    {
        if !self.begun.is_empty() {
            self.fail(line, DimacsErrorKind::UnterminatedClause);
        } else if self.is_short() {
            self.fail(line, DimacsErrorKind::ClauseCount);
        }
    }

    /// Takes the clauses that ended. The formula has the count of variables so far.
    pub fn take(&mut self) -> CnfFormula<A>
        ensures taken { result ≡ record { var_count = self.old.highest; clauses = self.old.clauses } }
        ensures frame { self.new ≡ record self.old { clauses = [] } }
    {
        let mut formula = CnfFormula::new_in(self.alloc);
        formula.set_var_count(self.formula.var_count());
        mem::replace(&mut self.formula, formula)
    }
}
