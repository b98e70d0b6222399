//! Clauses that go on growing, of which a large batch is simplified at once or in parts.
ghost use Rattle.std.specs.Prelude.{◌≡◌, IfOk, OnOk};
ghost use Rattle.varisat_rules.specs.promises.Stacks.{extended};
ghost use Rattle.varisat_incremental.specs.Batches.{no_batches, KeepsBegun, TakesPart, Closes, TakesAll};

use crate::reconstruction::{Batch, Reconstruction, append};
use std::alloc::Allocator;
use std::marker::Model;
use std::mem::replace;
use varisat_formula::formula::cnf::{CnfFormula, FormulaError};
use varisat_literals::Lit;

/// What was eliminated, and the batch that is being simplified in parts, if one is.
#[derive(Drop)]
pub struct Batches<A: Allocator + Copy> {
    alloc: A,
    reconstruction: Reconstruction<A>,
    open_batch: Option<Batch<A>>,
    // The clauses that are to be returned of the batches that ended since some were returned.
    ended: CnfFormula<A>,
}

impl<A: Allocator + Copy> Model for Batches<A> {
    ghost use Rattle.varisat_incremental.specs.Batches as batches;

    ghost Value = { batches.Batches };

    ghost view = { λ b. record {
      reconstruction = b.reconstruction;
      open_batch = b.open_batch;
      ended = b.ended.clauses;
    } };
}

impl<A: Allocator + Copy> Batches<A> {
    /// Nothing was taken yet. It takes no memory.
    pub fn new_in(alloc: A) -> Batches<A>
        ensures { result ≡ no_batches }
    {
        Batches {
            alloc,
            reconstruction: Reconstruction::new_in(alloc),
            open_batch: None,
            ended: CnfFormula::new_in(alloc),
        }
    }

    /// Sets how many literals a batch has at least that is simplified. The greatest number simplifies none.
    pub fn simplify_from(&mut self, literals: usize)
        ensures { self.new ≡ self.old }
    {
        self.reconstruction.simplify_from(literals);
    }

    /// Hints that later calls name the literal's variable. No answer depends on it.
    pub fn freeze(&mut self, lit: Lit)
        ensures { self.new ≡ self.old }
    {
        self.reconstruction.freeze(lit);
    }

    /// Takes the hint back.
    pub fn melt(&mut self, lit: Lit)
        ensures { self.new ≡ self.old }
    {
        self.reconstruction.melt(lit);
    }

    /// How many variables were eliminated so far.
    pub fn eliminations(&self) -> u64 {
        self.reconstruction.eliminations()
    }

    /// How many variables were restored so far.
    pub fn restorations(&self) -> u64 {
        self.reconstruction.restorations()
    }

    /// Ends the open batch, if one is: what was not done yet stays as it is.
    fn close(&mut self) -> Result<(), FormulaError>
        ensures { OnOk result (Closes self.old self.new) }
    {
        let Some(batch) = replace(&mut self.open_batch, None) else {
            return Ok(());
        };
        self.reconstruction.end(batch, &mut self.ended)?;
        Ok(())
    }

    /// Does a part of the open batch, or ends it if none is left.
    fn go_on_with_batch(&mut self) -> Result<(), FormulaError>
        ensures { OnOk result (KeepsBegun self.old self.new) }
    {
        let Some(mut batch) = replace(&mut self.open_batch, None) else {
            return Ok(());
        };
        if batch.go_on()? {
            self.open_batch = Some(batch);
            return Ok(());
        }
        self.reconstruction.end(batch, &mut self.ended)?;
        Ok(())
    }

    /// Does a part of what taking the pending clauses comes to: of the open batch, as whose last part it ends, or else of
    /// these, which become the open batch if they are worth it. The literals are those that are to be assumed. Returns
    /// whether it did. After out of memory nothing is known of the clauses.
    pub fn go_on(
        &mut self,
        pending: &mut CnfFormula<A>,
        assumed: &[Lit],
    ) -> Result<bool, FormulaError>
        ensures { OnOk result (TakesPart pending.old.clauses pending.new.clauses self.old self.new) }
    {
        if self.open_batch.is_some() {
            self.go_on_with_batch()?;
            return Ok(true);
        }
        if !self.reconstruction.is_batch(pending) {
            return Ok(false);
        }
        let formula = replace(pending, CnfFormula::new_in(self.alloc));
        let batch = self.reconstruction.begin(formula, assumed)?;
        self.open_batch = Some(batch);
        Ok(true)
    }

    /// Takes more clauses, and literals that are to be assumed. An open batch ends: what was not done yet stays as it is.
    /// Returns the clauses that a solver is to be given: those of eliminated variables that are named again, and what is
    /// left of the others.
    pub fn take(
        &mut self,
        formula: CnfFormula<A>,
        assumed: &[Lit],
    ) -> Result<CnfFormula<A>, FormulaError>
        ensures { IfOk result (λ f. TakesAll formula.clauses assumed.now f.clauses self.old self.new) }
    {
        self.close()?;
        let given = self.reconstruction.take(formula, assumed)?;
        if self.ended.is_empty() {
            return Ok(given);
        }
        let mut all = replace(&mut self.ended, CnfFormula::new_in(self.alloc));
        append(&mut all, &given)?;
        Ok(all)
    }

    /// Makes of values that satisfy the clauses that were returned values that satisfy those that were taken, if no batch
    /// is open and all was returned of those that ended.
    pub fn extend_model(&self, values: &mut [bool])
        ensures { values.new ≡ extended self.now.reconstruction.stack values.old }
    {
        self.reconstruction.extend_model(values);
    }
}
