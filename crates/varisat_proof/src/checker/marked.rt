//! What marked lines log beside the clauses that are present.
ghost use Rattle.std.specs.Prelude.{◌≡◌, List, ◌∷◌, [], ◌++◌, length, ◌↔◌, IsTrue, OnOk, IfOk};
ghost use Rattle.varisat_theory.specs.promises.Membership.{◌⊆◌, SameSet};
ghost use Rattle.varisat_formula.specs.promises.Formulas.{with_one_more};
ghost use Rattle.varisat_proof.specs.promises.Calls.{core_lists};
ghost use Rattle.varisat_proof.specs.promises.Marked.{nothing_logged};

use crate::checker::error::CheckVerdict;
use std::alloc::{AllocError, Allocator};
use std::marker::Model;
use varisat_formula::formula::CnfFormula;
use varisat_literals::Lit;
use varisat_present::Known;
use varisat_present::sets::{are_marked, mark_all};

/// What a marked proof is, and what its lines gave.
#[derive(Drop)]
pub struct MarkedReport<A: Allocator + Copy> {
    /// Whether the proof refutes.
    pub verdict: CheckVerdict,
    /// The clauses that were given.
    pub inputs: CnfFormula<A>,
    /// The cores, each with the number of clauses that were given before it.
    pub cores: Vec<(usize, Vec<Lit, A>), A>,
}

/// What the lines of a proof logged so far.
#[derive(Drop)]
pub struct ReportBuilder<A: Allocator + Copy> {
    alloc: A,
    assumed: Vec<Lit, A>,
    /// The literals of `assumed`, each once, so that one is found without a look at all.
    marks: Known<A>,
    inputs: CnfFormula<A>,
    cores: Vec<(usize, Vec<Lit, A>), A>,
}

impl<A: Allocator + Copy> Model for ReportBuilder<A> {
    ghost use Rattle.varisat_theory.specs.promises.Membership.{SameSet};
    ghost use Rattle.varisat_proof.specs.promises.Marked.{MarkedLog};
    ghost use Rattle.varisat_proof.specs.promises.Calls.{core_lists};

    ghost Value = { MarkedLog };

    ghost view = { λ j. record { assumed = j.assumed.items; inputs = j.inputs; cores = core_lists j.cores.items } };

    ghost invariant = { λ j. SameSet j.marks j.assumed.items };
}

/// Lists the literals and marks them, where none is listed or marked.
fn list_all<A: Allocator + Copy>(
    assumed: &mut Vec<Lit, A>,
    marks: &mut Known<A>,
    literals: &[Lit],
) -> Result<(), AllocError>
    requires assumed { assumed.old.items ≡ [] }
    requires marks { marks.old ≡ [] }
    ensures listed { OnOk result (assumed.new.items ≡ literals.now) }
    ensures marked { OnOk result (SameSet marks.new literals.now) }
{
    assumed.extend_from_slice(literals)?;
    mark_all(marks, literals)?;
    Ok(())
}

impl<A: Allocator + Copy> ReportBuilder<A> {
    /// Nothing was logged. It takes no memory.
    pub fn new_in(alloc: A) -> ReportBuilder<A>
        ensures { result ≡ nothing_logged }
    {
        ReportBuilder {
            alloc,
            assumed: Vec::new(alloc),
            marks: Known::new_in(alloc),
            inputs: CnfFormula::new_in(alloc),
            cores: Vec::new(alloc),
        }
    }

    /// Whether all of the literals are assumed.
    pub fn assumes(&self, literals: &[Lit]) -> bool
        ensures { IsTrue result ↔ (literals.now ⊆ self.now.assumed) }
    {
        are_marked(&self.marks, literals)
    }

    /// A clause is given.
    pub fn push_input(&mut self, clause: &[Lit]) -> Result<(), AllocError>
        ensures { OnOk result (self.new ≡ record self.old { inputs = with_one_more self.old.inputs clause.now }) }
    {
        match self.inputs.add_clause(clause) {
            Ok(()) => Ok(()),
            Err(_) => Err(AllocError),
        }
    }

    /// The literals are the list of assumptions from here on.
    pub fn assume(&mut self, literals: &[Lit]) -> Result<(), AllocError>
        ensures { OnOk result (self.new ≡ record self.old { assumed = literals.now }) }
    {
        self.assumed.clear();
        self.marks.cut(0);
        match list_all(&mut self.assumed, &mut self.marks, literals) {
            Ok(()) => Ok(()),
            Err(error) => {
                self.assumed.clear();
                self.marks.cut(0);
                Err(error)
            }
        }
    }

    /// A core is reported.
    pub fn push_core(&mut self, literals: &[Lit]) -> Result<(), AllocError>
        ensures { OnOk result
            (self.new
            ≡ record self.old { cores = self.old.cores ++ (length self.old.inputs.clauses, literals.now) ∷ [] }) }
    {
        let copy = Vec::from_slice(self.alloc, literals)?;
        self.cores.push((self.inputs.len(), copy))?;
        Ok(())
    }

    /// The report of what was logged.
    pub fn report(self, verdict: CheckVerdict) -> MarkedReport<A>
        ensures verdict { result.verdict ≡ verdict }
        ensures inputs { result.inputs ≡ self.inputs }
        ensures cores { core_lists result.cores.items ≡ self.cores }
    {
        MarkedReport {
            verdict,
            inputs: self.inputs,
            cores: self.cores,
        }
    }
}
