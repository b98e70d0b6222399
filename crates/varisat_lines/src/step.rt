//! The steps of a solver's proof.
ghost use Rattle.std.specs.Prelude.{IfOk};
ghost use Rattle.varisat_lines.specs.inside.Mapping.{MapsLits, MapsStep};

use std::alloc::{AllocError, Allocator};
use varisat_literals::{Lit, Var};
pub use varisat_steps::ProofStep;

/// Renames the variables of steps. It holds the literals of the step that was mapped last.
#[derive(Drop)]
pub struct MapStep<A: Allocator + Copy> {
    lits: Vec<Lit, A>,
}

impl<A: Allocator + Copy> MapStep<A> {
    /// It takes no memory.
    pub fn new_in(alloc: A) -> MapStep<A> {
        MapStep {
            lits: Vec::new(alloc),
        }
    }

    /// The literals with `map_var` applied to the variable of each. The only error is out of memory.
    pub fn map_lits<F: Fn(Var) -> Var>(
        &mut self,
        lits: &[Lit],
        map_var: &F,
    ) -> Result<&[Lit], AllocError>
        requires { (v : _) → F.pre map_var.now v }
        ensures { IfOk result (λ mapped. MapsLits (F.post map_var.now) lits.now mapped.now) }
    {
        self.lits.clear();
        for lit in lits {
            self.lits.push(map_var(lit.var()).lit(lit.is_positive()))?;
        }
        Ok(self.lits.as_slice())
    }

    /// The step with `map_var` applied to the variable of each literal; `DeleteVar` is left as it is. The only error is
    /// out of memory.
    pub fn map<'s, F: Fn(Var) -> Var>(
        &'s mut self,
        step: &ProofStep<'_>,
        map_var: &F,
    ) -> Result<ProofStep<'s>, AllocError>
        requires { (v : _) → F.pre map_var.now v }
        ensures { IfOk result (λ mapped. MapsStep (F.post map_var.now) step.now mapped) }
    {
        match step {
            ProofStep::AtClause { clause } => {
                let clause = self.map_lits(clause, map_var)?;
                Ok(ProofStep::AtClause { clause })
            }
            ProofStep::UnitClauses { units } => {
                let units = self.map_lits(units, map_var)?;
                Ok(ProofStep::UnitClauses { units })
            }
            ProofStep::DeleteClause { clause } => {
                let clause = self.map_lits(clause, map_var)?;
                Ok(ProofStep::DeleteClause { clause })
            }
            ProofStep::DeleteVar { var } => Ok(ProofStep::DeleteVar { var: *var }),
            ProofStep::FailedAssumptions { failed_core } => {
                let failed_core = self.map_lits(failed_core, map_var)?;
                Ok(ProofStep::FailedAssumptions { failed_core })
            }
        }
    }
}
