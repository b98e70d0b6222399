//! The tracer of a solver: it hands the steps of a search on to the proof that the solver writes and to the checker
//! inside it, over global variables.
ghost use Rattle.std.specs.Prelude.{◌≡◌, ◌<◌, length, map, OnOk, None, [], ◌∷◌};
ghost use Rattle.varisat_names.specs.promises.VarMap.{at};
ghost use Rattle.varisat_names.specs.promises.Variables.{no_variables};
ghost use Rattle.varisat_tracer.specs.promises.Carried.{carry, variable_or_first};
ghost use Rattle.varisat_theory.specs.promises.Journals.{Accepts, Assumes};
ghost use Rattle.varisat_proof.specs.promises.Proving.{CanCountTargetFault, IsUsable, IsLogged};
ghost use Rattle.varisat_tracer.specs.inside.Tracing.{global_literal, tracer_state, open_parts, LogsGlobally, retires_if_deleted};

use std::alloc::{AllocError, Allocator};
use varisat_formula::io::ProofTarget;
use varisat_literals::{Lit, Var};
use varisat_names::variables::LinkedVariables;
use varisat_proof::proof::{Proof, add_assumptions, add_clause, add_step, delete_var};
use varisat_steps::{ProofStep, ProofTracer, TraceError};

/// The global variable of a solver variable. Each that a search uses has one; for any other it is the first, which spares
/// the callers a condition.
fn global_var<A: Allocator + Copy>(variables: &LinkedVariables<A>, solver: Var) -> Var
    ensures { result ≡ variable_or_first (at variables.now.solvers.backward solver) }
{
    match variables.global_from_solver().get(solver) {
        Some(global) => global,
        None => Var::from_index(0),
    }
}

/// The literal of the global variable that the solver variable stands for.
fn global_lit<A: Allocator + Copy>(variables: &LinkedVariables<A>, literal: Lit) -> Lit
    ensures { result ≡ global_literal variables.now literal }
{
    global_var(variables, literal.var()).lit(literal.is_positive())
}

/// Puts the literals over global variables in place of those of `mapped`.
fn map_lits<A: Allocator + Copy>(
    variables: &LinkedVariables<A>,
    literals: &[Lit],
    mapped: &mut Vec<Lit, A>,
) -> Result<(), AllocError>
    ensures { OnOk result (mapped.new.items ≡ map (global_literal variables.now) literals.now) }
{
    mapped.clear();
    for literal in literals {
        mapped.push(global_lit(variables, *literal))?;
    }
    Ok(())
}

/// The names and variables of a solver with its proof. It owns both, so that a search borrows one thing; with no proof
/// open and no checker running steps pass.
#[derive(Drop)]
pub struct SolverTracer<W: ProofTarget, A: Allocator + Copy> {
    pub tables: LinkedVariables<A>,
    pub proof: Proof<W, A>,
    /// The literals of a step over global variables.
    pub literals: Vec<Lit, A>,
}

impl<W: ProofTarget, A: Allocator + Copy> SolverTracer<W, A> {
    /// No variables, no proof and no checker. It takes no memory.
    pub fn new_in(alloc: A) -> SolverTracer<W, A>
        ensures variables { result.tables ≡ no_variables }
        ensures proof { result.proof ≡ record { opened = None; checker = None } }
    {
        SolverTracer {
            tables: LinkedVariables::new_in(alloc),
            proof: Proof::new_in(alloc),
            literals: Vec::new(alloc),
        }
    }

    /// Tells the proof an accepted clause, which is over solver variables. `Target`: the target failed. `Memory`: out of
    /// memory, which may have spent the checker. A beginning of the clause's line may stand in the target after an error.
    pub fn add_clause(&mut self, clause: &[Lit]) -> Result<(), TraceError>
        requires room { CanCountTargetFault self.old.proof.opened }
        requires usable { IsUsable self.old.proof.checker }
        ensures { LogsGlobally (tracer_state self.old) (Accepts clause.now ∷ []) result (tracer_state self.new) }
    {
        if !self.proof.is_active() {
            return Ok(());
        }
        match map_lits(&self.tables, clause, &mut self.literals) {
            Ok(()) => {}
            Err(_) => return Err(TraceError::Memory),
        }
        let clause = self.literals.as_slice();
        add_clause(&mut self.proof, clause)
    }

    /// Tells the proof an accepted list of assumptions, which is over solver variables. Errors are those of `add_clause`.
    pub fn add_assumptions(&mut self, assumptions: &[Lit]) -> Result<(), TraceError>
        requires room { CanCountTargetFault self.old.proof.opened }
        requires usable { IsUsable self.old.proof.checker }
        ensures { LogsGlobally (tracer_state self.old) (Assumes assumptions.now ∷ []) result (tracer_state self.new) }
    {
        if !self.proof.is_active() {
            return Ok(());
        }
        match map_lits(&self.tables, assumptions, &mut self.literals) {
            Ok(()) => {}
            Err(_) => return Err(TraceError::Memory),
        }
        let assumptions = self.literals.as_slice();
        add_assumptions(&mut self.proof, assumptions)
    }

    /// Tells the proof that the global variable is gone for good, where it is not live any more. It takes no memory, and
    /// writes nothing.
    pub fn retire_var_if_unused(&mut self, global: Var)
        requires { global < length self.old.tables.kept }
        ensures variables { self.new.tables ≡ self.old.tables }
        ensures logged { IsLogged self.old.proof (retires_if_deleted self.old.tables global) self.new.proof }
        ensures opened { open_parts self.new.proof ≡ open_parts self.old.proof }
    {
        if self.tables.var_data_global(global).deleted {
            delete_var(&mut self.proof, global);
        }
    }
}

impl<W: ProofTarget, A: Allocator + Copy> ProofTracer for SolverTracer<W, A> {
    ghost use Rattle.varisat_proof.specs.promises.Proving.{is_logging};
    ghost use Rattle.varisat_tracer.specs.inside.Tracing.{tracer_state, IsInOrder, Relies, TakesGlobally, BreaksGlobally};
    ghost use Rattle.varisat_tracer.specs.inside.TracerLaws.{takes-none, takes-more, takes-idle, breaks-none, breaks-behind, breaks-idle, relies-after};

    ghost active = { λ x. is_logging x.proof };

    ghost holds = { λ x held. Relies (tracer_state x) held };

    ghost takes = { λ x entries y. TakesGlobally (tracer_state x) entries (tracer_state y) };

    ghost breaks_off = { λ x entries faults y. BreaksGlobally (tracer_state x) entries faults (tracer_state y) };

    ghost in_order = { λ x clause. IsInOrder (tracer_state x) clause };

    fn is_active(&self) -> bool {
        self.proof.is_active()
    }

    /// By the literals over global variables, which the lines write.
    fn sort(&self, clause: &mut [Lit]) {
        clause.sort_unstable_by_key(|literal| global_lit(&self.tables, *literal).code());
    }

    // `DeleteVar` is not handed on: it says that a solver variable leaves the search, and its global variable may live on.
    // Where that is gone too, `retire_var_if_unused` logs that.
    fn add_step(&mut self, step: &ProofStep<'_>) -> Result<(), TraceError> {
        if !self.proof.is_active() {
            return Ok(());
        }
        match step {
            ProofStep::AtClause { clause } => {
                map_lits(&self.tables, clause, &mut self.literals)?;
                let clause = self.literals.as_slice();
                add_step(&mut self.proof, &ProofStep::AtClause { clause })?;
            }
            ProofStep::UnitClauses { units } => {
                map_lits(&self.tables, units, &mut self.literals)?;
                let units = self.literals.as_slice();
                add_step(&mut self.proof, &ProofStep::UnitClauses { units })?;
            }
            ProofStep::DeleteClause { clause } => {
                map_lits(&self.tables, clause, &mut self.literals)?;
                let clause = self.literals.as_slice();
                add_step(&mut self.proof, &ProofStep::DeleteClause { clause })?;
            }
            ProofStep::FailedAssumptions { failed_core } => {
                map_lits(&self.tables, failed_core, &mut self.literals)?;
                let failed_core = self.literals.as_slice();
                add_step(
                    &mut self.proof,
                    &ProofStep::FailedAssumptions { failed_core },
                )?;
            }
            ProofStep::DeleteVar { .. } => {}
        }
        Ok(())
    }

    ghost takes_none = { λ x. takes-none (tracer_state x) };

    ghost takes_more = { λ x y z. takes-more (tracer_state x) (tracer_state y) (tracer_state z) };

    ghost takes_idle = { λ x. takes-idle (tracer_state x) };

    ghost breaks_none = { λ x. breaks-none (tracer_state x) };

    ghost breaks_behind = { λ x y z. breaks-behind (tracer_state x) (tracer_state y) (tracer_state z) };

    ghost breaks_idle = { λ x y. breaks-idle (tracer_state x) (tracer_state y) };

    ghost holds_after = { λ x y. relies-after (tracer_state x) (tracer_state y) };
}
