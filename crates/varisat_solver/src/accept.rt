//! What an accepted clause and a list of assumptions bring: their names, the solver variables of these, and the clause
//! or the list itself.
ghost use Rattle.std.specs.Prelude.{◌≡◌, ◌≢◌, ◌<◌, ◌∷◌, [], Some, false, OnOk, IfErr};
ghost use Rattle.varisat_theory.specs.promises.Membership.{◌∈◌};
ghost use Rattle.varisat_theory.specs.promises.Literals.{Literal, variable_of};
ghost use Rattle.varisat_names.specs.promises.VarData.{data_at};
ghost use Rattle.varisat_names.specs.promises.VarMap.{at};
ghost use Rattle.varisat_search.specs.Contexts.{KeepsSchedule};
ghost use Rattle.varisat_solver.specs.inside.Accepted.{CanAccept, AcceptsUserClause, FailsClause, AssumesUserList};
ghost use Rattle.varisat_theory.specs.promises.Journals.{Accepts, Assumes};
ghost use Rattle.varisat_tracer.specs.inside.Tracing.{tracer_state, TakesGlobally, BreaksProof, CanLog};
ghost use Rattle.varisat_search.specs.StepErrors.{step_faults};
ghost use Rattle.varisat_solver.specs.inside.Representations.{IsValidSolver};
ghost use Rattle.varisat_solver.specs.inside.Accepting.{CanBeNamed, HasNames, AreJoined, AreMarked};

use std::alloc::Allocator;
use varisat_formula::io::ProofTarget;
use varisat_literals::{Lit, Var};
use varisat_names::variables::LinkedVariables;
use varisat_search::assumptions::set_assumptions;
use varisat_search::context::Context;
use varisat_search::error::StepError;
use varisat_search::load::load_clause;
use varisat_search::solver_variables::solver_from_user_lits;
use varisat_tracer::SolverTracer;

/// The global variable of the literal's name, which is in use.
fn global_of<A: Allocator + Copy>(variables: &LinkedVariables<A>, lit: Lit) -> Var
    requires { HasNames (lit ∷ []) variables.now }
    ensures found { at variables.now.users.forward (variable_of lit) ≡ Some result }
    ensures live { (data_at variables.now.kept result).deleted ≡ false }
{
    variables.prove_linked();
    variables.global_from_user().get(lit.var()).unwrap()
}

/// Marks the variables of a clause of several literals, which are not isolated any more.
fn mark_joined<A: Allocator + Copy>(variables: &mut LinkedVariables<A>, clause: &[Lit])
    requires { HasNames clause.now variables.old }
    ensures { AreJoined clause.now variables.old variables.new }
{
    if clause.len() > 1 {
        for lit in clause {
            let global = global_of(variables, *lit);
            variables.set_isolated(global, false);
        }
    }
}

/// Marks the variables of the list as assumed, or takes their marks away.
fn mark_assumed<A: Allocator + Copy>(
    variables: &mut LinkedVariables<A>,
    list: &[Lit],
    assumed: bool,
)
    requires { HasNames list.now variables.old }
    ensures { AreMarked list.now assumed variables.old variables.new }
{
    for lit in list {
        let global = global_of(variables, *lit);
        variables.set_assumed(global, assumed);
    }
}

/// Tells the proof of an accepted clause, which is over solver variables.
fn log_clause<W: ProofTarget, A: Allocator + Copy>(
    tracer: &mut SolverTracer<W, A>,
    clause: &[Lit],
) -> Result<(), StepError>
    requires { CanLog tracer.old.proof }
    ensures logged { OnOk result
        (TakesGlobally (tracer_state tracer.old) (Accepts clause.now ∷ []) (tracer_state tracer.new)) }
    ensures broken { IfErr result (λ error. BreaksProof tracer.old.proof (step_faults error) tracer.new.proof) }
    ensures unstored { IfErr result (λ error. error ≢ StepError.Full) }
{
    tracer.add_clause(clause)?;
    Ok(())
}

/// Tells the proof of an accepted list of assumptions, which is over solver variables.
fn log_assumptions<W: ProofTarget, A: Allocator + Copy>(
    tracer: &mut SolverTracer<W, A>,
    list: &[Lit],
) -> Result<(), StepError>
    requires { CanLog tracer.old.proof }
    ensures logged { OnOk result
        (TakesGlobally (tracer_state tracer.old) (Assumes list.now ∷ []) (tracer_state tracer.new)) }
    ensures broken { IfErr result (λ error. BreaksProof tracer.old.proof (step_faults error) tracer.new.proof) }
    ensures unstored { IfErr result (λ error. error ≢ StepError.Full) }
{
    tracer.add_assumptions(list)?;
    Ok(())
}

/// Brings the names of the clause into use, takes solver variables for them, has the proof log the clause, and loads
/// it over these variables. `literals` is overwritten.
pub fn accept_user_clause<W: ProofTarget, A: Allocator + Copy>(
    tracer: &mut SolverTracer<W, A>,
    ctx: &mut Context<A>,
    literals: &mut Vec<Lit, A>,
    clause: &[Lit],
) -> Result<(), StepError>
    requires can { CanAccept (tracer_state tracer.old) ctx.old }
    requires names { CanBeNamed clause.now tracer.old.tables }
    ensures accepted { OnOk result
        (AcceptsUserClause clause.now (tracer_state tracer.old) ctx.old (tracer_state tracer.new) ctx.new) }
    ensures schedule { KeepsSchedule ctx.old ctx.new }
    ensures fails { IfErr result
        (FailsClause clause.now (tracer_state tracer.old) ctx.old (tracer_state tracer.new) ctx.new) }
{
    // A model that was found may not satisfy the clause. `load_clause` reopens too, but names take variables first, for
    // which the model has no values.
    ctx.solver_state.reopen();
    tracer.tables.prove_linked();
    solver_from_user_lits(ctx, &mut tracer.tables, literals, clause)?;
    tracer.tables.prove_linked();
    mark_joined(&mut tracer.tables, clause);
    let lits = literals.as_slice();
    log_clause(tracer, lits)?;
    load_clause(ctx, tracer, lits)?;
    Ok(())
}

/// Brings the names of the list into use, takes solver variables for them, assumes the list in place of the one before,
/// and has the proof log it. `literals` is overwritten.
pub fn assume_list<W: ProofTarget, A: Allocator + Copy>(
    tracer: &mut SolverTracer<W, A>,
    ctx: &mut Context<A>,
    literals: &mut Vec<Lit, A>,
    list: &[Lit],
) -> Result<(), StepError>
    requires valid { IsValidSolver tracer.old.tables ctx.old }
    requires logs { CanLog tracer.old.proof }
    requires names { CanBeNamed list.now tracer.old.tables }
    ensures assumed { OnOk result
        (AssumesUserList list.now (tracer_state tracer.old) ctx.old (tracer_state tracer.new) ctx.new) }
    ensures schedule { KeepsSchedule ctx.old ctx.new }
    // What the target of an open proof has after an error. The clause store is not asked for room.
    ensures broken { IfErr result (λ error. BreaksProof tracer.old.proof (step_faults error) tracer.new.proof) }
    ensures unstored { IfErr result (λ error. error ≢ StepError.Full) }
    // The target is asked last: where it fails the list is assumed already, so that there was memory for it.
    ensures last { IfErr result (λ error. error ≢ StepError.Memory → ctx.new.assumptions.user ≡ list.now) }
{
    // What was found under the assumptions before says nothing of these. `set_assumptions` forgets it too, but names take
    // variables first.
    ctx.solver_state.assume();
    tracer.tables.prove_linked();
    solver_from_user_lits(ctx, &mut tracer.tables, literals, list)?;
    tracer.tables.prove_linked();
    mark_assumed(
        &mut tracer.tables,
        ctx.assumptions.user_assumptions(),
        false,
    );
    mark_assumed(&mut tracer.tables, list, true);
    let lits = literals.as_slice();
    set_assumptions(ctx, list, lits)?;
    log_assumptions(tracer, lits)?;
    Ok(())
}
