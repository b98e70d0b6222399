//! Loading of clauses.
ghost use Rattle.std.specs.Prelude.{◌≡◌, [], ◌∷◌, Ok, Some, length, slice_get, replicate, ◌+◌, ◌*◌, ◌<◌, ◌≤◌, false, OnOk, IfOk, IfErr, IsTrue, ◌↔◌};
ghost use Rattle.varisat_theory.specs.promises.Membership.{◌∈◌, SameSet, IsDistinct};
ghost use Rattle.varisat_theory.specs.promises.Literals.{Literal, variable_of, opposite};
ghost use Rattle.varisat_theory.specs.promises.Searches.{IsTautology};
ghost use Rattle.varisat_theory.specs.promises.Derivations.{Delete};
ghost use Rattle.varisat_theory.specs.inside.Outcomes.{Loads};
ghost use Rattle.varisat_theory.specs.inside.Outcomes as outcome;
ghost use Rattle.varisat_clause.specs.Databases.{Tracks};
ghost use Rattle.varisat_prop.specs.Parts.{IsMadeTrue};
ghost use Rattle.varisat_prop.specs.Looks.{IsInRange};
ghost use Rattle.varisat_prop.specs.View.{WellFormed, kept};
ghost use Rattle.varisat_prop.specs.Watches.{IsPropagated};
ghost use Rattle.varisat_search.specs.Contexts.{view, IsNotUnsat, IsReady};
ghost use Rattle.varisat_search.specs.Steps.{IsPropagatedToEnd, reopened_state, IsVerdictAfter, accepted_with};
ghost use Rattle.varisat_search.specs.Decisions.{AreDecidable};
ghost use Rattle.varisat_search.specs.Frames.{ChangesLoaded, ClearsFlags, KeepsVariables, KeepsScheduleAndVariables};
ghost use Rattle.varisat_search.specs.Loading.{HasFalseLiteral, IsHeadAfter, AddsLoaded, LoadsUnit, DeletesInOrder, LoadsAccepted};
ghost use Rattle.varisat_search.specs.Forgotten.{IsUnmentioned};
ghost use Rattle.varisat_steps.specs.Traces.{TakesLines, BreaksOff, faults_of, CanTake, AdmitsWith};
ghost use Rattle.varisat_search.specs.StepErrors.{RefusesStoring, EndsStep, step_faults};
ghost use Rattle.varisat_search.specs.Seen.{search_of};

use crate::context::Context;
use crate::error::StepError;
use crate::levels::full_restart;
use crate::literals::first_of;
use crate::state::SatState;
use std::alloc::{AllocError, Allocator};
use varisat_analysis::clause_literals::{collect_flagged, is_satisfied};
use varisat_clause::db::add_clause;
use varisat_literals::Lit;
use varisat_prop::clause::{ClauseHeader, StoreError};
use varisat_prop::prop::{Assignment, Reason, Trail, enqueue_assignment};
use varisat_steps::{NoTracer, ProofStep, ProofTracer, TraceError};

/// Copies the clause's literals to `lits`, each once. Returns whether one of them is another's opposite.
fn collect_distinct<A: Allocator + Copy>(
    ctx: &mut Context<A>,
    clause: &[Lit],
) -> Result<bool, AllocError>
    requires flags { ctx.old.tmp_flags.flags.items ≡ replicate (2 * length ctx.old.assignment.current) false }
    requires in_range { IsInRange ctx.old.assignment.current clause.now }
    ensures distinct { OnOk result (IsDistinct ctx.new.tmp_data.lits.items) }
    ensures same { OnOk result (SameSet ctx.new.tmp_data.lits.items clause.now) }
    ensures tautology { IfOk result (λ found. IsTrue found ↔ IsTautology ctx.new.tmp_data.lits.items) }
    ensures frame { (ctx.new ≡ record ctx.old { tmp_data = ctx.new.tmp_data; tmp_flags = ctx.new.tmp_flags })
        × ClearsFlags ctx.old ctx.new }
{
    let found = collect_flagged(&mut ctx.tmp_data.lits, &mut ctx.tmp_flags.flags, clause)?;
    Ok(found)
}

/// Whether a literal of the clause is false.
fn has_false<A: Allocator + Copy>(assignment: &Assignment<A>, lits: &[Lit]) -> bool
    requires { IsInRange assignment.now.current lits.now }
    ensures { IsTrue result ↔ HasFalseLiteral assignment.now.current lits.now }
{
    for lit in lits {
        if assignment.lit_is_false(*lit) {
            return true;
        }
    }
    false
}

/// Begins the queue anew where a literal of the clause is false: it may be so by a literal that was propagated before.
fn reset_queue_if_false<A: Allocator + Copy>(
    trail: &mut Trail<A>,
    assignment: &Assignment<A>,
    lits: &[Lit],
)
    requires { IsInRange assignment.now.current lits.now }
    ensures head { IsHeadAfter assignment.now.current lits.now trail.old.queue_head trail.new.queue_head }
    ensures frame { trail.new ≡ record trail.old { queue_head = trail.new.queue_head } }
{
    if has_false(assignment, lits) {
        trail.reset_queue();
    }
}

/// Adds the clause in `lits`, whose literals are distinct and not true: it is kept, makes its only literal true, or
/// gives verdict Unsat.
fn add_distinct<A: Allocator + Copy>(ctx: &mut Context<A>) -> Result<(), StoreError>
    requires well { WellFormed (view ctx.old) }
    requires propagated { IsPropagated ctx.old.watchlists (view ctx.old) }
    requires tracks { Tracks ctx.old.clause_db ctx.old.clause_alloc }
    requires undecided { ctx.old.trail.decisions ≡ [] }
    requires distinct { IsDistinct ctx.old.tmp_data.lits.items }
    requires in_range { IsInRange ctx.old.assignment.current ctx.old.tmp_data.lits.items }
    requires untrue { (l : Literal) → l ∈ ctx.old.tmp_data.lits.items → IsMadeTrue ctx.old.assignment.current l → ⊥ }
    ensures frame { ChangesLoaded ctx.old ctx.new }
    ensures propagated { OnOk result (IsPropagated ctx.new.watchlists (view ctx.new)) }
    ensures tracks { OnOk result (Tracks ctx.new.clause_db ctx.new.clause_alloc) }
    ensures added { OnOk result (AddsLoaded ctx.old ctx.new) }
    ensures full { IfErr result
        (λ error. error ≡ StoreError.Full → RefusesStoring (length ctx.old.tmp_data.lits.items) ctx.old ctx.new) }
{
    let Some(first) = first_of(&ctx.tmp_data.lits) else {
        ctx.solver_state.sat_state = SatState::Unsat;
        return Ok(());
    };
    if ctx.tmp_data.lits.len() > 1 {
        reset_queue_if_false(&mut ctx.trail, &ctx.assignment, &ctx.tmp_data.lits);
        if ctx.tmp_data.lits.len() == 2 {
            let (first, second) = (ctx.tmp_data.lits[0], ctx.tmp_data.lits[1]);
            ctx.binary_clauses.add_binary_clause([first, second])?;
            return Ok(());
        }
        let cref = add_clause(
            &mut ctx.clause_alloc,
            &mut ctx.clause_db,
            ClauseHeader::new(),
            &ctx.tmp_data.lits,
        )?;
        ctx.watchlists.watch_clause(cref, &ctx.tmp_data.lits)?;
        return Ok(());
    }
    if ctx.assignment.lit_is_false(first) {
        ctx.solver_state.sat_state = SatState::Unsat;
        return Ok(());
    }
    enqueue_assignment(
        &mut ctx.assignment,
        &mut ctx.impl_graph,
        &mut ctx.trail,
        first,
        Reason::Unit,
    )?;
    Ok(())
}

/// Deletes a clause with a true literal from the proof, unless it is a unit, which is what proves its literal. The
/// tracer orders the literals.
fn trace_satisfied<P: ProofTracer>(proof: &mut P, lits: &mut [Lit]) -> Result<(), TraceError>
    requires { CanTake (P.holds proof.old) (Delete lits.old ∷ []) }
    ensures unit { OnOk result (length lits.old < 2 → TakesLines P.takes proof.old [] proof.new) }
    ensures longer { OnOk result (2 ≤ length lits.old →
        DeletesInOrder (P.in_order proof.old) (λ ls. TakesLines P.takes proof.old ls proof.new) lits.old lits.new) }
    ensures broken { IfErr result (λ error. BreaksOff P.breaks_off proof.old (faults_of error) proof.new) }
{
    if lits.len() < 2 {
        return Ok(());
    }
    proof.sort(lits);
    proof.add_step(&ProofStep::DeleteClause { clause: lits })?;
    Ok(())
}

/// Loads a clause, and undoes all decisions. Assumptions stay, without a level. Literals that stand twice count once,
/// and a clause with a literal and its opposite, or with one that is true at level 0, is not kept. Where it has two
/// literals or more and no opposites, and one is true at level 0, the proof deletes it. Under Unsat nothing changes.
/// Fails where it is out of memory, the clause store is full or the tracer fails.
pub fn load_clause<A: Allocator + Copy, P: ProofTracer>(
    ctx: &mut Context<A>,
    proof: &mut P,
    lits: &[Lit],
) -> Result<(), StepError>
    // The tracer may hold what fits the search and the clause itself.
    requires holds { IsNotUnsat ctx.old → AdmitsWith (P.holds proof.old) (search_of (view ctx.old)) lits.now }
    requires ready { IsReady ctx.old }
    requires in_range { IsInRange ctx.old.assignment.current lits.now }
    requires decidable { AreDecidable (view ctx.old) ctx.old.vsids lits.now }
    ensures ready { OnOk result (IsReady ctx.new) }
    ensures unsat { ctx.old.solver_state.sat_state ≡ SatState.Unsat →
        (result ≡ Ok tt) × (ctx.new ≡ ctx.old) × (proof.new ≡ proof.old) }
    ensures loads { OnOk result (IsNotUnsat ctx.old →
        LoadsAccepted (P.in_order proof.old) (λ ls. TakesLines P.takes proof.old ls proof.new) lits.now
        ctx.old ctx.new) }
    // Under assumptions the verdict stays, unless it becomes Unsat.
    ensures verdict { OnOk result (IsVerdictAfter ctx.old.solver_state.sat_state ctx.new.solver_state.sat_state) }
    ensures keeps { OnOk result (KeepsVariables ctx.old ctx.new) }
    ensures single { OnOk result ((l : Literal) → lits.now ≡ l ∷ [] → LoadsUnit (view ctx.old) (view ctx.new) l) }
    ensures ends { EndsStep result ctx.old ctx.new }
    ensures broken { IfErr result (λ error. BreaksOff P.breaks_off proof.old (step_faults error) proof.new) }
{
    if let SatState::Unsat = ctx.solver_state.sat_state {
        return Ok(());
    }
    ctx.solver_state.accept_clause();
    full_restart(ctx);
    if collect_distinct(ctx, lits)? {
        return Ok(());
    }
    if is_satisfied(&ctx.assignment, &ctx.tmp_data.lits) {
        trace_satisfied(proof, &mut ctx.tmp_data.lits)?;
        return Ok(());
    }
    add_distinct(ctx)?;
    Ok(())
}

/// Takes the literal at the queue's head as propagated, whose variable no clause names.
fn skip_unmentioned<A: Allocator + Copy>(ctx: &mut Context<A>, lit: Lit)
    requires ready { IsReady ctx.old }
    requires undecided { ctx.old.trail.decisions ≡ [] }
    requires head { slice_get ctx.old.trail.literals ctx.old.trail.queue_head ≡ Some lit }
    requires unmentioned { IsUnmentioned (kept (view ctx.old)) (variable_of lit) }
    ensures ready { IsReady ctx.new }
    ensures frame { ctx.new
        ≡ record ctx.old { trail = record ctx.old.trail { queue_head = ctx.old.trail.queue_head + 1 } } }
{
    ctx.trail.pop_queue();
}

/// Makes a literal true at level 0 whose variable left the search with this value and came back, and undoes all
/// decisions. As no clause names the variable, there is nothing to propagate. Under Unsat nothing changes.
pub fn resurrect_unit<A: Allocator + Copy>(ctx: &mut Context<A>, lit: Lit) -> Result<(), AllocError>
    requires ready { IsReady ctx.old }
    requires in_range { IsInRange ctx.old.assignment.current (lit ∷ []) }
    requires decidable { AreDecidable (view ctx.old) ctx.old.vsids (lit ∷ []) }
    requires unopposed { opposite lit ∈ (search_of (view ctx.old)).fixed → ⊥ }
    requires unmentioned { IsUnmentioned (kept (view ctx.old)) (variable_of lit) }
    ensures ready { OnOk result (IsReady ctx.new) }
    ensures unsat { ctx.old.solver_state.sat_state ≡ SatState.Unsat → ctx.new ≡ ctx.old }
    // Its unit clause is held again, and the verdict is not Unsat.
    ensures lines { OnOk result (IsNotUnsat ctx.old →
        Loads (search_of (view ctx.old)) (search_of (view ctx.new)) (lit ∷ []) outcome.Unknown []) }
    ensures state { OnOk result (IsNotUnsat ctx.old →
        ctx.new.solver_state ≡ accepted_with (reopened_state ctx.old.solver_state.sat_state) ctx.old.solver_state) }
    ensures assumptions { OnOk result
        (IsNotUnsat ctx.old → ctx.new.assumptions ≡ record ctx.old.assumptions { levels = 0 }) }
    ensures keeps { KeepsScheduleAndVariables result ctx.old ctx.new }
    // Where all was propagated at level 0, all is.
    ensures quiet { OnOk result
        (IsNotUnsat ctx.old → ctx.old.trail.decisions ≡ [] → IsPropagatedToEnd (view ctx.old) →
        IsPropagatedToEnd (view ctx.new)) }
{
    if let SatState::Unsat = ctx.solver_state.sat_state {
        return Ok(());
    }
    // For a unit there is no line.
    let mut proof = NoTracer {};
    match load_clause(ctx, &mut proof, &[lit]) {
        Ok(()) => {}
        // A unit clause is not stored, so that only memory can be refused.
        Err(_) => return Err(AllocError),
    }
    if ctx.trail.queue_head() == Some(lit) {
        skip_unmentioned(ctx, lit);
    }
    Ok(())
}
