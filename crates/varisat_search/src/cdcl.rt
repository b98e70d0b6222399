//! One step of the search: propagate and decide to a conflict or a model, and learn.
ghost use Rattle.std.specs.Prelude.{◌≡◌, ◌≢◌, ℕ, ◌+◌, ◌^◌, ◌<◌, ◌≤◌, false, length, [], ◌∷◌, Ok, OnOk, IfOk, IfErr, IsTrue, ◌↔◌, MatchResult};
ghost use Rattle.varisat_theory.specs.promises.Membership.{◌∈◌};
ghost use Rattle.varisat_theory.specs.promises.Literals.{Literal, opposite};
ghost use Rattle.varisat_theory.specs.promises.Propagation.{IsComplete};
ghost use Rattle.varisat_theory.specs.promises.Derivations.{Add};
ghost use Rattle.varisat_clause.specs.declared.header.Tier.TheVariants as tier;
ghost use Rattle.varisat_clause.specs.Tiers.{is_tier};
ghost use Rattle.varisat_clause.specs.Databases.{Tracks};
ghost use Rattle.varisat_prop.specs.View.{View, kept, GrowsTrail};
ghost use Rattle.varisat_prop.specs.Changes.{IsConflicting};
ghost use Rattle.varisat_prop.specs.Looks.{Propagates};
ghost use Rattle.varisat_prop.specs.QueueSteps.{EndsPropagation, IsFullyPropagated};
ghost use Rattle.varisat_analysis.specs.Learned.{IsLearned, AreInvolved};
ghost use Rattle.varisat_search.specs.Contexts.{view, IsNotUnsat, IsReady};
ghost use Rattle.varisat_search.specs.Frames.{ChangesAnalysis, ChangesClauses, ChangesPropagated, ChangesRootSimplified, SearchesOn};
ghost use Rattle.varisat_search.specs.Steps.{IsPropagatedToEnd};
ghost use Rattle.varisat_search.specs.Seen.{search_of};
ghost use Rattle.varisat_theory.specs.promises.Journals.{Fails};
ghost use Rattle.varisat_steps.specs.Traces.{TakesLines, TakesStep, LogsLines, BreaksOff, faults_of, CanTake, CanFail, AdmitsFor};
ghost use Rattle.varisat_search.specs.AssumptionParts.{TakesOutImplied};
ghost use Rattle.varisat_search.specs.Conflicts.{ComesToDecision, EndsOrStops, keeping_of, IsKeptAsReason, IsStoredAsReason, IsWatchedAsReason};
ghost use Rattle.varisat_search.specs.Learning.{HasMet, LearnsFrom};
ghost use Rattle.varisat_search.specs.RootSimplified.{IsRootUnpropagated, FixesNone, KeepsFixed, FixesByLearning, SimplifiesRootByLines, SimplifiesRootIfUnpropagated, IsRootSimplified, SimplifiesAndSteps};
ghost use Rattle.varisat_search.specs.StepErrors.{EndsStep, step_faults};
ghost use Rattle.varisat_search.specs.Progress.{outcome_at, AddOne, AddOneIfUnknown, MakesStep};
ghost use Rattle.varisat_search.specs.FoundCores.{HasCoreIfFailed};

use crate::assess::{assess_learned, bump_involved_clauses};
use crate::assumptions::{EnqueueAssumption, enqueue_assumption};
use crate::bumps::bump_involved;
use crate::context::Context;
use crate::decision::make_decision;
use crate::error::StepError;
use crate::levels::backtrack;
use crate::literals::first_of;
use crate::state::SatState;
use crate::unit_simplify::{prove_units, unit_simplify};
use std::alloc::{AllocError, Allocator};
use varisat_analysis::analyze_conflict::analyze_conflict;
use varisat_clause::db::add_clause;
use varisat_literals::Lit;
use varisat_prop::clause::{ClauseHeader, StoreError};
use varisat_prop::prop::{Conflict, Reason, enqueue_assignment, propagate};
use varisat_schedule::counters::count;
use varisat_steps::{ProofStep, ProofTracer, TraceError};

/// Why a search for a model stopped.
#[derive(Clone, Copy, Debug, PartialEq, Eq)]
pub enum FoundConflict {
    /// Propagation found a false clause.
    Conflict(Conflict),
    /// An assumption is false, and a core was found.
    Assumption,
}

/// Propagates, and counts the literals that were propagated.
fn propagate_counted<A: Allocator + Copy>(
    ctx: &mut Context<A>,
) -> Result<Result<(), Conflict>, AllocError>
    requires { IsReady ctx.old }
    ensures ready { OnOk result (IsReady ctx.new) }
    ensures propagates { OnOk result (Propagates (view ctx.old) (view ctx.new)) }
    ensures ends { IfOk result (EndsPropagation IsFullyPropagated (view ctx.new)) }
    ensures last { OnOk result (ctx.new.assignment.last ≡ ctx.old.assignment.last) }
    ensures frame { ChangesPropagated ctx.old ctx.new }
{
    let before = ctx.trail.propagated_count();
    let propagated = propagate(
        &mut ctx.assignment,
        &mut ctx.clause_alloc,
        &mut ctx.impl_graph,
        &mut ctx.trail,
        &ctx.binary_clauses,
        &mut ctx.watchlists,
    )?;
    let taken = ctx.trail.propagated_count().saturating_sub(before);
    count(&mut ctx.counters.propagations, taken as u64);
    Ok(propagated)
}

/// What comes of a decision.
#[derive(Clone, Copy, Debug, PartialEq, Eq)]
enum Decision {
    /// A literal was decided.
    Made,
    /// Nothing is left to decide.
    AllAssigned,
    /// The next assumption is false, and a core was found.
    AssumptionFailed,
}

/// Decides the next assumption, or another literal once each assumption has a level.
fn decide<A: Allocator + Copy>(ctx: &mut Context<A>) -> Result<Decision, AllocError>
    requires ready { IsReady ctx.old }
    requires complete { IsComplete (kept (view ctx.old)) ctx.old.trail.literals }
    requires propagated { IsPropagatedToEnd (view ctx.old) }
    ensures ready { OnOk result (IsReady ctx.new) }
    ensures grows { OnOk result (GrowsTrail (view ctx.old) (view ctx.new)) }
    ensures fixed { OnOk result (FixesNone (view ctx.old) (view ctx.new)) }
    ensures taken { OnOk result (TakesOutImplied (view ctx.old) ctx.old.assumptions ctx.new.assumptions) }
    ensures decided { IfOk result
        (λ decided. ComesToDecision (view ctx.old) (view ctx.new) ctx.new.assumptions decided) }
    ensures goes { SearchesOn result ctx.old ctx.new }
{
    match enqueue_assumption(ctx)? {
        EnqueueAssumption::Done => {}
        EnqueueAssumption::Enqueued => return Ok(Decision::Made),
        EnqueueAssumption::Conflict => return Ok(Decision::AssumptionFailed),
    }
    let made = make_decision(ctx)?;
    Ok(if made {
        Decision::Made
    } else {
        Decision::AllAssigned
    })
}

/// Propagates and decides until a clause or an assumption is false, or each variable has a value.
fn find_conflict<A: Allocator + Copy>(
    ctx: &mut Context<A>,
) -> Result<Result<(), FoundConflict>, AllocError>
    requires { IsReady ctx.old }
    ensures ready { OnOk result (IsReady ctx.new) }
    ensures grows { OnOk result (GrowsTrail (view ctx.old) (view ctx.new)) }
    ensures fixed { OnOk result ((IsRootUnpropagated (view ctx.old) → ⊥) → FixesNone (view ctx.old) (view ctx.new)) }
    ensures taken { OnOk result (TakesOutImplied (view ctx.old) ctx.old.assumptions ctx.new.assumptions) }
    ensures found { IfOk result (λ end. EndsOrStops (view ctx.new) ctx.new.assumptions end) }
    ensures goes { SearchesOn result ctx.old ctx.new }
{
    'levels: loop {
        let propagated = propagate_counted(ctx)?;
        if let Err(conflict) = propagated {
            return Ok(Err(FoundConflict::Conflict(conflict)));
        }
        match decide(ctx)? {
            Decision::Made => {}
            Decision::AllAssigned => return Ok(Ok(())),
            Decision::AssumptionFailed => return Ok(Err(FoundConflict::Assumption)),
        }
    }
}

/// Keeps the learned clause where it has two literals or more, one of three or more with the header, and watches it.
/// Returns what makes its first literal true.
fn keep_learned<A: Allocator + Copy>(
    ctx: &mut Context<A>,
    header: ClauseHeader,
) -> Result<Reason, StoreError>
    requires redundant { is_tier header.tier tier.Irred ≡ false }
    requires live { header.deleted ≡ false }
    requires listed { (l : Literal) → l ∈ ctx.old.analyze_conflict.clause →
        opposite l < length ctx.old.watchlists.lists }
    requires paired { (l : Literal) → l ∈ ctx.old.analyze_conflict.clause → opposite l < length ctx.old.binary_clauses }
    requires tracks { Tracks ctx.old.clause_db ctx.old.clause_alloc }
    ensures tracks { OnOk result (Tracks ctx.new.clause_db ctx.new.clause_alloc) }
    ensures frame { ChangesClauses ctx.old ctx.new }
    ensures reason { IfOk result
        (λ reason.
        IsKeptAsReason (keeping_of (view ctx.old)) (keeping_of (view ctx.new)) ctx.old.analyze_conflict.clause reason) }
    ensures stored { IfOk result
        (λ reason.
        IsStoredAsReason ctx.old.clause_alloc ctx.new.clause_alloc header ctx.old.analyze_conflict.clause reason) }
    ensures watched { IfOk result
        (λ reason. IsWatchedAsReason ctx.old.watchlists ctx.new.watchlists ctx.old.analyze_conflict.clause reason) }
    ensures full { IfErr result
        (λ error. error ≡ StoreError.Full →
        2 ^ 32 ≤ length ctx.new.clause_alloc.words + 3 + length ctx.old.analyze_conflict.clause) }
{
    match ctx.analyze_conflict.clause() {
        [] | [_] => return Ok(Reason::Unit),
        [first, second] => {
            ctx.binary_clauses.add_binary_clause([*first, *second])?;
            return Ok(Reason::Binary([*second]));
        }
        _ => {}
    }
    let cref = add_clause(
        &mut ctx.clause_alloc,
        &mut ctx.clause_db,
        header,
        ctx.analyze_conflict.clause(),
    )?;
    ctx.watchlists
        .watch_clause(cref, ctx.analyze_conflict.clause())?;
    Ok(Reason::Long(cref))
}

/// Learns a clause from the conflict, and returns the level to backtrack to.
fn analyze<A: Allocator + Copy>(
    ctx: &mut Context<A>,
    conflict: Conflict,
) -> Result<usize, AllocError>
    ghost s: { View }
    requires ready { IsReady ctx.old }
    requires conflict { IsConflicting (view ctx.old) conflict }
    requires seen { s ≡ view ctx.old }
    ensures frame { ChangesAnalysis ctx.old ctx.new }
    ensures learned { IfOk result (λ level. IsLearned (view ctx.old) conflict ctx.new.analyze_conflict.clause level) }
    ensures involved { OnOk result (AreInvolved (view ctx.old) conflict ctx.new.analyze_conflict.involved) }
    ensures met { OnOk result (HasMet (view ctx.old) ctx.new.analyze_conflict) }
{
    let level = analyze_conflict(
        &mut ctx.analyze_conflict,
        &ctx.clause_alloc,
        &ctx.impl_graph,
        &ctx.trail,
        conflict,
    )?;
    count(&mut ctx.counters.conflicts, 1);
    let learned = ctx.analyze_conflict.clause().len();
    count(&mut ctx.counters.learned_literals, learned as u64);
    Ok(level)
}

/// Adds the learned clause to the proof.
fn trace_learned<A: Allocator + Copy, P: ProofTracer>(
    proof: &mut P,
    ctx: &Context<A>,
) -> Result<(), TraceError>
    requires { CanTake (P.holds proof.old) (Add ctx.now.analyze_conflict.clause ∷ []) }
    ensures { LogsLines P.takes P.breaks_off proof.old (Add ctx.now.analyze_conflict.clause ∷ []) result proof.new }
{
    let clause = ctx.analyze_conflict.clause();
    proof.add_step(&ProofStep::AtClause { clause })?;
    Ok(())
}

/// Learns from the conflict: adds the learned clause to the proof, bumps variables and clauses, backtracks, keeps the
/// clause, and makes its first literal true. The empty clause gives verdict Unsat.
fn learn_from_conflict<A: Allocator + Copy, P: ProofTracer>(
    ctx: &mut Context<A>,
    proof: &mut P,
    conflict: Conflict,
) -> Result<(), StepError>
    requires ready { IsReady ctx.old }
    requires conflict { IsConflicting (view ctx.old) conflict }
    requires unknown { ctx.old.solver_state.sat_state ≡ SatState.Unknown }
    requires holds { AdmitsFor (P.holds proof.old) (search_of (view ctx.old)) }
    ensures learned { OnOk result
        (LearnsFrom
        (λ lines. AddOne lines × TakesLines P.takes proof.old lines proof.new) conflict ctx.old ctx.new) }
    ensures ends { EndsStep result ctx.old ctx.new }
    ensures broken { IfErr result (λ error. BreaksOff P.breaks_off proof.old (step_faults error) proof.new) }
{
    let level = analyze(ctx, conflict)?;
    trace_learned(proof, ctx)?;
    bump_involved(ctx);
    bump_involved_clauses(ctx)?;
    // The glue of the learned clause is known by the levels at the conflict.
    let header = assess_learned(ctx);
    let above = ctx.trail.current_level().saturating_sub(level);
    // At this level the learned clause leaves its first literal, and no earlier propagation is lost.
    backtrack(ctx, level);
    let Some(first) = first_of(ctx.analyze_conflict.clause()) else {
        ctx.solver_state.sat_state = SatState::Unsat;
        return Ok(());
    };
    let reason = keep_learned(ctx, header)?;
    enqueue_assignment(
        &mut ctx.assignment,
        &mut ctx.impl_graph,
        &mut ctx.trail,
        first,
        reason,
    )?;
    ctx.counters.count_learned(header.glue(), above);
    Ok(())
}

/// At level 0 propagates what is left to be propagated, proves the units and simplifies the clauses. Where a clause is
/// false, it is returned and no clause is simplified. Fails where it is out of memory or the tracer fails.
pub fn simplify_root<A: Allocator + Copy, P: ProofTracer>(
    ctx: &mut Context<A>,
    proof: &mut P,
) -> Result<Result<(), Conflict>, TraceError>
    requires ready { IsReady ctx.old }
    requires undecided { ctx.old.trail.decisions ≡ [] }
    requires holds { AdmitsFor (P.holds proof.old) (search_of (view ctx.old)) }
    // Simplification relies on the unit clauses, so that their lines come first.
    ensures goes_on { IfOk result
        (λ end. SimplifiesRootByLines (λ lines. TakesLines P.takes proof.old lines proof.new) ctx.old ctx.new end) }
    ensures settled { IfOk result (λ end. MatchResult end (λ _. IsRootSimplified (view ctx.new)) (λ _. Unit {0})) }
    ensures conflict { IfOk result
        (λ end. MatchResult end (λ _. Unit {0}) (λ conflict. IsConflicting (view ctx.new) conflict)) }
    // A clause that is false before is found.
    ensures finds { IfOk result (λ end. (c : Conflict) → IsConflicting (view ctx.old) c → end ≢ Ok tt) }
    ensures at_zero { OnOk result (ctx.new.trail.decisions ≡ []) }
    ensures frame { ChangesRootSimplified ctx.old ctx.new }
    ensures broken { IfErr result (λ error. BreaksOff P.breaks_off proof.old (faults_of error) proof.new) }
{
    let propagated = propagate_counted(ctx)?;
    prove_units(ctx, proof)?;
    if let Err(conflict) = propagated {
        return Ok(Err(conflict));
    }
    unit_simplify(ctx, proof)?;
    Ok(Ok(()))
}

/// Whether at level 0 literals are still to be propagated.
pub fn is_root_unpropagated<A: Allocator + Copy>(ctx: &Context<A>) -> bool
    requires { IsReady ctx.now }
    ensures { IsTrue result ↔ IsRootUnpropagated (view ctx.now) }
{
    ctx.trail.current_level() == 0 && !ctx.trail.fully_propagated()
}

/// Settles the units of level 0, as `simplify_root`. Nothing happens at another level, nor where nothing is left to be
/// propagated.
fn simplify_root_if_unpropagated<A: Allocator + Copy, P: ProofTracer>(
    ctx: &mut Context<A>,
    proof: &mut P,
) -> Result<Result<(), Conflict>, TraceError>
    requires ready { IsReady ctx.old }
    requires holds { AdmitsFor (P.holds proof.old) (search_of (view ctx.old)) }
    ensures goes_on { IfOk result
        (λ end. SimplifiesRootIfUnpropagated (λ lines. TakesLines P.takes proof.old lines proof.new) ctx.old ctx.new end) }
    ensures stays { IfOk result (λ end. (IsRootUnpropagated (view ctx.old) → ⊥) → (ctx.new ≡ ctx.old) × (end ≡ Ok tt)) }
    ensures finds { IfOk result
        (λ end. ctx.old.trail.decisions ≡ [] → (c : Conflict) → IsConflicting (view ctx.old) c → end ≢ Ok tt) }
    ensures at_zero { IfOk result (λ end. end ≢ Ok tt → ctx.new.trail.decisions ≡ []) }
    ensures conflict { IfOk result
        (λ end. MatchResult end (λ _. Unit {0}) (λ conflict. IsConflicting (view ctx.new) conflict)) }
    ensures frame { ChangesRootSimplified ctx.old ctx.new }
    ensures broken { IfErr result (λ error. BreaksOff P.breaks_off proof.old (faults_of error) proof.new) }
{
    if !is_root_unpropagated(ctx) {
        return Ok(Ok(()));
    }
    let end = simplify_root(ctx, proof)?;
    Ok(end)
}

/// Tells the proof the core of assumptions that fail.
fn trace_core<A: Allocator + Copy, P: ProofTracer>(
    proof: &mut P,
    ctx: &Context<A>,
) -> Result<(), TraceError>
    requires { CanFail (P.holds proof.old) ctx.now.assumptions.failed_core }
    ensures taken { OnOk result (P.takes proof.old (Fails ctx.now.assumptions.failed_core ∷ []) proof.new) }
    ensures broken { IfErr result (λ error. BreaksOff P.breaks_off proof.old (faults_of error) proof.new) }
{
    let failed_core = ctx.assumptions.failed_core();
    proof.add_step(&ProofStep::FailedAssumptions { failed_core })?;
    Ok(())
}

/// Finds a conflict and learns from it, or finds a model or that assumptions fail.
fn find_and_learn<A: Allocator + Copy, P: ProofTracer>(
    ctx: &mut Context<A>,
    proof: &mut P,
) -> Result<(), StepError>
    requires ready { IsReady ctx.old }
    requires unknown { ctx.old.solver_state.sat_state ≡ SatState.Unknown }
    requires holds { AdmitsFor (P.holds proof.old) (search_of (view ctx.old)) }
    ensures made { OnOk result (MakesStep
        (λ lines. AddOneIfUnknown lines ctx.new × TakesStep P.takes proof.old lines (outcome_at ctx.new) proof.new)
        ctx.old ctx.new) }
    ensures core { OnOk result (HasCoreIfFailed ctx.new) }
    ensures fixed { OnOk result
        ((IsRootUnpropagated (view ctx.old) → ⊥) → IsNotUnsat ctx.new → KeepsFixed (view ctx.old) (view ctx.new)) }
    ensures ends { EndsStep result ctx.old ctx.new }
    ensures broken { IfErr result (λ error. BreaksOff P.breaks_off proof.old (step_faults error) proof.new) }
{
    match find_conflict(ctx)? {
        Ok(()) => ctx.solver_state.sat_state = SatState::Sat,
        Err(FoundConflict::Assumption) => {
            trace_core(proof, ctx)?;
            ctx.solver_state.sat_state = SatState::UnsatUnderAssumptions;
        }
        Err(FoundConflict::Conflict(conflict)) => learn_from_conflict(ctx, proof, conflict)?,
    }
    Ok(())
}

/// Makes one step: simplifies the root level, then finds a conflict and learns from it, or finds a model or that
/// assumptions fail. A step that learns raises the rank of the trail, so that there are only finitely many of them.
/// Fails where it is out of memory, the clause store is full or the tracer fails.
pub fn conflict_step<A: Allocator + Copy, P: ProofTracer>(
    ctx: &mut Context<A>,
    proof: &mut P,
) -> Result<(), StepError>
    requires ready { IsReady ctx.old }
    requires unknown { ctx.old.solver_state.sat_state ≡ SatState.Unknown }
    // The tracer may hold what fits the search.
    requires holds { AdmitsFor (P.holds proof.old) (search_of (view ctx.old)) }
    // It took the lines of the step, and then the core, where assumptions failed.
    ensures made { OnOk result
        (SimplifiesAndSteps
        (λ lines. TakesStep P.takes proof.old lines (outcome_at ctx.new) proof.new) ctx.old ctx.new) }
    ensures core { OnOk result (HasCoreIfFailed ctx.new) }
    ensures fixes { OnOk result (FixesByLearning ctx.old ctx.new) }
    ensures ends { EndsStep result ctx.old ctx.new }
    ensures broken { IfErr result (λ error. BreaksOff P.breaks_off proof.old (step_faults error) proof.new) }
{
    match simplify_root_if_unpropagated(ctx, proof)? {
        Ok(()) => find_and_learn(ctx, proof)?,
        Err(conflict) => learn_from_conflict(ctx, proof, conflict)?,
    }
    Ok(())
}
