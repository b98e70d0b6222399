//! Simplification by the literals of level 0: they become unit clauses, and the kept clauses lose what these say.
ghost use Rattle.std.specs.Prelude.{◌≡◌, ◌≢◌, ◌<◌, ◌↔◌, ◌++◌, IsTrue, None, [], length, slice_index_or, OnOk, IfOk, IfErr};
ghost use Rattle.std.specs.List.Sorted.{IsPermutation};
ghost use Rattle.varisat_theory.specs.promises.Membership.{◌∈◌};
ghost use Rattle.varisat_theory.specs.promises.Literals.{Literal, variable_of};
ghost use Rattle.varisat_theory.specs.inside.StepLaws.{unit_lines};
ghost use Rattle.varisat_prop.specs.Looks.{IsInRange};
ghost use Rattle.varisat_prop.specs.Simplified.{without_assigned};
ghost use Rattle.varisat_search.specs.Contexts.{view, IsReady};
ghost use Rattle.varisat_search.specs.Frames.{ChangesSimplified, HoldsOrUnchanged};
ghost use Rattle.varisat_search.specs.Decisions.{SameDecidable};
ghost use Rattle.varisat_search.specs.Progress.{ProvesTo};
ghost use Rattle.varisat_search.specs.Seen.{search_of};
ghost use Rattle.varisat_search.specs.RootSimplified.{CanSimplify};
ghost use Rattle.varisat_search.specs.ProvedUnits.{units_in, implied_units, HaveUnits, ProvesUnits};
ghost use Rattle.varisat_steps.specs.Traces.{TakesLines, BreaksOff, faults_of, CanTake, AdmitsFor};
ghost use Rattle.varisat_search.specs.Simplifications.{IsSimplified, pair_lines, clause_lines, IsLeftOpen, LeavesOpen, NotesWatches};

use crate::context::Context;
use crate::mend::mend_lists;
use crate::replace::{add_pairs, replace_clause};
use crate::trace::{copy_unassigned, trace_pairs, trace_stored, trace_units};
use std::alloc::{AllocError, Allocator};
use varisat_analysis::clause_literals::is_satisfied;
use varisat_clause::alloc::{ClauseAlloc, ClauseRef};
use varisat_clause::filter::{ClauseFilter, filter_clauses};
use varisat_literals::Lit;
use varisat_prop::prop::{Assignment, ImplGraph, Reason};
use varisat_steps::{ProofTracer, TraceError};

/// Notes of the literals' variables that no clause is their reason.
fn forget_reasons<A: Allocator + Copy>(impl_graph: &mut ImplGraph<A>, lits: &[Lit])
    requires { (l : Literal) → l ∈ lits.now → variable_of l < length impl_graph.old.nodes.items }
    ensures { HaveUnits lits.now impl_graph.old.nodes.items impl_graph.new.nodes.items }
{
    for lit in lits {
        impl_graph.update_reason(lit.var(), Reason::Unit);
    }
}

/// Proves the literals of level 0: each that a clause implied is added to the proof as a unit clause, oldest first, and
/// needs no other clause from now on. Returns whether there are literals. Above level 0 nothing changes, and the result is
/// false. Fails where the tracer is out of memory or fails; then the search stays as it was.
pub fn prove_units<A: Allocator + Copy, P: ProofTracer>(
    ctx: &mut Context<A>,
    proof: &mut P,
) -> Result<bool, TraceError>
    requires ready { IsReady ctx.old }
    requires holds { AdmitsFor (P.holds proof.old) (search_of (view ctx.old)) }
    ensures found { IfOk result
        (λ found. IsTrue found ↔ ((ctx.old.trail.decisions ≡ []) × (0 < length ctx.old.trail.literals))) }
    ensures proved { HoldsOrUnchanged result
        (ctx.old.trail.decisions ≡ [] → ProvesUnits (view ctx.old) (view ctx.new)) ctx.old ctx.new }
    ensures proves { OnOk result
        (ctx.old.trail.decisions ≡ [] → ProvesTo (unit_lines (implied_units (view ctx.old))) ctx.old ctx.new) }
    ensures takes { OnOk result
        (ctx.old.trail.decisions ≡ [] →
        TakesLines P.takes proof.old (unit_lines (implied_units (view ctx.old))) proof.new) }
    ensures stays { 0 < length ctx.old.trail.decisions → (ctx.new ≡ ctx.old) × (proof.new ≡ proof.old) }
    ensures ready { OnOk result (IsReady ctx.new) }
    ensures frame { ctx.new ≡ record ctx.old { impl_graph = ctx.new.impl_graph } }
    ensures broken { IfErr result (λ error. BreaksOff P.breaks_off proof.old (faults_of error) proof.new) }
{
    if ctx.trail.current_level() > 0 {
        return Ok(false);
    }
    trace_units(proof, &ctx.impl_graph, ctx.trail.trail())?;
    forget_reasons(&mut ctx.impl_graph, ctx.trail.trail());
    Ok(!ctx.trail.trail().is_empty())
}

/// Whether a literal of the clause has a value.
fn has_assigned<A: Allocator + Copy>(assignment: &Assignment<A>, lits: &[Lit]) -> bool
    requires { IsInRange assignment.now.current lits.now }
    ensures { IsTrue result
        ↔ ((l : Literal) × (l ∈ lits.now) × (slice_index_or assignment.now.current (variable_of l) None ≢ None)) }
{
    for lit in lits {
        if !assignment.lit_is_unk(*lit) {
            return true;
        }
    }
    false
}

/// Takes satisfied clauses and false literals out of a store, and gathers the clauses of which two literals are left.
#[derive(Drop)]
struct UnitFilter<'a, A: Allocator + Copy> {
    assignment: &'a Assignment<A>,
    left: Vec<Lit, A>,
    pairs: Vec<[Lit; 2], A>,
    /// Whose watch lists name a clause that goes or becomes shorter.
    watching: Vec<Lit, A>,
}

impl<'a, A: Allocator + Copy> UnitFilter<'a, A> {
    /// Makes equal ones neighbours of the literals whose watch lists are to be mended.
    fn sort_watching(&mut self)
        ensures { IsPermutation self.old.watching.items self.new.watching.items }
    {
        self.watching.sort_unstable();
    }
}

impl<'a, A: Allocator + Copy> ClauseFilter<A> for UnitFilter<'a, A> {
    type Error = AllocError;

    ghost accepts = { λ filter k. IsLeftOpen filter.assignment.now.current k.literals };

    ghost leaves = { λ filter k j after. (after.assignment ≡ filter.assignment)
        × LeavesOpen filter.assignment.now.current k j filter.pairs.items after.pairs.items
        × NotesWatches filter.assignment.now.current k filter.watching.items after.watching.items };

    fn filter(&mut self, alloc: &mut ClauseAlloc<A>, cref: ClauseRef) -> Result<bool, AllocError> {
        let lits = alloc.lits(cref);
        // Most clauses stay as they are, which costs one look at their literals and no copy.
        if !has_assigned(self.assignment, lits) {
            return Ok(true);
        }
        self.watching.push(!lits[0])?;
        self.watching.push(!lits[1])?;
        if is_satisfied(self.assignment, lits) {
            return Ok(false);
        }
        copy_unassigned(&mut self.left, self.assignment, lits)?;
        let stays = replace_clause(alloc, cref, &self.left, &mut self.pairs)?;
        Ok(stays)
    }
}

/// Takes out the clauses of two literals of which one has a value: at level 0 after complete propagation, where each
/// literal of the trail is a unit, each of them is satisfied. The proof deletes them in the order of their lists, each with
/// the literal of the smaller code first. Fails where the tracer is out of memory or fails; then the search stays as it was.
pub fn simplify_binary<A: Allocator + Copy, P: ProofTracer>(
    ctx: &mut Context<A>,
    proof: &mut P,
) -> Result<(), TraceError>
    requires can { CanSimplify ctx.old }
    requires holds { AdmitsFor (P.holds proof.old) (search_of (view ctx.old)) }
    ensures simplified { HoldsOrUnchanged result
        (ctx.new.binary_clauses ≡ without_assigned ctx.old.assignment.current ctx.old.binary_clauses) ctx.old ctx.new }
    ensures proves { OnOk result (ProvesTo (pair_lines (view ctx.old)) ctx.old ctx.new) }
    ensures takes { OnOk result (TakesLines P.takes proof.old (pair_lines (view ctx.old)) proof.new) }
    ensures ready { OnOk result (IsReady ctx.new) }
    ensures frame { ctx.new ≡ record ctx.old { binary_clauses = ctx.new.binary_clauses } }
    ensures broken { IfErr result (λ error. BreaksOff P.breaks_off proof.old (faults_of error) proof.new) }
{
    // Once the lists are simplified the clauses can't be read any more.
    trace_pairs(proof, &ctx.assignment, &ctx.binary_clauses)?;
    ctx.binary_clauses.simplify(&ctx.assignment);
    Ok(())
}

/// Takes out of the store the clauses that a literal of level 0 satisfies, and from its others the false literals, once
/// the clauses of two literals are simplified. A clause of which two literals are left joins those.
fn simplify_stored<A: Allocator + Copy, P: ProofTracer>(
    ctx: &mut Context<A>,
    proof: &mut P,
) -> Result<(), TraceError>
    requires can { CanSimplify ctx.old }
    requires holds { AdmitsFor (P.holds proof.old) (search_of (view ctx.old)) }
    requires left { without_assigned ctx.old.assignment.current ctx.old.binary_clauses ≡ ctx.old.binary_clauses }
    ensures simplified { OnOk result (IsSimplified (view ctx.old) (view ctx.new)) }
    ensures proves { OnOk result (ProvesTo (clause_lines (view ctx.old)) ctx.old ctx.new) }
    ensures takes { OnOk result (TakesLines P.takes proof.old (clause_lines (view ctx.old)) proof.new) }
    ensures ready { OnOk result (IsReady ctx.new) }
    ensures decidable { OnOk result (SameDecidable (view ctx.old) ctx.old.vsids (view ctx.new) ctx.new.vsids) }
    ensures frame { ChangesSimplified ctx.old ctx.new }
    ensures broken { IfErr result (λ error. BreaksOff P.breaks_off proof.old (faults_of error) proof.new) }
{
    let alloc = *ctx.tmp_data.lits.allocator();
    // A line deletes each clause with the literals that it has before it is shortened.
    trace_stored(proof, &ctx.assignment, &ctx.clause_alloc, alloc)?;
    let mut filter = UnitFilter {
        assignment: &ctx.assignment,
        left: Vec::new(alloc),
        pairs: Vec::new(alloc),
        watching: Vec::new(alloc),
    };
    filter_clauses(&mut ctx.clause_alloc, &mut ctx.clause_db, &mut filter)?;
    add_pairs(&mut ctx.binary_clauses, &filter.pairs)?;
    filter.sort_watching();
    mend_lists(&mut ctx.watchlists, &filter.watching, &ctx.clause_alloc);
    Ok(())
}

/// Takes out the clauses that a literal of level 0 satisfies, and from the others the false literals. A clause of which
/// two literals are left joins those of two literals. The watch lists stay on where they are on. The proof deletes what
/// goes, and a clause that becomes shorter once the shorter one was added. Where it is out of memory or the tracer fails clauses may be
/// missing.
pub fn unit_simplify<A: Allocator + Copy, P: ProofTracer>(
    ctx: &mut Context<A>,
    proof: &mut P,
) -> Result<(), TraceError>
    requires can { CanSimplify ctx.old }
    requires holds { AdmitsFor (P.holds proof.old) (search_of (view ctx.old)) }
    ensures simplified { OnOk result (IsSimplified (view ctx.old) (view ctx.new)) }
    ensures proves { OnOk result (ProvesTo (pair_lines (view ctx.old) ++ clause_lines (view ctx.old)) ctx.old ctx.new) }
    ensures takes { OnOk result
        (TakesLines P.takes proof.old (pair_lines (view ctx.old) ++ clause_lines (view ctx.old)) proof.new) }
    ensures ready { OnOk result (IsReady ctx.new) }
    ensures decidable { OnOk result (SameDecidable (view ctx.old) ctx.old.vsids (view ctx.new) ctx.new.vsids) }
    ensures frame { ChangesSimplified ctx.old ctx.new }
    ensures broken { IfErr result (λ error. BreaksOff P.breaks_off proof.old (faults_of error) proof.new) }
{
    simplify_binary(ctx, proof)?;
    simplify_stored(ctx, proof)?;
    Ok(())
}
