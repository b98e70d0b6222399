//! Assumptions: literals that are taken as true. They are decided first, one level each.
ghost use Rattle.std.specs.Prelude.{◌≡◌, ◌<◌, ◌*◌, [], length, replicate, slice_get, false, OnOk, IfOk};
ghost use Rattle.std.specs.List.{swap_remove};
ghost use Rattle.varisat_theory.specs.promises.Membership.{◌∈◌};
ghost use Rattle.varisat_theory.specs.promises.Literals.{opposite};
ghost use Rattle.varisat_theory.specs.promises.Propagation.{IsComplete};
ghost use Rattle.varisat_prop.specs.Parts.{IsMadeTrue};
ghost use Rattle.varisat_prop.specs.Looks.{IsInRange};
ghost use Rattle.varisat_prop.specs.View.{View, WellFormed, kept};
ghost use Rattle.varisat_analysis.specs.Learned.{Shows};
ghost use Rattle.varisat_analysis.specs.FailedCores.{ListsFailedCore};
ghost use Rattle.varisat_search.specs.Contexts.{view, IsReady};
ghost use Rattle.varisat_search.specs.Frames.{ChangesAssumed, ChangesCore, GoesForward, HoldsOrUnchanged, KeepsScheduleAndVariables};
ghost use Rattle.varisat_search.specs.Steps.{IsPropagatedToEnd, SavesAll};
ghost use Rattle.varisat_search.specs.Decisions.{AreDecidable};
ghost use Rattle.varisat_search.specs.Seen.{search_of};
ghost use Rattle.varisat_search.specs.AssumptionParts.{no_assumptions, newly_assumed, with_levels_to, assumed_state, TakesOutImplied, TakesOutTrue, IsNextAssumption, ComesToNext};
ghost use Rattle.varisat_search.specs.TakenOut.{AreImpliedBefore};

use crate::context::Context;
use crate::decision::decide_lit;
use crate::levels::full_restart;
use crate::literals::copied;
use std::alloc::{AllocError, Allocator};
use std::marker::Model;
use varisat_analysis::failed_core::analyze_assumption_conflict;
use varisat_analysis::tmp::TmpFlags;
use varisat_literals::Lit;
use varisat_prop::clause::ClauseAlloc;
use varisat_prop::prop::{Assignment, ImplGraph, Trail};

/// The assumptions of a search, and for how many of them there is a level.
#[derive(Drop)]
pub struct Assumptions<A: Allocator + Copy> {
    /// Those that were not found to be implied by the clauses and the others.
    working: Vec<Lit, A>,
    levels: usize,
    failed_core: Vec<Lit, A>,
    /// All of them, as the user names them.
    user: Vec<Lit, A>,
    user_core: Vec<Lit, A>,
}

impl<A: Allocator + Copy> Model for Assumptions<A> {
    ghost use Rattle.varisat_search.specs.AssumptionParts.{AssumptionParts};

    ghost Value = { AssumptionParts };

    ghost view = { λ a. record {
      working = a.working.items;
      levels = a.levels;
      failed_core = a.failed_core.items;
      user = a.user.items;
      user_core = a.user_core.items;
    } };
}

impl<A: Allocator + Copy> Assumptions<A> {
    /// No assumptions. It takes no memory.
    pub fn new_in(alloc: A) -> Assumptions<A>
        ensures { result ≡ no_assumptions }
    {
        Assumptions {
            working: Vec::new(alloc),
            levels: 0,
            failed_core: Vec::new(alloc),
            user: Vec::new(alloc),
            user_core: Vec::new(alloc),
        }
    }

    /// The assumptions that were not found to be implied by the clauses and the others.
    pub fn assumptions(&self) -> &[Lit]
        ensures { result.now ≡ self.now.working }
    {
        self.working.as_slice()
    }

    /// How many levels there are for assumptions. They are the first ones.
    pub fn assumption_levels(&self) -> usize
        ensures { result ≡ self.now.levels }
    {
        self.levels
    }

    /// The core that was found last: some of the assumptions, which can't be true together. Empty if none was found.
    pub fn failed_core(&self) -> &[Lit]
        ensures { result.now ≡ self.now.failed_core }
    {
        self.failed_core.as_slice()
    }

    /// The assumptions as they were given, and as the user names them.
    pub fn user_assumptions(&self) -> &[Lit]
        ensures { result.now ≡ self.now.user }
    {
        self.user.as_slice()
    }

    /// The core as the user names it, where it was set.
    pub fn user_failed_core(&self) -> &[Lit]
        ensures { result.now ≡ self.now.user_core }
    {
        self.user_core.as_slice()
    }

    /// Keeps a core as the user names it. A refused growth changes nothing.
    pub fn set_user_failed_core(&mut self, core: &[Lit]) -> Result<(), AllocError>
        ensures { HoldsOrUnchanged result (self.new ≡ record self.old { user_core = core.now }) self.old self.new }
    {
        let core = copied(*self.user_core.allocator(), core)?;
        self.user_core = core;
        Ok(())
    }

    /// Notes that no level is left. `levels::full_restart` comes to this by `lower_levels`; it is for a caller that
    /// undoes all decisions in another way, before the assumptions change.
    pub fn full_restart(&mut self)
        ensures { self.new ≡ record self.old { levels = 0 } }
    {
        self.levels = 0;
    }

    /// Notes that no levels are left but the first ones.
    pub fn lower_levels(&mut self, level: usize)
        ensures { self.new ≡ with_levels_to level self.old }
    {
        if level < self.levels {
            self.levels = level;
        }
    }

    /// Replaces the assumptions, none of which has a level yet.
    fn set(&mut self, user: Vec<Lit, A>, working: Vec<Lit, A>)
        ensures { self.new ≡ newly_assumed user.items working.items }
    {
        self.working = working;
        self.levels = 0;
        self.failed_core.clear();
        self.user = user;
        self.user_core.clear();
    }

    /// The assumption that is decided at the level after this one, if there is one.
    fn assumption(&self, level: usize) -> Option<Lit>
        ensures { result ≡ slice_get self.now.working level }
    {
        self.working.get(level).copied()
    }

    /// Takes an assumption out of the list, in which the last one takes its place.
    fn take_out(&mut self, place: usize)
        requires { place < length self.old.working }
        ensures { self.new ≡ record self.old { working = swap_remove self.old.working place 0 } }
    {
        let _ = self.working.swap_remove(place);
    }

    /// Notes how many levels there are for assumptions.
    fn set_levels(&mut self, levels: usize)
        ensures { self.new ≡ record self.old { levels = levels } }
    {
        self.levels = levels;
    }

    /// Finds a core that has the assumption, which is false.
    fn find_core(
        &mut self,
        flags: &mut TmpFlags<A>,
        clause_alloc: &ClauseAlloc<A>,
        impl_graph: &ImplGraph<A>,
        trail: &Trail<A>,
        failed: Lit,
    ) -> Result<(), AllocError>
        ghost s: { View }
        requires shows { Shows s clause_alloc.now impl_graph.now.nodes.items trail.now }
        requires well { WellFormed s }
        requires false_now { opposite failed ∈ s.trail }
        requires flags { flags.old.flags.items ≡ replicate (2 * length s.values) false }
        ensures frame { (self.new ≡ record self.old { failed_core = self.new.failed_core })
            × (flags.new.flags.items ≡ flags.old.flags.items) }
        ensures core { OnOk result (ListsFailedCore s failed self.new.failed_core) }
    {
        let core = &mut self.failed_core;
        analyze_assumption_conflict(core, flags, clause_alloc, impl_graph, trail, failed)?;
        Ok(())
    }
}

/// What comes of the next assumption.
#[derive(Clone, Copy, Debug, PartialEq, Eq)]
pub enum EnqueueAssumption {
    /// Each assumption has a level, or is implied.
    Done,
    /// It was decided.
    Enqueued,
    /// It is false, and a core was found.
    Conflict,
}

/// Replaces the assumptions, which `user` lists as the user names them, and undoes all decisions. The verdict is known
/// no more, unless it was Unsat. A refused growth changes nothing.
pub fn set_assumptions<A: Allocator + Copy>(
    ctx: &mut Context<A>,
    user: &[Lit],
    lits: &[Lit],
) -> Result<(), AllocError>
    requires ready { IsReady ctx.old }
    requires in_range { IsInRange ctx.old.assignment.current lits.now }
    requires decidable { AreDecidable (view ctx.old) ctx.old.vsids lits.now }
    ensures ready { OnOk result (IsReady ctx.new) }
    ensures assumed { HoldsOrUnchanged result (ctx.new.assumptions ≡ newly_assumed user.now lits.now) ctx.old ctx.new }
    ensures seen { OnOk result (search_of (view ctx.new) ≡ search_of (view ctx.old)) }
    ensures keeps { KeepsScheduleAndVariables result ctx.old ctx.new }
    ensures last { OnOk result (SavesAll (view ctx.old) ctx.old.assignment.last ctx.new.assignment.last) }
    ensures state { OnOk result
        (ctx.new.solver_state
        ≡ record ctx.old.solver_state { sat_state = assumed_state ctx.old.solver_state.sat_state }) }
    ensures undecided { OnOk result (ctx.new.trail.decisions ≡ []) }
{
    let alloc = *ctx.assumptions.working.allocator();
    let user = copied(alloc, user)?;
    let working = copied(alloc, lits)?;
    full_restart(ctx);
    ctx.assumptions.set(user, working);
    ctx.solver_state.assume();
    Ok(())
}

/// Takes the level's assumption out as long as it is true, and returns the one that isn't, if any is left.
fn next_assumption<A: Allocator + Copy>(
    assumptions: &mut Assumptions<A>,
    assignment: &Assignment<A>,
    level: usize,
) -> Option<Lit>
    requires in_range { IsInRange assignment.now.current assumptions.old.working }
    ensures taken { TakesOutTrue assignment.now.current level assumptions.old assumptions.new }
    ensures next { IsNextAssumption assignment.now.current level assumptions.new.working result }
{
    'implied: while let Some(lit) = assumptions.assumption(level) {
        if !assignment.lit_is_true(lit) {
            return Some(lit);
        }
        assumptions.take_out(level);
    }
    None
}

/// Finds a core that has the assumption, which is false.
fn find_failed_core<A: Allocator + Copy>(
    ctx: &mut Context<A>,
    failed: Lit,
) -> Result<(), AllocError>
    ghost s: { View }
    requires ready { IsReady ctx.old }
    requires false_now { IsMadeTrue ctx.old.assignment.current (opposite failed) }
    requires seen { s ≡ view ctx.old }
    ensures frame { ChangesCore ctx.old ctx.new }
    ensures core { OnOk result (ListsFailedCore (view ctx.old) failed ctx.new.assumptions.failed_core) }
{
    ctx.assumptions.find_core(
        &mut ctx.tmp_flags,
        &ctx.clause_alloc,
        &ctx.impl_graph,
        &ctx.trail,
        failed,
    )?;
    Ok(())
}

/// Decides the next assumption. One that is true already is taken out: the clauses and the earlier ones imply it. Where
/// one is false a core is found. Propagation has come to its end before.
pub fn enqueue_assumption<A: Allocator + Copy>(
    ctx: &mut Context<A>,
) -> Result<EnqueueAssumption, AllocError>
    requires ready { IsReady ctx.old }
    requires complete { IsComplete (kept (view ctx.old)) ctx.old.trail.literals }
    requires propagated { IsPropagatedToEnd (view ctx.old) }
    ensures ready { OnOk result (IsReady ctx.new) }
    ensures taken { OnOk result (TakesOutImplied (view ctx.old) ctx.old.assumptions ctx.new.assumptions) }
    // What was taken out is implied by the assumptions before its place alone.
    ensures before { OnOk result (AreImpliedBefore (view ctx.old) ctx.old.assumptions ctx.new.assumptions) }
    ensures next { IfOk result (λ next. ComesToNext (view ctx.old) (view ctx.new) ctx.new.assumptions next) }
    ensures forward { OnOk result (GoesForward ctx.old ctx.new) }
    ensures frame { ChangesAssumed ctx.old ctx.new }
{
    let level = ctx.trail.current_level();
    let Some(lit) = next_assumption(&mut ctx.assumptions, &ctx.assignment, level) else {
        return Ok(EnqueueAssumption::Done);
    };
    if ctx.assignment.lit_is_false(lit) {
        find_failed_core(ctx, lit)?;
        return Ok(EnqueueAssumption::Conflict);
    }
    decide_lit(ctx, lit)?;
    ctx.assumptions.set_levels(ctx.trail.current_level());
    Ok(EnqueueAssumption::Enqueued)
}
