//! Tiers of learned clauses by their glue, and what a conflict does to the clauses that took part in it.
ghost use Rattle.std.specs.Prelude.{◌≡◌, ◌*◌, ◌<◌, [], length, replicate, false, OnOk};
ghost use Rattle.varisat_theory.specs.promises.Membership.{◌∈◌};
ghost use Rattle.varisat_theory.specs.promises.Literals.{Literal};
ghost use Rattle.varisat_clause.specs.Databases.{Tracks};
ghost use Rattle.varisat_clause.specs.Collected.{live_clauses};
ghost use Rattle.varisat_prop.specs.View.{WellFormed};
ghost use Rattle.varisat_prop.specs.Changes.{NamesPlace};
ghost use Rattle.varisat_analysis.specs.Bumps.{literals_among};
ghost use Rattle.varisat_analysis.specs.HeaderChanges.{SameButHeaders};
ghost use Rattle.varisat_analysis.specs.Assessments.{glue_of, assessed, IsAssigned};
ghost use Rattle.varisat_search.specs.Contexts.{view};
ghost use Rattle.varisat_search.specs.Frames.{ChangesBumped, ClearsFlags};
ghost use Rattle.varisat_search.specs.Learning.{BumpsStored};

use crate::context::Context;
use std::alloc::{AllocError, Allocator};
use varisat_analysis::assess::bump_named;
pub use varisat_analysis::assess::{assess_learned_clause, bump_clause};
use varisat_clause::activity::decay_clause_activities;
use varisat_clause::header::ClauseHeader;
use varisat_prop::prop::Conflict;

/// Each clause of the store that the conflict was analysed with takes part in it, and then the activities of clauses
/// decay. Without decisions nothing happens. Fails where a growth is refused.
pub fn bump_involved_clauses<A: Allocator + Copy>(ctx: &mut Context<A>) -> Result<(), AllocError>
    requires well { WellFormed (view ctx.old) }
    requires tracks { Tracks ctx.old.clause_db ctx.old.clause_alloc }
    requires clear { ctx.old.tmp_flags.flags.items ≡ replicate (2 * length ctx.old.assignment.current) false }
    requires named { (f : Conflict) → f ∈ ctx.old.analyze_conflict.involved →
        NamesPlace (live_clauses ctx.old.clause_alloc) f }
    requires assigned { (l : Literal) →
        l ∈ literals_among (live_clauses ctx.old.clause_alloc) ctx.old.analyze_conflict.involved →
        IsAssigned (view ctx.old) l }
    ensures undecided { ctx.old.trail.decisions ≡ [] → ctx.new ≡ ctx.old }
    ensures bumped { OnOk result (0 < length ctx.old.trail.decisions →
        BumpsStored ctx.old.analyze_conflict.involved ctx.old ctx.new) }
    ensures headers { SameButHeaders (live_clauses ctx.old.clause_alloc) (live_clauses ctx.new.clause_alloc) }
    ensures tracks { Tracks ctx.new.clause_db ctx.new.clause_alloc }
    ensures frame { ChangesBumped ctx.old ctx.new }
{
    if ctx.trail.current_level() == 0 {
        return Ok(());
    }
    bump_named(
        &mut ctx.clause_alloc,
        &mut ctx.clause_db,
        &mut ctx.clause_activity,
        &mut ctx.tmp_flags.flags,
        &ctx.impl_graph,
        ctx.analyze_conflict.involved(),
    )?;
    decay_clause_activities(&mut ctx.clause_alloc, &mut ctx.clause_activity);
    Ok(())
}

/// The header of the clause that analysis found, by the levels at the conflict.
pub fn assess_learned<A: Allocator + Copy>(ctx: &mut Context<A>) -> ClauseHeader
    requires well { WellFormed (view ctx.old) }
    requires clear { ctx.old.tmp_flags.flags.items ≡ replicate (2 * length ctx.old.assignment.current) false }
    requires assigned { (l : Literal) → l ∈ ctx.old.analyze_conflict.clause → IsAssigned (view ctx.old) l }
    ensures header { result ≡ assessed (glue_of ctx.old.impl_graph.nodes.items ctx.old.analyze_conflict.clause) }
    ensures frame { (ctx.new ≡ record ctx.old { tmp_flags = ctx.new.tmp_flags }) × ClearsFlags ctx.old ctx.new }
{
    assess_learned_clause(
        &mut ctx.tmp_flags.flags,
        &ctx.impl_graph,
        ctx.analyze_conflict.clause(),
    )
}
