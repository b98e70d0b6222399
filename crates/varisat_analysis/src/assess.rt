//! Tiers of learned clauses by their glue, and what a conflict does to the clauses that took part in it.
ghost use Rattle.std.specs.Prelude.{◌≡◌, true, OnOk, OnErr};
ghost use Rattle.varisat_theory.specs.promises.Membership.{◌∈◌};
ghost use Rattle.varisat_clause.specs.Stored.{IsClauseRef};
ghost use Rattle.varisat_clause.specs.Stores.{stored_clauses, IsSound, RewritesHeaderAt};
ghost use Rattle.varisat_clause.specs.ClauseActivities.{scored, RewritesScored};
ghost use Rattle.varisat_clause.specs.Databases.{Tracks};
ghost use Rattle.varisat_clause.specs.Collected.{live_clauses};
ghost use Rattle.varisat_prop.specs.Changes.{NamesPlace};
ghost use Rattle.varisat_analysis.specs.Bumps.{literals_among};
ghost use Rattle.varisat_analysis.specs.HeaderChanges.{SameButHeaders};
ghost use Rattle.varisat_analysis.specs.Assessments.{glue_of, glue_at, tier_by_glue, assessed, improved, clause_bumped, clauses_bumped, CanBump, CanCount};

use crate::glue::compute_glue;
use std::alloc::{AllocError, Allocator};
use varisat_clause::activity::{ClauseActivity, bump_clause_activity};
use varisat_clause::db::{ClauseDb, set_clause_tier};
use varisat_clause::header::{ClauseHeader, Tier};
use varisat_literals::Lit;
use varisat_prop::clause::{ClauseAlloc, ClauseRef};
use varisat_prop::prop::{Conflict, ImplGraph};

/// The highest glue of a clause of the tier Core.
const CORE_GLUE: usize = 2;

/// The highest glue of a clause of the tier Mid.
const MID_GLUE: usize = 6;

/// The tier of a clause of the glue that may be deleted.
fn tier_by_glue(glue: usize) -> Tier
    ensures { result ≡ tier_by_glue glue }
{
    if glue <= CORE_GLUE {
        Tier::Core
    } else if glue <= MID_GLUE {
        Tier::Mid
    } else {
        Tier::Local
    }
}

/// The header of a learned clause, by the levels at its conflict.
pub fn assess_learned_clause<A: Allocator + Copy>(
    flags: &mut [bool],
    impl_graph: &ImplGraph<A>,
    lits: &[Lit],
) -> ClauseHeader
    requires { CanCount impl_graph.now.nodes.items lits.now flags.old }
    ensures header { result ≡ assessed (glue_of impl_graph.now.nodes.items lits.now) }
    ensures flags { flags.new ≡ flags.old }
{
    let glue = compute_glue(flags, impl_graph, lits);
    let mut header = ClauseHeader::new();
    header.set_glue(glue);
    header.set_tier(tier_by_glue(glue));
    header
}

/// Where the clause may be deleted and a higher glue than its own is noted, notes its own and moves it to its tier. The
/// levels of a clause of the user are not counted. A refused growth changes nothing.
fn improve_glue<A: Allocator + Copy>(
    alloc: &mut ClauseAlloc<A>,
    db: &mut ClauseDb<A>,
    flags: &mut [bool],
    impl_graph: &ImplGraph<A>,
    cref: ClauseRef,
) -> Result<(), AllocError>
    requires { CanBump impl_graph.now.nodes.items alloc.old db.old flags.old cref }
    ensures improved { OnOk result
        (RewritesHeaderAt alloc.old alloc.new cref (improved (glue_at impl_graph.now.nodes.items alloc.old cref))) }
    ensures refused { OnErr result (alloc.new ≡ alloc.old) }
    ensures refused_too { OnErr result (db.new ≡ db.old) }
    ensures flags { flags.new ≡ flags.old }
    ensures tracks { Tracks db.new alloc.new }
{
    let header = alloc.header(cref);
    if !header.redundant() {
        return Ok(());
    }
    let glue = compute_glue(flags, impl_graph, alloc.lits(cref));
    if glue >= header.glue() {
        return Ok(());
    }
    set_clause_tier(alloc, db, cref, tier_by_glue(glue))?;
    let mut header = alloc.header(cref);
    header.set_glue(glue);
    alloc.set_header(cref, header);
    Ok(())
}

/// Says that the clause is active.
fn set_active<A: Allocator + Copy>(alloc: &mut ClauseAlloc<A>, cref: ClauseRef)
    requires sound { IsSound alloc.old }
    requires place { IsClauseRef (stored_clauses alloc.old) cref }
    ensures { RewritesHeaderAt alloc.old alloc.new cref (λ header. record header { active = true }) }
{
    let mut header = alloc.header(cref);
    header.set_active(true);
    alloc.set_header(cref, header);
}

/// The clause takes part in a conflict: it becomes active, its activity is raised, and where it may be deleted and its
/// glue is lower now than noted, it takes that glue and its tier. A refused growth changes nothing.
pub fn bump_clause<A: Allocator + Copy>(
    alloc: &mut ClauseAlloc<A>,
    db: &mut ClauseDb<A>,
    activity: &mut ClauseActivity,
    flags: &mut [bool],
    impl_graph: &ImplGraph<A>,
    cref: ClauseRef,
) -> Result<(), AllocError>
    requires { CanBump impl_graph.now.nodes.items alloc.old db.old flags.old cref }
    ensures bumped { OnOk result
        (RewritesScored alloc.old alloc.new activity.old (clause_bumped impl_graph.now.nodes.items cref)) }
    ensures scale { OnOk result
        (activity.new ≡ (clause_bumped impl_graph.now.nodes.items cref (scored alloc.old activity.old)).scale) }
    ensures refused { OnErr result (alloc.new ≡ alloc.old) }
    ensures refused_too { OnErr result (db.new ≡ db.old) }
    ensures unscaled { OnErr result (activity.new ≡ activity.old) }
    ensures flags { flags.new ≡ flags.old }
    ensures tracks { Tracks db.new alloc.new }
{
    improve_glue(alloc, db, flags, impl_graph, cref)?;
    set_active(alloc, cref);
    bump_clause_activity(alloc, activity, cref);
    Ok(())
}

/// Each named clause of the store takes part in a conflict, in turn. The only error is out of memory.
pub fn bump_named<A: Allocator + Copy>(
    alloc: &mut ClauseAlloc<A>,
    db: &mut ClauseDb<A>,
    activity: &mut ClauseActivity,
    flags: &mut [bool],
    impl_graph: &ImplGraph<A>,
    names: &[Conflict],
) -> Result<(), AllocError>
    requires tracks { Tracks db.old alloc.old }
    requires named { (f : Conflict) → f ∈ names.now → NamesPlace (live_clauses alloc.old) f }
    requires count { CanCount impl_graph.now.nodes.items (literals_among (live_clauses alloc.old) names.now) flags.old }
    ensures bumped { OnOk result
        (RewritesScored alloc.old alloc.new activity.old (clauses_bumped impl_graph.now.nodes.items names.now)) }
    ensures scale { OnOk result
        (activity.new ≡ (clauses_bumped impl_graph.now.nodes.items names.now (scored alloc.old activity.old)).scale) }
    ensures headers { SameButHeaders (live_clauses alloc.old) (live_clauses alloc.new) }
    ensures flags { flags.new ≡ flags.old }
    ensures tracks { Tracks db.new alloc.new }
{
    for name in names {
        let Conflict::Long(cref) = name else {
            continue;
        };
        bump_clause(alloc, db, activity, flags, impl_graph, *cref)?;
    }
    Ok(())
}
