//! The collection of the words of deleted clauses in a search.
ghost use Rattle.std.specs.Prelude.{◌≡◌, false, OnOk};
ghost use Rattle.varisat_clause.specs.Stores.{stored_clauses};
ghost use Rattle.varisat_clause.specs.Collected.{IsCollected};
ghost use Rattle.varisat_analysis.specs.Collections.{Repacks};
ghost use Rattle.varisat_search.specs.Contexts.{view, IsReady};
ghost use Rattle.varisat_search.specs.DueReductions.{IsCollectionDue, CollectsIfDue, NoLines, Inprocesses};
ghost use Rattle.varisat_search.specs.Frames.{ChangesPlaces, HoldsOrUnchanged};

use crate::context::Context;
use std::alloc::{AllocError, Allocator};
use varisat_analysis::reasons::repoint_reasons;
use varisat_clause::collect::{collected, is_collection_due};
use varisat_schedule::counters::count;

/// Moves the clauses that are not deleted to a new store, in which they stand one after another. Reasons follow, and
/// the watch lists are switched off, since they name clauses by their old places. A refused growth changes nothing.
fn collect<A: Allocator + Copy>(ctx: &mut Context<A>) -> Result<(), AllocError>
    requires { IsReady ctx.old }
    ensures collected { HoldsOrUnchanged result
        (IsCollected ctx.new.clause_alloc ctx.new.clause_db (stored_clauses ctx.old.clause_alloc)) ctx.old ctx.new }
    ensures repacks { OnOk result (Repacks (view ctx.old) (view ctx.new)) }
    ensures off { OnOk result (ctx.new.watchlists.enabled ≡ false) }
    ensures ready { OnOk result (IsReady ctx.new) }
    ensures frame { ChangesPlaces ctx.old ctx.new }
{
    let (new_alloc, new_db) = collected(&ctx.clause_alloc, &ctx.clause_db)?;
    repoint_reasons(
        &ctx.assignment,
        &ctx.clause_alloc,
        &mut ctx.impl_graph,
        &new_alloc,
    );
    ctx.clause_alloc = new_alloc;
    ctx.clause_db = new_db;
    ctx.watchlists.disable();
    count(&mut ctx.counters.collections, 1);
    Ok(())
}

/// Collects the garbage where it is more than half of the store's words, which switches the watch lists off, and else
/// changes nothing, as where a growth was refused.
pub fn collect_garbage<A: Allocator + Copy>(ctx: &mut Context<A>) -> Result<(), AllocError>
    requires { IsReady ctx.old }
    ensures collects { HoldsOrUnchanged result (CollectsIfDue ctx.old ctx.new) ctx.old ctx.new }
    ensures inprocesses { OnOk result (Inprocesses (λ lines x y. CollectsIfDue x y) NoLines ctx.old ctx.new) }
    ensures off { OnOk result (IsCollectionDue ctx.old → ctx.new.watchlists.enabled ≡ false) }
    ensures ready { OnOk result (IsReady ctx.new) }
    ensures frame { ChangesPlaces ctx.old ctx.new }
{
    if !is_collection_due(&ctx.clause_alloc, &ctx.clause_db) {
        return Ok(());
    }
    collect(ctx)?;
    Ok(())
}
