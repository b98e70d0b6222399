//! Backtracking to an earlier level.
ghost use Rattle.std.specs.Prelude.{◌≡◌, []};
ghost use Rattle.varisat_prop.specs.View.{WellFormed};
ghost use Rattle.varisat_search.specs.Contexts.{view};
ghost use Rattle.varisat_search.specs.Decisions.{HasActivities};
ghost use Rattle.varisat_search.specs.ContextChanges.{BacktracksTo};

use crate::context::Context;
use std::alloc::Allocator;

/// Undoes the levels above the given one, as `backtrack`. Where variables wait, those of activity 0 are decided in the
/// order of their numbers from then on.
fn undo<A: Allocator + Copy>(ctx: &mut Context<A>, level: usize, waits: bool)
    requires well { WellFormed (view ctx.old) }
    requires entries { HasActivities (view ctx.old) ctx.old.vsids }
    ensures { BacktracksTo level ctx.old ctx.new }
{
    if level >= ctx.trail.current_level() {
        return;
    }
    let end = ctx.trail.level_end(level);
    for place in end..ctx.trail.trail().len() {
        let lit = ctx.trail.trail()[place];
        ctx.assignment.release_lit(lit);
        ctx.vsids.release(lit.var(), waits);
    }
    ctx.trail.truncate(level);
    ctx.assumptions.lower_levels(level);
}

/// Undoes the levels above the given one, remembers the values that variables lose, and makes these variables available
/// again. Nothing happens where it isn't below the current one. What is left counts as propagated: propagation had come
/// to its end before the first undone decision. Assumptions lose their levels with the others.
pub fn backtrack<A: Allocator + Copy>(ctx: &mut Context<A>, level: usize)
    requires well { WellFormed (view ctx.old) }
    requires entries { HasActivities (view ctx.old) ctx.old.vsids }
    ensures { BacktracksTo level ctx.old ctx.new }
{
    undo(ctx, level, false);
}

/// Undoes all decisions, remembers the values that variables lose, and makes these variables available again. Those
/// that took part in no conflict are decided in the order of their numbers from then on: near numbers have their
/// clauses and lists at near places, so that the search for what comes next waits less for memory.
pub fn full_restart<A: Allocator + Copy>(ctx: &mut Context<A>)
    requires well { WellFormed (view ctx.old) }
    requires entries { HasActivities (view ctx.old) ctx.old.vsids }
    ensures undone { BacktracksTo 0 ctx.old ctx.new }
    ensures undecided { ctx.new.trail.decisions ≡ [] }
{
    undo(ctx, 0, true);
}

/// Begins the search anew: undoes all decisions but those of assumptions, remembers the values that variables lose, and
/// makes these variables available again.
pub fn restart<A: Allocator + Copy>(ctx: &mut Context<A>)
    requires well { WellFormed (view ctx.old) }
    requires entries { HasActivities (view ctx.old) ctx.old.vsids }
    ensures { BacktracksTo ctx.old.assumptions.levels ctx.old ctx.new }
{
    let level = ctx.assumptions.assumption_levels();
    backtrack(ctx, level);
}
