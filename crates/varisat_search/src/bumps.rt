//! What a conflict does to the activities of variables.
ghost use Rattle.std.specs.Prelude.{◌≡◌, ◌<◌, [], length};
ghost use Rattle.varisat_search.specs.Contexts.{view, IsReady};
ghost use Rattle.varisat_search.specs.Decisions.{HasActivities};
ghost use Rattle.varisat_search.specs.Learning.{HasMet, BumpsAndDecays, decayed_further};

use crate::context::Context;
use std::alloc::Allocator;
use varisat_analysis::bumps::bump_each;
use varisat_vsids::Vsids;

// How often activities decay more, where the search is to go by what conflicts met last. With a decay of 950 thousandths a
// conflict then leaves 599 of them.
const FURTHER_DECAYS: u8 = 9;

/// How often activities decay behind the first time. At the setting 0 of `restart_glue` they do not. Else they do in focused
/// mode, where conflicts undo many levels: what they meet is of different parts of the formula then, and variables that
/// were met last are of the part that the search is at.
fn further_decays<A: Allocator + Copy>(ctx: &Context<A>) -> u8
    ensures { ctx.now.solver_config.restart_glue ≡ 0 → result ≡ 0 }
{
    if ctx.solver_config.restart_glue() == 0 {
        return 0;
    }
    if ctx.counters.is_focused() && ctx.counters.jumps_far() {
        FURTHER_DECAYS
    } else {
        0
    }
}

/// Lets activities decay so often.
fn decay_times<A: Allocator + Copy>(vsids: &mut Vsids<A>, times: u8)
    ensures decayed { vsids.new ≡ decayed_further times vsids.old }
    ensures count { length vsids.new.activity ≡ length vsids.old.activity }
{
    for done in 0..times {
        vsids.decay();
    }
}

/// Bumps each variable above level 0 of the clauses that the conflict was analysed with, once, and then lets activities
/// decay, once or by `further_decays`. Without decisions nothing happens.
pub fn bump_involved<A: Allocator + Copy>(ctx: &mut Context<A>)
    requires ready { IsReady ctx.old }
    requires met { HasMet (view ctx.old) ctx.old.analyze_conflict }
    ensures undecided { ctx.old.trail.decisions ≡ [] → ctx.new ≡ ctx.old }
    ensures bumps { 0 < length ctx.old.trail.decisions →
        BumpsAndDecays ctx.old.solver_config.restart_glue
        (view ctx.old) ctx.old.analyze_conflict.involved ctx.old.vsids ctx.new.vsids }
    ensures entries { HasActivities (view ctx.new) ctx.new.vsids }
    ensures frame { ctx.new
        ≡ record ctx.old {
          vsids =
              record ctx.old.vsids { activity = ctx.new.vsids.activity; increment = ctx.new.vsids.increment };
        } }
{
    if ctx.trail.current_level() == 0 {
        return;
    }
    bump_each(&mut ctx.vsids, ctx.analyze_conflict.met());
    ctx.vsids.decay();
    let times = further_decays(ctx);
    decay_times(&mut ctx.vsids, times);
}
