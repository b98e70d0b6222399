//! The reductions of the learned clauses of a search.
ghost use Rattle.std.specs.Prelude.{◌≡◌, false, OnOk, OnErr, IfErr};
ghost use Rattle.varisat_search.specs.Contexts.{view, IsReady};
ghost use Rattle.varisat_search.specs.Frames.{ChangesStore, ChangesTiers};
ghost use Rattle.varisat_search.specs.DueReductions.{MarksReasons, DropsLocals, ReducesMids, KeepsSearch};
ghost use Rattle.varisat_search.specs.Seen.{search_of};
ghost use Rattle.varisat_steps.specs.Traces.{TakesLines, BreaksOff, faults_of, AdmitsFor};

use crate::context::Context;
use crate::trace::trace_deletions;
use std::alloc::{AllocError, Allocator};
use varisat_analysis::reasons::mark_reasons;
pub use varisat_analysis::reasons::{first_var, is_reason_clause};
use varisat_clause::header::Tier;
use varisat_clause::reduce;
use varisat_schedule::counters::count;
use varisat_steps::{ProofTracer, TraceError};

/// Deletes half of the clauses of the tier Local, rounded down: the least active first, and of equally active ones the
/// first. One that is the reason of its first literal is passed over. The tracer takes the deletions in this order. The
/// watch lists are switched off, since they name deleted clauses. Where it is out of memory or the tracer fails only marks
/// change, while the tracer may have taken some lines.
pub fn reduce_locals<A: Allocator + Copy, P: ProofTracer>(
    ctx: &mut Context<A>,
    proof: &mut P,
) -> Result<(), TraceError>
    requires ready { IsReady ctx.old }
    requires holds { AdmitsFor (P.holds proof.old) (search_of (view ctx.old)) }
    ensures keeps { OnOk result (KeepsSearch
        (λ lines. DropsLocals lines ctx.old ctx.new × TakesLines P.takes proof.old lines proof.new)
        ctx.old ctx.new) }
    ensures off { OnOk result (ctx.new.watchlists.enabled ≡ false) }
    ensures failed { OnErr result
        (MarksReasons ctx.old ctx.new.clause_alloc
        × (ctx.new ≡ record ctx.old { clause_alloc = ctx.new.clause_alloc })) }
    ensures frame { ChangesStore ctx.old ctx.new }
    ensures broken { IfErr result (λ error. BreaksOff P.breaks_off proof.old (faults_of error) proof.new) }
{
    mark_reasons(&ctx.assignment, &mut ctx.clause_alloc, &ctx.impl_graph);
    let locals = reduce::ranked_locals(&ctx.clause_alloc)?;
    let half = locals.len() / 2;
    // A deleted clause can't be read any more, and a tracer that fails leaves all of them.
    trace_deletions(proof, &ctx.clause_alloc, &locals, half)?;
    let before = ctx.clause_db.count_by_tier(Tier::Local);
    reduce::delete_unmarked(&mut ctx.clause_alloc, &mut ctx.clause_db, &locals, half);
    ctx.watchlists.disable();
    let left = ctx.clause_db.count_by_tier(Tier::Local);
    count(
        &mut ctx.counters.deleted_clauses,
        before.saturating_sub(left) as u64,
    );
    Ok(())
}

/// Moves the clauses of the tier Mid that are not active to the tier Local, and clears the flag of the others. Where a
/// growth was refused this is done for the first clauses alone.
pub fn reduce_mids<A: Allocator + Copy>(ctx: &mut Context<A>) -> Result<(), AllocError>
    requires { IsReady ctx.old }
    ensures reduces { OnOk result (ReducesMids ctx.old ctx.new) }
    ensures ready { OnOk result (IsReady ctx.new) }
    ensures frame { ChangesTiers ctx.old ctx.new }
{
    reduce::reduce_mids(&mut ctx.clause_alloc, &mut ctx.clause_db)?;
    Ok(())
}
