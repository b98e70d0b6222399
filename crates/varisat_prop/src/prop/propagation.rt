//! Unit propagation over the queue of the trail.
ghost use Rattle.std.specs.Prelude.{◌≡◌, ◌<◌, true, false, [], length, OnOk, IfOk};
ghost use Rattle.varisat_theory.specs.promises.Membership.{◌∈◌, IsDistinct};
ghost use Rattle.varisat_theory.specs.promises.Literals.{Literal, Clause, opposite};
ghost use Rattle.varisat_clause.specs.Stored.{literals_of};
ghost use Rattle.varisat_clause.specs.Stores.{IsSound};
ghost use Rattle.varisat_clause.specs.Collected.{live_clauses};
ghost use Rattle.varisat_clause.specs.Shapes.{KeepsShapes};
ghost use Rattle.varisat_prop.specs.View.{view_of, WellFormed};
ghost use Rattle.varisat_prop.specs.Watches.{watches_of, IsWatching, IsPropagated};
ghost use Rattle.varisat_prop.specs.QueueSteps.{IsNext, EndsPropagation, IsNextPropagated, IsFullyPropagated, PartsPropagate, PartsGoOn};

use crate::binary::BinaryClauses;
use crate::clause::ClauseAlloc;
use crate::prop::assignment::Assignment;
use crate::prop::binary::propagate_binary;
use crate::prop::graph::{Conflict, ImplGraph};
use crate::prop::long::propagate_long;
use crate::prop::trail::Trail;
use crate::prop::watch::Watchlists;
use std::alloc::{AllocError, Allocator};
use varisat_clause::iter::clauses_iter;
use varisat_literals::Lit;

/// How far behind the queue's head the literal stands whose lists are prefetched.
const AHEAD: usize = 3;

/// Fills the watch lists anew from the first two literals of each clause, where they are off.
pub fn enable_watchlists<A: Allocator + Copy>(
    watchlists: &mut Watchlists<A>,
    alloc: &ClauseAlloc<A>,
) -> Result<(), AllocError>
    requires sound { IsSound alloc.now }
    requires within { (c : Clause) → c ∈ literals_of (live_clauses alloc.now) → (l : Literal) → l ∈ c →
        opposite l < length watchlists.old.lists }
    requires distinct { (c : Clause) → c ∈ literals_of (live_clauses alloc.now) → IsDistinct c }
    requires empty { watchlists.old.enabled ≡ false → (x : Literal) → watches_of watchlists.old x ≡ [] }
    ensures enabled { OnOk result (watchlists.new.enabled ≡ true) }
    ensures count { OnOk result (length watchlists.new.lists ≡ length watchlists.old.lists) }
    ensures same { OnOk result (watchlists.old.enabled ≡ true → watchlists.new ≡ watchlists.old) }
    ensures watching { OnOk result
        (watchlists.old.enabled ≡ false → IsWatching watchlists.new (live_clauses alloc.now)) }
{
    if watchlists.enabled() {
        return Ok(());
    }
    watchlists.enable();
    for cref in clauses_iter(alloc) {
        watchlists.watch_clause(cref, alloc.lits(cref))?;
    }
    Ok(())
}

/// Makes true what the clauses imply by the literal, the first of the queue: those of two literals first.
fn propagate_lit<A: Allocator + Copy>(
    assignment: &mut Assignment<A>,
    alloc: &mut ClauseAlloc<A>,
    graph: &mut ImplGraph<A>,
    trail: &mut Trail<A>,
    binary: &BinaryClauses<A>,
    watchlists: &mut Watchlists<A>,
    lit: Lit,
) -> Result<Result<(), Conflict>, AllocError>
    requires { IsNext watchlists.old (view_of alloc.old binary.now assignment.old trail.old graph.old) lit }
    ensures goes { OnOk result
        (PartsGoOn alloc.old alloc.new binary.now assignment.old assignment.new trail.old trail.new
        graph.old graph.new watchlists.new) }
    ensures ends { IfOk result
        (EndsPropagation IsNextPropagated (view_of alloc.new binary.now assignment.new trail.new graph.new)) }
{
    if let Err(conflict) = propagate_binary(assignment, alloc, graph, trail, binary, lit)? {
        return Ok(Err(conflict));
    }
    propagate_long(assignment, alloc, graph, trail, binary, watchlists, lit)
}

/// Reads where the lists of the literal stand that is a few places behind the queue's head.
// On large formulas a search waits for that a tenth of its time, where it is read only once the literal is the head.
#[inline(always)]
fn prefetch_lists<A: Allocator + Copy>(
    trail: &Trail<A>,
    binary: &BinaryClauses<A>,
    watchlists: &mut Watchlists<A>,
)
    ensures { watchlists.new ≡ watchlists.old }
{
    let place = trail.propagated_count().saturating_add(AHEAD);
    if let Some(lit) = trail.trail().get(place) {
        let read = binary.prefetch(*lit);
        watchlists.prefetch(*lit, read);
    }
}

/// Makes true what the clauses imply, until a clause is false or nothing more is implied. Up to the queue's head
/// propagation must have come to its end. It has so afterwards too, where at a conflict the head may stay behind.
pub fn propagate<A: Allocator + Copy>(
    assignment: &mut Assignment<A>,
    alloc: &mut ClauseAlloc<A>,
    graph: &mut ImplGraph<A>,
    trail: &mut Trail<A>,
    binary: &BinaryClauses<A>,
    watchlists: &mut Watchlists<A>,
) -> Result<Result<(), Conflict>, AllocError>
    requires well { WellFormed (view_of alloc.old binary.now assignment.old trail.old graph.old) }
    requires propagated { IsPropagated watchlists.old
        (view_of alloc.old binary.now assignment.old trail.old graph.old) }
    // Each literal that was added has a clause as its reason, whose other literals are false and stand before it.
    ensures propagates { OnOk result
        (PartsPropagate alloc.old alloc.new binary.now assignment.old assignment.new trail.old trail.new
        graph.old graph.new) }
    ensures propagated { OnOk result
        (IsPropagated watchlists.new (view_of alloc.new binary.now assignment.new trail.new graph.new)) }
    // At a conflict all literals of the named clause are false. Else no clause is false, none leaves a literal that
    // isn't true, and each literal was propagated.
    ensures ends { IfOk result
        (EndsPropagation IsFullyPropagated (view_of alloc.new binary.now assignment.new trail.new graph.new)) }
    ensures last { OnOk result (assignment.new.last ≡ assignment.old.last) }
    // Each clause of the store, also a deleted one, keeps its place, its header and its number of literals.
    ensures store { OnOk result (KeepsShapes alloc.old alloc.new) }
{
    enable_watchlists(watchlists, alloc)?;
    'queue: while let Some(lit) = trail.queue_head() {
        prefetch_lists(trail, binary, watchlists);
        match propagate_lit(assignment, alloc, graph, trail, binary, watchlists, lit)? {
            // The literal counts as propagated only now: after a conflict it is looked at again.
            Ok(()) => {
                trail.pop_queue();
            }
            Err(conflict) => return Ok(Err(conflict)),
        }
    }
    Ok(Ok(()))
}
