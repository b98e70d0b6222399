//! Propagation of long clauses.
ghost use Rattle.std.specs.Prelude.{◌≡◌, ◌<◌, ◌≤◌, ◌+◌, ◌-◌, ◌++◌, length, take, drop, OnOk, IfOk, MatchOption};
ghost use Rattle.varisat_theory.specs.promises.Literals.{opposite};
ghost use Rattle.varisat_clause.specs.Stored.{IsClauseRef, literals_at};
ghost use Rattle.varisat_clause.specs.Stores.{IsSound};
ghost use Rattle.varisat_clause.specs.Collected.{live_clauses};
ghost use Rattle.varisat_prop.specs.Parts.{IsMadeTrue};
ghost use Rattle.varisat_prop.specs.View.{view_of};
ghost use Rattle.varisat_prop.specs.Looks.{IsInRange};
ghost use Rattle.varisat_prop.specs.Watches.{with_watches, literal_in, IsWatchedBy, IsRearranged};
ghost use Rattle.varisat_prop.specs.Visits.{IsPair, HasNoOther, HasOther, IsFound};
ghost use Rattle.varisat_prop.specs.QueueSteps.{IsNext, EndsPropagation, WatchesHoldNext, IsWatchOf, IsReorderedAt, PartsPropagate, PartsKeep, PartsGoOn, PartsVisit};

use crate::binary::BinaryClauses;
use crate::clause::{ClauseAlloc, ClauseRef};
use crate::prop::assignment::Assignment;
use crate::prop::enqueue::enqueue_assignment;
use crate::prop::graph::{Conflict, ImplGraph, Reason};
use crate::prop::trail::Trail;
use crate::prop::watch::Watchlists;
use crate::prop::watch_list::{Taken, Watch};
use std::alloc::{AllocError, Allocator};
use varisat_literals::Lit;

/// What a clause comes to whose watched literal became false.
#[derive(Clone, Copy, Debug)]
pub enum Found {
    /// The other watched literal, now the first, is true.
    True(Lit),
    /// The first literal, and one that isn't false and was put second.
    Other(Lit, Lit),
    /// All are false, this one being the first.
    False(Lit),
    /// All are false but this one, the first.
    Implied(Lit),
}

/// What a watch comes to.
#[derive(Clone, Copy, Debug)]
pub enum Visit {
    /// It stays, with this literal as the blocking one.
    Keep(Lit),
    /// It doesn't stay.
    Dropped,
    /// It stays, and its clause is false.
    Conflicting(Lit),
}

/// Puts the false literal, one of the first two, second, and gives the other one.
fn put_second(lits: &mut [Lit], false_lit: Lit) -> Lit
    requires long { 2 ≤ length lits.old }
    requires watched { IsWatchedBy lits.old false_lit }
    ensures rearranged { IsRearranged lits.old lits.new }
    ensures pair { IsPair lits.old result false_lit }
    ensures first { literal_in lits.new 0 ≡ result }
    ensures second { literal_in lits.new 1 ≡ false_lit }
    ensures same { literal_in lits.old 0 ≡ result → lits.new ≡ lits.old }
{
    // Which of the two it is can't be predicted, so that the other one is found by the sum of both, without a branch.
    let first = Lit::from_code(lits[0].code() + lits[1].code() - false_lit.code());
    lits[0] = first;
    lits[1] = false_lit;
    first
}

/// Puts a literal second that isn't false, where one stands behind the second.
fn find_other<A: Allocator + Copy>(lits: &mut [Lit], assignment: &Assignment<A>) -> Option<Lit>
    requires long { 2 ≤ length lits.old }
    requires within { IsInRange assignment.now.current lits.old }
    ensures rearranged { IsRearranged lits.old lits.new }
    ensures first { literal_in lits.new 0 ≡ literal_in lits.old 0 }
    ensures found { MatchOption result (HasNoOther assignment.now.current lits.old lits.new)
        (HasOther assignment.now.current lits.new) }
{
    for place in 2..lits.len() {
        let lit = lits[place];
        if !assignment.lit_is_false(lit) {
            lits.swap(1, place);
            return Some(lit);
        }
    }
    None
}

/// Brings the literals into the order in which they are watched.
fn reorder<A: Allocator + Copy>(
    lits: &mut [Lit],
    assignment: &Assignment<A>,
    false_lit: Lit,
) -> Found
    requires long { 2 ≤ length lits.old }
    requires within { IsInRange assignment.now.current lits.old }
    requires is_false { IsMadeTrue assignment.now.current (opposite false_lit) }
    requires watched { IsWatchedBy lits.old false_lit }
    ensures found { IsFound assignment.now.current lits.old lits.new false_lit result }
    ensures count { length lits.new ≡ length lits.old }
{
    let first = put_second(lits, false_lit);
    if assignment.lit_is_true(first) {
        return Found::True(first);
    }
    match find_other(lits, assignment) {
        Some(other) => Found::Other(first, other),
        None => {
            if assignment.lit_is_false(first) {
                Found::False(first)
            } else {
                Found::Implied(first)
            }
        }
    }
}

/// Brings the literals of a kept clause into the order in which they are watched.
fn reorder_clause<A: Allocator + Copy>(
    alloc: &mut ClauseAlloc<A>,
    assignment: &Assignment<A>,
    cref: ClauseRef,
    false_lit: Lit,
) -> Found
    requires sound { IsSound alloc.old }
    requires place { IsClauseRef (live_clauses alloc.old) cref }
    requires long { 2 ≤ length (literals_at (live_clauses alloc.old) cref) }
    requires within { IsInRange assignment.now.current (literals_at (live_clauses alloc.old) cref) }
    requires is_false { IsMadeTrue assignment.now.current (opposite false_lit) }
    requires watched { IsWatchedBy (literals_at (live_clauses alloc.old) cref) false_lit }
    ensures { IsReorderedAt alloc.old alloc.new assignment.now.current cref false_lit result }
{
    let lits = alloc.lits_mut(cref);
    reorder(lits, assignment, false_lit)
}

/// Looks at the clause of a watch of the literal, which became true.
#[inline(always)]
fn visit_watch<A: Allocator + Copy>(
    assignment: &mut Assignment<A>,
    alloc: &mut ClauseAlloc<A>,
    graph: &mut ImplGraph<A>,
    trail: &mut Trail<A>,
    binary: &BinaryClauses<A>,
    lists: &mut Watchlists<A>,
    lit: Lit,
    watch: Watch,
) -> Result<Visit, AllocError>
    requires { IsWatchOf lists.old (view_of alloc.old binary.now assignment.old trail.old graph.old) lit watch }
    ensures { PartsVisit alloc.old alloc.new binary.now assignment.old assignment.new trail.old trail.new
        graph.old graph.new
        lists.old lists.new lit watch result }
{
    let cref = watch.cref;
    match reorder_clause(alloc, assignment, cref, !lit) {
        Found::True(first) => Ok(Visit::Keep(first)),
        Found::Other(first, other) => {
            let moved = Watch {
                cref,
                blocking: first,
            };
            lists.add_watch(!other, moved)?;
            Ok(Visit::Dropped)
        }
        Found::False(first) => Ok(Visit::Conflicting(first)),
        Found::Implied(first) => {
            enqueue_assignment(assignment, graph, trail, first, Reason::Long(cref))?;
            Ok(Visit::Keep(first))
        }
    }
}

/// Takes out what stands from the first place on and before the second, and returns how many watches are left.
// A conflict needs it, once at the end of a propagation. It is kept out of the loop over the watches, in which its own loop
// would take registers for each watch.
#[cold]
#[inline(never)]
fn close_gap(watches: &mut [Watch], start: usize, end: usize) -> usize
    requires order { start ≤ end }
    requires within { end ≤ length watches.old }
    ensures kept { take result watches.new ≡ take start watches.old ++ drop end watches.old }
    ensures count { length watches.new ≡ length watches.old }
    ensures left { result ≡ start + (length watches.old - end) }
{
    let count = watches.len() - end;
    watches.copy_within(end.., start);
    start + count
}

/// What a visit of watches comes to.
#[derive(Drop)]
struct Visited {
    /// How many of the watches stay. They stand in front.
    kept: usize,
    end: Result<(), Conflict>,
}

/// Visits the watches of a literal, which became true. Those that stay are moved to the front as it goes.
// Most of the time of a search is spent here, so that it is compiled twice, for watches that stand in place and for others, and
// not called.
#[inline(always)]
fn visit_watches<A: Allocator + Copy>(
    assignment: &mut Assignment<A>,
    alloc: &mut ClauseAlloc<A>,
    graph: &mut ImplGraph<A>,
    trail: &mut Trail<A>,
    binary: &BinaryClauses<A>,
    watchlists: &mut Watchlists<A>,
    watches: &mut [Watch],
    lit: Lit,
) -> Result<Visited, AllocError>
    requires inside { lit < length watchlists.old.lists }
    requires next { IsNext (with_watches watchlists.old lit watches.old)
        (view_of alloc.old binary.now assignment.old trail.old graph.old) lit }
    ensures propagates { OnOk result
        (PartsPropagate alloc.old alloc.new binary.now assignment.old assignment.new trail.old trail.new
        graph.old graph.new) }
    ensures keeps { OnOk result
        (PartsKeep alloc.old alloc.new binary.now assignment.old assignment.new trail.old trail.new
        graph.old graph.new) }
    ensures next { IfOk result (λ v. IsNext (with_watches watchlists.new lit (take v.kept watches.new))
        (view_of alloc.new binary.now assignment.new trail.new graph.new) lit) }
    ensures ends { IfOk result
        (λ v. EndsPropagation WatchesHoldNext (view_of alloc.new binary.now assignment.new trail.new graph.new) v.end) }
    ensures lists { OnOk result (length watchlists.new.lists ≡ length watchlists.old.lists) }
    ensures count { length watches.new ≡ length watches.old }
    ensures within { IfOk result (λ v. v.kept ≤ length watches.old) }
{
    let mut write = 0;
    let mut read = 0;
    while read < watches.len() {
        let watch = watches[read];
        // Where the blocking literal is true the clause needs no look, and the watch stays as it is.
        if assignment.lit_is_true(watch.blocking) {
            watches[write] = watch;
            write += 1;
            read += 1;
            continue;
        }
        let cref = watch.cref;
        match visit_watch(
            assignment, alloc, graph, trail, binary, watchlists, lit, watch,
        )? {
            Visit::Dropped => {}
            Visit::Keep(blocking) => {
                watches[write] = Watch { cref, blocking };
                write += 1;
            }
            Visit::Conflicting(blocking) => {
                watches[write] = Watch { cref, blocking };
                let kept = close_gap(watches, write + 1, read + 1);
                let end = Err(Conflict::Long(cref));
                return Ok(Visited { kept, end });
            }
        }
        read += 1;
    }
    let end = Ok(());
    Ok(Visited { kept: write, end })
}

/// Makes true what the clauses imply that watch the literal, which became true.
pub fn propagate_long<A: Allocator + Copy>(
    assignment: &mut Assignment<A>,
    alloc: &mut ClauseAlloc<A>,
    graph: &mut ImplGraph<A>,
    trail: &mut Trail<A>,
    binary: &BinaryClauses<A>,
    watchlists: &mut Watchlists<A>,
    lit: Lit,
) -> Result<Result<(), Conflict>, AllocError>
    requires { IsNext watchlists.old (view_of alloc.old binary.now assignment.old trail.old graph.old) lit }
    ensures goes { OnOk result
        (PartsGoOn alloc.old alloc.new binary.now assignment.old assignment.new trail.old trail.new
        graph.old graph.new watchlists.new) }
    ensures ends { IfOk result
        (EndsPropagation WatchesHoldNext (view_of alloc.new binary.now assignment.new trail.new graph.new)) }
{
    match watchlists.watched_by_mut(lit).take() {
        Taken::Few(mut few, count) => {
            let watches = &mut few[..count];
            let visited = visit_watches(
                assignment, alloc, graph, trail, binary, watchlists, watches, lit,
            )?;
            watchlists.watched_by_mut(lit).put_few(few, visited.kept);
            Ok(visited.end)
        }
        Taken::Many(mut many) => {
            let watches = many.as_mut_slice();
            let visited = visit_watches(
                assignment, alloc, graph, trail, binary, watchlists, watches, lit,
            )?;
            many.truncate(visited.kept);
            watchlists.watched_by_mut(lit).put_many(many);
            Ok(visited.end)
        }
    }
}
