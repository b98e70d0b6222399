//! Watch lists from which watches go whose clauses went.
ghost use Rattle.std.specs.Prelude.{◌<◌, ◌≤◌, length};
ghost use Rattle.varisat_theory.specs.promises.Membership.{◌∈◌};
ghost use Rattle.varisat_theory.specs.promises.Literals.{Literal};
ghost use Rattle.varisat_clause.specs.Stored.{IsClauseRef};
ghost use Rattle.varisat_clause.specs.Stores.{stored_clauses, IsSound};
ghost use Rattle.varisat_clause.specs.Collected.{live_clauses};
ghost use Rattle.varisat_prop.specs.declared.prop.watch_list.Watch.{Watch};
ghost use Rattle.varisat_prop.specs.Watches.{watches_of};
ghost use Rattle.varisat_search.specs.MendedLists.{IsMended, AreMended, MendsLists};

use std::alloc::Allocator;
use varisat_clause::alloc::ClauseAlloc;
use varisat_literals::Lit;
use varisat_prop::prop::{Watch, WatchList, Watchlists};

/// One of the first two literals, the first if it is another one than this.
fn other_watched(lits: &[Lit], lit: Lit) -> Lit
    requires { 2 ≤ length lits.now }
    ensures { result ∈ lits.now }
{
    if lits[0] == lit { lits[1] } else { lits[0] }
}

/// What is left of a watch of the literal: nothing where its clause is deleted, else the other watched literal is its
/// blocking one.
fn mended_watch<A: Allocator + Copy>(
    watch: Watch,
    lit: Lit,
    clause_alloc: &ClauseAlloc<A>,
) -> Option<Watch>
    requires sound { IsSound clause_alloc.now }
    requires place { IsClauseRef (stored_clauses clause_alloc.now) watch.cref }
    ensures { IsMended (live_clauses clause_alloc.now) watch result }
{
    let cref = watch.cref;
    if clause_alloc.header(cref).deleted() {
        return None;
    }
    let blocking = other_watched(clause_alloc.lits(cref), !lit);
    Some(Watch { cref, blocking })
}

/// Takes the watches of deleted clauses out of the literal's list.
fn mend_list<A: Allocator + Copy>(list: &mut WatchList<A>, lit: Lit, clause_alloc: &ClauseAlloc<A>)
    requires sound { IsSound clause_alloc.now }
    requires places { (w : Watch) → w ∈ list.old → IsClauseRef (stored_clauses clause_alloc.now) w.cref }
    ensures { AreMended (live_clauses clause_alloc.now) list.old list.new }
{
    let mut write = 0;
    let mut read = 0;
    'watches: while read < list.as_slice().len() {
        let watch = list.as_slice()[read];
        read += 1;
        let Some(mended) = mended_watch(watch, lit, clause_alloc) else {
            continue;
        };
        list.set(write, mended);
        write += 1;
    }
    list.truncate(write);
}

/// Takes the watches of deleted clauses out of the lists of these literals, of which equal ones are neighbours.
pub fn mend_lists<A: Allocator + Copy>(
    watchlists: &mut Watchlists<A>,
    lits: &[Lit],
    clause_alloc: &ClauseAlloc<A>,
)
    requires sound { IsSound clause_alloc.now }
    requires listed { (l : Literal) → l ∈ lits.now → l < length watchlists.old.lists }
    requires places { (x : Literal) (w : Watch) → w ∈ watches_of watchlists.old x →
        IsClauseRef (stored_clauses clause_alloc.now) w.cref }
    ensures { MendsLists (live_clauses clause_alloc.now) lits.now watchlists.old watchlists.new }
{
    'literals: for place in 0..lits.len() {
        let lit = lits[place];
        // It was mended just now.
        if place > 0 && lits[place - 1] == lit {
            continue;
        }
        let mut list = watchlists.take_list(lit);
        mend_list(&mut list, lit, clause_alloc);
        watchlists.put_list(lit, list);
    }
}
