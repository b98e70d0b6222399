//! Calls of the store that no search makes: a clause and its header that are lent, a deletion that is tried, and the marks of a
//! tier.
ghost use Rattle.varisat_clause.specs.Databases.{Tracks};
ghost use Rattle.varisat_clause.specs.Stores.{IsSound};

use std::alloc::Global;
use varisat_clause::alloc::ClauseAlloc;
use varisat_clause::db::{ClauseDb, add_clause, try_delete_clause};
use varisat_clause::header::{ClauseHeader, Tier};
use varisat_clause::reduce::{clear_marks, dedup_and_mark_by_tier};
use varisat_literals::lits;

/// Makes the first clause active through its header, if there is one.
fn activate(alloc: &mut ClauseAlloc<Global>)
    requires { IsSound alloc.old }
    ensures { IsSound alloc.new }
{
    if alloc.len() == 0 {
        return;
    }
    let cref = alloc.place(0);
    let mut header = alloc.header_mut(cref);
    header.set_active(true);
}

/// Negates the first literal of the first clause, if there is one.
fn negate_first(alloc: &mut ClauseAlloc<Global>)
    requires { IsSound alloc.old }
    ensures { IsSound alloc.new }
{
    if alloc.len() == 0 {
        return;
    }
    let cref = alloc.place(0);
    let mut clause = alloc.clause_mut(cref);
    let literals = clause.lits_mut();
    if literals.len() > 0 {
        let first = literals[0];
        literals[0] = !first;
    }
}

/// The number of the first clause's first literal, and whether the clause is active, deleted and marked.
type Seen = Option<(Option<isize>, [bool; 3])>;

fn seen(alloc: &ClauseAlloc<Global>) -> Seen
    requires { IsSound alloc.now }
{
    if alloc.len() == 0 {
        return None;
    }
    let clause = alloc.clause(alloc.place(0));
    let header = clause.header();
    let first = clause.lits().first().map(|lit| lit.to_dimacs());
    Some((first, [header.active(), header.deleted(), header.mark()]))
}

/// Tries to delete the first clause, unless it is deleted.
fn try_delete(alloc: &mut ClauseAlloc<Global>, db: &mut ClauseDb<Global>) -> Option<bool>
    requires { Tracks db.old alloc.old }
    ensures { Tracks db.new alloc.new }
{
    if alloc.len() == 0 || alloc.header(alloc.place(0)).deleted() {
        return None;
    }
    let cref = alloc.place(0);
    Some(try_delete_clause(alloc, db, cref, false))
}

/// Marks the clauses of the user alone.
fn mark(alloc: &mut ClauseAlloc<Global>, db: &mut ClauseDb<Global>)
    requires { Tracks db.old alloc.old }
    ensures { Tracks db.new alloc.new }
{
    clear_marks(alloc);
    dedup_and_mark_by_tier(alloc, db, Tier::Irred);
}

/// What is seen of a clause of three literals that is changed, once its tier is marked, and once it is deleted.
fn seen_in_turn(alloc: &mut ClauseAlloc<Global>, db: &mut ClauseDb<Global>) -> [Seen; 2]
    requires { Tracks db.old alloc.old }
{
    let _ = add_clause(alloc, db, ClauseHeader::new(), &lits![1, 2, 3]);
    mark(alloc, db);
    let marked = seen(alloc);
    let _ = try_delete(alloc, db);
    activate(alloc);
    negate_first(alloc);
    [marked, seen(alloc)]
}

fn seen_in_new(rt_alloc: Global) -> [Seen; 2] {
    let mut alloc = ClauseAlloc::new_in(rt_alloc);
    let mut db = ClauseDb::new_in(rt_alloc);
    let seen = seen_in_turn(&mut alloc, &mut db);
    drop(alloc);
    drop(db);
    seen
}

#[test]
fn lent_clauses_are_changed(rt: HostRuntime) {
    let marked = Some((Some(1), [false, false, true]));
    let changed = Some((Some(-1), [true, true, true]));
    assert!(rt; seen_in_new(rt.alloc()) == [marked, changed]);
}
