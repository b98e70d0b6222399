//! Passes over the clauses that are not deleted, in which a filter changes or deletes them.
ghost use Rattle.std.specs.Prelude.{◌≡◌, true, false, length, IfOk, OnOk, OnErr};
ghost use Rattle.varisat_theory.specs.promises.Membership.{◌∈◌};
ghost use Rattle.varisat_clause.specs.Stored.{StoredClause, IsClauseRef};
ghost use Rattle.varisat_clause.specs.Stores.{stored_clauses, clause_of, IsSound};
ghost use Rattle.varisat_clause.specs.Databases.{is_live, Tracks};
ghost use Rattle.varisat_clause.specs.Filters.{Alters, left_if, FiltersAt, Filters, StopsWithin};

use crate::alloc::{ClauseAlloc, ClauseRef};
use crate::db::{ClauseDb, delete_clause};
use std::alloc::Allocator;

/// What decides of each clause whether it stays, and may change it before: its literals, their number, its header but
/// for the tier and the flag deleted.
pub trait ClauseFilter<A: Allocator + Copy> {
    /// Why it comes to no decision.
    type Error;

    /// What it asks of a clause.
    ghost accepts: { Self → StoredClause → Type 0 };

    /// What it may leave of a clause, and itself after that.
    ghost leaves: { Self → StoredClause → StoredClause → Self → Type 0 };

    /// Whether the clause, which is not deleted, stays. An error changes no clause.
    fn filter(&mut self, alloc: &mut ClauseAlloc<A>, cref: ClauseRef) -> Result<bool, Self::Error>
        requires sound { IsSound alloc.old }
        requires place { IsClauseRef (stored_clauses alloc.old) cref }
        requires live { (clause_of alloc.old cref).header.deleted ≡ false }
        requires accepted { accepts self.old (clause_of alloc.old cref) }
        ensures altered { OnOk result (Alters alloc.old alloc.new cref) }
        ensures left { IfOk result
            (λ stays. leaves self.old (clause_of alloc.old cref) (left_if stays (clause_of alloc.new cref)) self.new) }
        ensures accepts_more { OnOk result ((k : StoredClause) → accepts self.old k → accepts self.new k) }
        ensures refused { OnErr result (alloc.new ≡ alloc.old) };
}

/// Lets the filter come to a clause that is not deleted, and deletes it unless it stays.
fn filter_clause<A: Allocator + Copy, F: ClauseFilter<A>>(
    alloc: &mut ClauseAlloc<A>,
    db: &mut ClauseDb<A>,
    cref: ClauseRef,
    filter: &mut F,
) -> Result<(), F::Error>
    requires tracks { Tracks db.old alloc.old }
    requires place { IsClauseRef (stored_clauses alloc.old) cref }
    requires live { (clause_of alloc.old cref).header.deleted ≡ false }
    requires accepted { F.accepts filter.old (clause_of alloc.old cref) }
    ensures changed { OnOk result (FiltersAt F.leaves filter.old filter.new alloc.old alloc.new cref) }
    ensures accepts_more { OnOk result ((k : StoredClause) → F.accepts filter.old k → F.accepts filter.new k) }
    ensures refused { OnErr result (alloc.new ≡ alloc.old) }
    ensures tracks { Tracks db.new alloc.new }
{
    let stays = filter.filter(alloc, cref)?;
    if stays {
        return Ok(());
    }
    delete_clause(alloc, db, cref);
    Ok(())
}

/// Lets the filter come to the clauses that are not deleted, in order, and deletes those of which it says that they do
/// not stay. An error of the filter ends the pass: the clauses behind stay as they are.
pub fn filter_clauses<A: Allocator + Copy, F: ClauseFilter<A>>(
    alloc: &mut ClauseAlloc<A>,
    db: &mut ClauseDb<A>,
    filter: &mut F,
) -> Result<(), F::Error>
    requires tracks { Tracks db.old alloc.old }
    requires accepted { (k : StoredClause) → k ∈ stored_clauses alloc.old → is_live k ≡ true → F.accepts filter.old k }
    ensures filtered { OnOk result
        (Filters F.leaves filter.old (stored_clauses alloc.old) (stored_clauses alloc.new) filter.new) }
    ensures stopped { OnErr result
        (StopsWithin F.leaves filter.old (stored_clauses alloc.old) (stored_clauses alloc.new)) }
    ensures size { length alloc.new.words ≡ length alloc.old.words }
    ensures tracks { Tracks db.new alloc.new }
{
    'clauses: for index in 0..alloc.len() {
        let cref = alloc.place(index);
        if alloc.header(cref).deleted() {
            continue;
        }
        filter_clause(alloc, db, cref, filter)?;
    }
    Ok(())
}
