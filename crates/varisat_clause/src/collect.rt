//! The collection of the words of deleted clauses.
ghost use Rattle.std.specs.Prelude.{◌≡◌, ◌+◌, ◌*◌, ◌<◌, length, ◌↔◌, IsTrue, IfOk, OnOk, OnErr, true, false};
ghost use Rattle.varisat_clause.specs.Stored.{IsClauseRef};
ghost use Rattle.varisat_clause.specs.Stores.{stored_clauses, clause_of, IsSound};
ghost use Rattle.varisat_clause.specs.Databases.{Tracks};
ghost use Rattle.varisat_clause.specs.Collected.{PacksClause, IsCollected};

use crate::alloc::{ClauseAlloc, ClauseRef};
use crate::db::{ClauseDb, add_clause};
use std::alloc::{AllocError, Allocator};

/// Whether more than half of the words are garbage.
pub fn is_collection_due<A: Allocator + Copy>(alloc: &ClauseAlloc<A>, db: &ClauseDb<A>) -> bool
    ensures { IsTrue result ↔ (length alloc.now.words < 2 * db.now.garbage) }
{
    db.garbage() > alloc.buffer_size() / 2
}

/// Adds the clause to the other store without its mark, unless it is deleted.
fn copy_clause<A: Allocator + Copy>(
    alloc: &ClauseAlloc<A>,
    cref: ClauseRef,
    new_alloc: &mut ClauseAlloc<A>,
    new_db: &mut ClauseDb<A>,
) -> Result<(), AllocError>
    requires sound { IsSound alloc.now }
    requires place { IsClauseRef (stored_clauses alloc.now) cref }
    requires tracks { Tracks new_db.old new_alloc.old }
    ensures copied { OnOk result ((clause_of alloc.now cref).header.deleted ≡ false →
        PacksClause new_alloc.old new_alloc.new (clause_of alloc.now cref)) }
    ensures passed_over { (clause_of alloc.now cref).header.deleted ≡ true → new_alloc.new ≡ new_alloc.old }
    ensures tracks { Tracks new_db.new new_alloc.new }
{
    let mut header = alloc.header(cref);
    if header.deleted() {
        return Ok(());
    }
    header.set_mark(false);
    match add_clause(new_alloc, new_db, header, alloc.lits(cref)) {
        Ok(_) => Ok(()),
        Err(_) => Err(AllocError),
    }
}

/// A new store and its database with the clauses that are not deleted, in order and without their marks, one after
/// another. The i-th of them is the i-th that is not deleted here. The only error is out of memory.
pub fn collected<A: Allocator + Copy>(
    alloc: &ClauseAlloc<A>,
    db: &ClauseDb<A>,
) -> Result<(ClauseAlloc<A>, ClauseDb<A>), AllocError>
    requires tracks { Tracks db.now alloc.now }
    ensures { IfOk result (λ new. IsCollected new.0 new.1 (stored_clauses alloc.now)) }
{
    let allocator = alloc.allocator();
    // As much again is free, so that the store does not grow at the next clause.
    let words = (alloc.buffer_size() - db.garbage()) * 2;
    let mut new_alloc = ClauseAlloc::with_capacity(allocator, words)?;
    let mut new_db = ClauseDb::new_in(allocator);
    'clauses: for index in 0..alloc.len() {
        copy_clause(alloc, alloc.place(index), &mut new_alloc, &mut new_db)?;
    }
    Ok((new_alloc, new_db))
}

/// Collects the garbage where it is more than half of the words, and says whether it did. All places may be others
/// then. A refused growth changes nothing.
pub fn collect_garbage<A: Allocator + Copy>(
    alloc: &mut ClauseAlloc<A>,
    db: &mut ClauseDb<A>,
) -> Result<bool, AllocError>
    requires tracks { Tracks db.old alloc.old }
    ensures due { IfOk result (λ done. IsTrue done ↔ (length alloc.old.words < 2 * db.old.garbage)) }
    ensures collected { IfOk result (λ done. done ≡ true → IsCollected alloc.new db.new (stored_clauses alloc.old)) }
    ensures kept { IfOk result (λ done. done ≡ false → alloc.new ≡ alloc.old) }
    ensures kept_too { IfOk result (λ done. done ≡ false → db.new ≡ db.old) }
    ensures refused { OnErr result (alloc.new ≡ alloc.old) }
    ensures refused_too { OnErr result (db.new ≡ db.old) }
{
    if !is_collection_due(alloc, db) {
        return Ok(false);
    }
    let (new_alloc, new_db) = collected(alloc, db)?;
    *alloc = new_alloc;
    *db = new_db;
    Ok(true)
}
