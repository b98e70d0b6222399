//! The reductions of the redundant clauses, as far as they concern the store, and the list of a tier brought up to
//! date.
ghost use Rattle.std.specs.Prelude.{◌≡◌, ℕ, ◌+◌, ◌/◌, ◌≤◌, length, take, map, true, false, OnOk, OnErr, IfOk, not, ◌&&◌};
ghost use Rattle.std.specs.List.Sorted.{IsPermutation, IsNonDecreasingBy};
ghost use Rattle.varisat_clause.specs.Tiers.{is_tier};
ghost use Rattle.varisat_clause.specs.Stored.{IsClauseRef};
ghost use Rattle.varisat_clause.specs.Stores.{stored_clauses, clause_of, IsSound, RewritesClauses, RewritesClauseAt};
ghost use Rattle.varisat_clause.specs.Databases.{Database, tier_list, with_tier_list, Tracks};
ghost use Rattle.varisat_clause.specs.Reductions.{rank_in, places_in, is_unmarked_in, AreUnmarkedIn, marked_as, CanMarkTier, MarksTier, ListsTier, AreRanked, unmarked_places, all_deleted, ReducesLocals, mid_reduced, mids_reduced, mapped_up_to};

use crate::alloc::{ClauseAlloc, ClauseRef};
use crate::db::{ClauseDb, delete_clause, set_clause_tier};
use crate::header::{ClauseHeader, Tier};
use std::alloc::{AllocError, Allocator};

/// Whether the clause is of the tier and not deleted.
fn is_live_in(header: ClauseHeader, tier: Tier) -> bool
    ensures { result ≡ (not header.deleted && is_tier tier header.tier) }
{
    !header.deleted() && tier.index() == header.tier().index()
}

/// The clauses of the tier that are not deleted, in order. The only error is out of memory.
pub fn clauses_of_tier<A: Allocator + Copy>(
    alloc: &ClauseAlloc<A>,
    tier: Tier,
) -> Result<Vec<ClauseRef, A>, AllocError>
    requires { IsSound alloc.now }
    ensures { IfOk result (λ list. list.items ≡ places_in tier (stored_clauses alloc.now)) }
{
    let mut list = Vec::new(alloc.allocator());
    'clauses: for index in 0..alloc.len() {
        let cref = alloc.place(index);
        if !is_live_in(alloc.header(cref), tier) {
            continue;
        }
        list.push(cref)?;
    }
    Ok(list)
}

/// Marks or unmarks the clause.
fn set_mark<A: Allocator + Copy>(alloc: &mut ClauseAlloc<A>, cref: ClauseRef, mark: bool)
    requires sound { IsSound alloc.old }
    requires place { IsClauseRef (stored_clauses alloc.old) cref }
    ensures { RewritesClauseAt alloc.old alloc.new cref (marked_as mark) }
{
    let mut header = alloc.header(cref);
    header.set_mark(mark);
    alloc.set_header(cref, header);
}

/// Clears the marks of all clauses.
pub fn clear_marks<A: Allocator + Copy>(alloc: &mut ClauseAlloc<A>)
    requires { IsSound alloc.old }
    ensures cleared { RewritesClauses alloc.old alloc.new (map (marked_as false)) }
    ensures unmarked { (tier : Tier) → AreUnmarkedIn tier (stored_clauses alloc.new) }
    ensures tracks { (db : Database) → Tracks db alloc.old → Tracks db alloc.new }
{
    'clauses: for index in 0..alloc.len() {
        let cref = alloc.place(index);
        set_mark(alloc, cref, false);
    }
}

/// Marks the clause where it is of the tier, not deleted and not marked, and says whether it was.
fn mark_new<A: Allocator + Copy>(alloc: &mut ClauseAlloc<A>, cref: ClauseRef, tier: Tier) -> bool
    requires sound { IsSound alloc.old }
    requires place { IsClauseRef (stored_clauses alloc.old) cref }
    ensures new { result ≡ is_unmarked_in tier (clause_of alloc.old cref) }
    ensures marked { result ≡ true → RewritesClauseAt alloc.old alloc.new cref (marked_as true) }
    ensures kept { result ≡ false → alloc.new ≡ alloc.old }
{
    let header = alloc.header(cref);
    let is_new = is_live_in(header, tier) && !header.mark();
    if is_new {
        set_mark(alloc, cref, true);
    }
    is_new
}

/// Moves the clauses of the tier that are not deleted to the front of the list, each once, marks them, and returns how
/// many they are. Before, none of them is marked.
fn mark_listed<A: Allocator + Copy>(
    alloc: &mut ClauseAlloc<A>,
    list: &mut [ClauseRef],
    tier: Tier,
) -> usize
    requires { CanMarkTier tier alloc.old list.old }
    ensures marks { MarksTier tier alloc.old alloc.new (take result list.new) }
    ensures few { result ≤ length list.new }
{
    let mut count = 0;
    'places: for index in 0..list.len() {
        let cref = list[index];
        if !mark_new(alloc, cref, tier) {
            continue;
        }
        list[count] = cref;
        count += 1;
    }
    count
}

/// Brings the list of the tier to its clauses that are not deleted, each once, and marks them. None of them is marked
/// before, and the caller clears the marks after use. It takes no memory.
pub fn dedup_and_mark_by_tier<A: Allocator + Copy>(
    alloc: &mut ClauseAlloc<A>,
    db: &mut ClauseDb<A>,
    tier: Tier,
)
    requires tracks { Tracks db.old alloc.old }
    requires unmarked { AreUnmarkedIn tier (stored_clauses alloc.old) }
    ensures marks { MarksTier tier alloc.old alloc.new (tier_list tier db.new.lists) }
    ensures others { db.new ≡ record db.old { lists = with_tier_list tier (tier_list tier db.new.lists) db.old.lists } }
    ensures tracks { Tracks db.new alloc.new }
{
    let mut list = Vec::new(alloc.allocator());
    db.exchange_list(tier, &mut list);
    let count = mark_listed(alloc, &mut list, tier);
    list.truncate(count);
    db.exchange_list(tier, &mut list);
}

/// Orders the clauses by activity and then by place.
fn sort_by_rank<A: Allocator + Copy>(alloc: &ClauseAlloc<A>, list: &mut [ClauseRef])
    ensures permutation { IsPermutation list.old list.new }
    ensures ranked { IsNonDecreasingBy (rank_in alloc.now.words) list.new }
{
    list.sort_unstable_by_key(|cref| alloc.rank(*cref));
}

/// The Local clauses that are not deleted, the least active first, and of equally active ones the first. The only
/// error is out of memory.
pub fn ranked_locals<A: Allocator + Copy>(
    alloc: &ClauseAlloc<A>,
) -> Result<Vec<ClauseRef, A>, AllocError>
    requires { IsSound alloc.now }
    ensures listed { IfOk result (λ list. ListsTier Tier.Local (stored_clauses alloc.now) list.items) }
    ensures ranked { IfOk result (λ list. AreRanked (stored_clauses alloc.now) list.items) }
{
    let mut locals = clauses_of_tier(alloc, Tier::Local)?;
    sort_by_rank(alloc, &mut locals);
    Ok(locals)
}

/// Deletes the first clauses of the list that are not marked, as many as `count`.
pub fn delete_unmarked<A: Allocator + Copy>(
    alloc: &mut ClauseAlloc<A>,
    db: &mut ClauseDb<A>,
    list: &[ClauseRef],
    count: usize,
)
    requires tracks { Tracks db.old alloc.old }
    requires listed { ListsTier Tier.Local (stored_clauses alloc.old) list.now }
    ensures deleted { RewritesClauses alloc.old alloc.new
        (all_deleted (unmarked_places (stored_clauses alloc.old) count list.now)) }
    ensures tracks { Tracks db.new alloc.new }
{
    let mut left = count;
    'clauses: for cref in list {
        if left == 0 {
            continue;
        }
        if alloc.header(*cref).mark() {
            continue;
        }
        delete_clause(alloc, db, *cref);
        left -= 1;
    }
}

/// Deletes half of the Local clauses (rounded down), the least active first, and of equally active ones the first. One
/// that is marked is passed over: the caller marks the clauses that are reasons. A refused growth changes nothing.
pub fn reduce_locals<A: Allocator + Copy>(
    alloc: &mut ClauseAlloc<A>,
    db: &mut ClauseDb<A>,
) -> Result<(), AllocError>
    requires { Tracks db.old alloc.old }
    ensures reduced { OnOk result (ReducesLocals alloc.old alloc.new) }
    ensures refused { OnErr result (alloc.new ≡ alloc.old) }
    ensures refused_too { OnErr result (db.new ≡ db.old) }
    ensures tracks { Tracks db.new alloc.new }
{
    let locals = ranked_locals(alloc)?;
    delete_unmarked(alloc, db, &locals, locals.len() / 2);
    Ok(())
}

/// Moves the clause to the tier Local where it is of the tier Mid and not active, and clears the flag of an active one.
fn reduce_mid<A: Allocator + Copy>(
    alloc: &mut ClauseAlloc<A>,
    db: &mut ClauseDb<A>,
    cref: ClauseRef,
) -> Result<(), AllocError>
    requires tracks { Tracks db.old alloc.old }
    requires place { IsClauseRef (stored_clauses alloc.old) cref }
    ensures reduced { OnOk result (RewritesClauseAt alloc.old alloc.new cref mid_reduced) }
    ensures refused { OnErr result (alloc.new ≡ alloc.old) }
    ensures refused_too { OnErr result (db.new ≡ db.old) }
    ensures tracks { Tracks db.new alloc.new }
{
    let mut header = alloc.header(cref);
    if !is_live_in(header, Tier::Mid) {
        return Ok(());
    }
    if header.active() {
        header.set_active(false);
        alloc.set_header(cref, header);
        return Ok(());
    }
    set_clause_tier(alloc, db, cref, Tier::Local)?;
    Ok(())
}

/// Moves the Mid clauses that are not active to the tier Local, and clears the flag of the others. Where a growth was
/// refused this is done for the first clauses alone.
pub fn reduce_mids<A: Allocator + Copy>(
    alloc: &mut ClauseAlloc<A>,
    db: &mut ClauseDb<A>,
) -> Result<(), AllocError>
    requires { Tracks db.old alloc.old }
    ensures reduced { OnOk result (RewritesClauses alloc.old alloc.new mids_reduced) }
    ensures refused { OnErr result ((i : ℕ) × RewritesClauses alloc.old alloc.new (mapped_up_to mid_reduced i)) }
    ensures tracks { Tracks db.new alloc.new }
{
    'clauses: for index in 0..alloc.len() {
        let cref = alloc.place(index);
        reduce_mid(alloc, db, cref)?;
    }
    Ok(())
}
