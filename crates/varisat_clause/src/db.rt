//! The database of clauses: what is noted of a store's clauses as a whole.
ghost use Rattle.std.specs.Prelude.{◌≡◌, ◌+◌, ◌<◌, ◌≤◌, ◌^◌, ◌++◌, ◌∷◌, [], length, ◌↔◌, IfOk, IfErr, OnOk, OnErr, true, false, not};
ghost use Rattle.varisat_clause.specs.Stored.{IsClauseRef, header_at, literals_at, new_clause};
ghost use Rattle.varisat_clause.specs.Stores.{stored_clauses, IsSound, RewritesHeaderAt, AddsStored};
ghost use Rattle.varisat_clause.specs.Additions.{AddsOrRefuses};
ghost use Rattle.varisat_clause.specs.Databases.{ListsByTier, Database, count_of, raised, lowered, no_lists, tier_list, with_tier_list, pushed, no_database, with_added, with_moved, with_deleted, Tracks};

use crate::alloc::{ClauseAlloc, ClauseRef, StoreError};
use crate::header::{ClauseHeader, Tier};
use std::alloc::{AllocError, Allocator};
use std::marker::Model;
use std::mem;
use varisat_literals::Lit;

/// A count for each tier.
#[derive(Clone, Copy)]
pub struct TierCounts {
    pub irred: usize,
    pub core: usize,
    pub mid: usize,
    pub local: usize,
}

impl TierCounts {
    /// The count of the tier.
    pub fn of(&self, tier: Tier) -> usize
        ensures { result ≡ count_of tier self.now }
    {
        match tier {
            Tier::Irred => self.irred,
            Tier::Core => self.core,
            Tier::Mid => self.mid,
            Tier::Local => self.local,
        }
    }

    fn raise(&mut self, tier: Tier)
        requires { count_of tier self.old < 2 ^ 32 }
        ensures { self.new ≡ raised tier self.old }
    {
        match tier {
            Tier::Irred => self.irred += 1,
            Tier::Core => self.core += 1,
            Tier::Mid => self.mid += 1,
            Tier::Local => self.local += 1,
        }
    }

    fn lower(&mut self, tier: Tier)
        requires { 0 < count_of tier self.old }
        ensures { self.new ≡ lowered tier self.old }
    {
        match tier {
            Tier::Irred => self.irred -= 1,
            Tier::Core => self.core -= 1,
            Tier::Mid => self.mid -= 1,
            Tier::Local => self.local -= 1,
        }
    }
}

/// A list of clauses for each tier.
#[derive(Drop)]
pub struct TierLists<A: Allocator + Copy> {
    irred: Vec<ClauseRef, A>,
    core: Vec<ClauseRef, A>,
    mid: Vec<ClauseRef, A>,
    local: Vec<ClauseRef, A>,
}

impl<A: Allocator + Copy> Model for TierLists<A> {
    ghost Value = { ListsByTier };

    ghost view = { λ l. record { irred = l.irred.items; core = l.core.items; mid = l.mid.items; local = l.local.items } };
}

/// Adds a clause to the store, and puts it on the list.
fn add_listed<A: Allocator + Copy>(
    alloc: &mut ClauseAlloc<A>,
    list: &mut Vec<ClauseRef, A>,
    header: ClauseHeader,
    lits: &[Lit],
) -> Result<ClauseRef, StoreError>
    requires long { 3 ≤ length lits.now }
    requires sound { IsSound alloc.old }
    ensures listed { IfOk result (λ cref. list.new.items ≡ list.old.items ++ cref ∷ []) }
    ensures kept { OnErr result (list.new.items ≡ list.old.items) }
    ensures store { AddsOrRefuses alloc.old alloc.new header lits.now result }
{
    if !alloc.has_room(lits.len()) {
        return Err(StoreError::Full);
    }
    if list.reserve(1).is_err() {
        return Err(StoreError::Memory);
    }
    let cref = alloc.add_clause(header, lits)?;
    list.push_reserved(cref);
    Ok(cref)
}

impl<A: Allocator + Copy> TierLists<A> {
    fn new_in(alloc: A) -> TierLists<A>
        ensures { result ≡ no_lists }
    {
        TierLists {
            irred: Vec::new(alloc),
            core: Vec::new(alloc),
            mid: Vec::new(alloc),
            local: Vec::new(alloc),
        }
    }

    /// Puts the clause on the tier's list. A refused growth changes nothing.
    fn push(&mut self, tier: Tier, cref: ClauseRef) -> Result<(), AllocError>
        ensures pushed { OnOk result (self.new ≡ pushed tier cref self.old) }
        ensures refused { OnErr result (self.new ≡ self.old) }
    {
        match tier {
            Tier::Irred => self.irred.push(cref)?,
            Tier::Core => self.core.push(cref)?,
            Tier::Mid => self.mid.push(cref)?,
            Tier::Local => self.local.push(cref)?,
        }
        Ok(())
    }

    /// Exchanges the list of the tier for the other one.
    fn exchange(&mut self, tier: Tier, list: &mut Vec<ClauseRef, A>)
        ensures now { self.new ≡ with_tier_list tier list.old.items self.old }
        ensures before { list.new.items ≡ tier_list tier self.old }
    {
        match tier {
            Tier::Irred => mem::swap(&mut self.irred, list),
            Tier::Core => mem::swap(&mut self.core, list),
            Tier::Mid => mem::swap(&mut self.mid, list),
            Tier::Local => mem::swap(&mut self.local, list),
        }
    }

    /// Adds a clause to the store, and puts it on the list of its tier.
    fn add_clause(
        &mut self,
        alloc: &mut ClauseAlloc<A>,
        header: ClauseHeader,
        lits: &[Lit],
    ) -> Result<ClauseRef, StoreError>
        requires long { 3 ≤ length lits.now }
        requires sound { IsSound alloc.old }
        ensures listed { IfOk result (λ cref. self.new ≡ pushed header.tier cref self.old) }
        ensures kept { OnErr result (self.new ≡ self.old) }
        ensures store { AddsOrRefuses alloc.old alloc.new header lits.now result }
    {
        match header.tier() {
            Tier::Irred => add_listed(alloc, &mut self.irred, header, lits),
            Tier::Core => add_listed(alloc, &mut self.core, header, lits),
            Tier::Mid => add_listed(alloc, &mut self.mid, header, lits),
            Tier::Local => add_listed(alloc, &mut self.local, header, lits),
        }
    }
}

/// What is noted of a store's clauses as a whole. A contract sees the counts, the garbage and the lists.
#[derive(Drop)]
pub struct ClauseDb<A: Allocator + Copy> {
    counts: TierCounts,
    garbage: usize,
    lists: TierLists<A>,
}

impl<A: Allocator + Copy> Model for ClauseDb<A> {
    ghost Value = { Database };

    ghost view = { λ d. record { counts = d.counts; garbage = d.garbage; lists = d.lists } };
}

impl<A: Allocator + Copy> ClauseDb<A> {
    /// The database of an empty store. It takes no memory.
    pub fn new_in(alloc: A) -> ClauseDb<A>
        ensures { result ≡ no_database }
    {
        ClauseDb {
            counts: TierCounts {
                irred: 0,
                core: 0,
                mid: 0,
                local: 0,
            },
            garbage: 0,
            lists: TierLists::new_in(alloc),
        }
    }

    /// How many clauses of the tier are not deleted.
    pub fn count_by_tier(&self, tier: Tier) -> usize
        ensures { result ≡ count_of tier self.now.counts }
    {
        self.counts.of(tier)
    }

    /// How many words deleted clauses take.
    pub fn garbage(&self) -> usize
        ensures { result ≡ self.now.garbage }
    {
        self.garbage
    }

    /// Exchanges the list of the tier for the other one.
    pub(crate) fn exchange_list(&mut self, tier: Tier, list: &mut Vec<ClauseRef, A>)
        ensures now { self.new ≡ record self.old { lists = with_tier_list tier list.old.items self.old.lists } }
        ensures before { list.new.items ≡ tier_list tier self.old.lists }
    {
        self.lists.exchange(tier, list);
    }

    /// Notes that the clause went from one tier to the other. A refused growth changes nothing.
    fn note_moved(&mut self, cref: ClauseRef, from: Tier, to: Tier) -> Result<(), AllocError>
        requires some { 0 < count_of from self.old.counts }
        requires small { count_of to (lowered from self.old.counts) < 2 ^ 32 }
        ensures moved { OnOk result (self.new ≡ with_moved cref from to self.old) }
        ensures refused { OnErr result (self.new ≡ self.old) }
    {
        self.lists.push(to, cref)?;
        self.counts.lower(from);
        self.counts.raise(to);
        Ok(())
    }

    /// Notes that a clause of the tier with so many literals was deleted.
    fn note_deleted(&mut self, tier: Tier, count: usize)
        requires some { 0 < count_of tier self.old.counts }
        requires small { self.old.garbage + 3 + count < 2 ^ 64 }
        ensures { self.new ≡ with_deleted tier count self.old }
    {
        self.counts.lower(tier);
        self.garbage += 3 + count;
    }
}

/// Adds a clause of three or more literals that is not deleted behind the others. `Full` where the words would be more
/// than 2^32 - 1, and `Memory` where it is out of memory; nothing is changed then.
pub fn add_clause<A: Allocator + Copy>(
    alloc: &mut ClauseAlloc<A>,
    db: &mut ClauseDb<A>,
    header: ClauseHeader,
    lits: &[Lit],
) -> Result<ClauseRef, StoreError>
    requires long { 3 ≤ length lits.now }
    requires live { header.deleted ≡ false }
    requires tracks { Tracks db.old alloc.old }
    ensures added { IfOk result (λ cref. AddsStored alloc.old alloc.new (new_clause cref header lits.now)) }
    ensures noted { IfOk result (λ cref. db.new ≡ with_added header.tier cref db.old) }
    ensures room { IfOk result (λ cref. length alloc.old.words + 3 + length lits.now < 2 ^ 32) }
    ensures full { IfErr result
        (λ error. (error ≡ StoreError.Full) ↔ (2 ^ 32 ≤ length alloc.old.words + 3 + length lits.now)) }
    ensures refused { OnErr result (alloc.new ≡ alloc.old) }
    ensures refused_too { OnErr result (db.new ≡ db.old) }
    ensures tracks { Tracks db.new alloc.new }
{
    let cref = db.lists.add_clause(alloc, header, lits)?;
    db.counts.raise(header.tier());
    Ok(cref)
}

/// Moves a clause that is not deleted to the tier. A refused growth changes nothing.
pub fn set_clause_tier<A: Allocator + Copy>(
    alloc: &mut ClauseAlloc<A>,
    db: &mut ClauseDb<A>,
    cref: ClauseRef,
    tier: Tier,
) -> Result<(), AllocError>
    requires place { IsClauseRef (stored_clauses alloc.old) cref }
    requires live { (header_at (stored_clauses alloc.old) cref).deleted ≡ false }
    requires tracks { Tracks db.old alloc.old }
    ensures moved { OnOk result (RewritesHeaderAt alloc.old alloc.new cref (λ header. record header { tier = tier })) }
    ensures refused { OnErr result (alloc.new ≡ alloc.old) }
    ensures refused_too { OnErr result (db.new ≡ db.old) }
    ensures tracks { Tracks db.new alloc.new }
{
    let mut header = alloc.header(cref);
    let old_tier = header.tier();
    if old_tier != tier {
        db.note_moved(cref, old_tier, tier)?;
        header.set_tier(tier);
        alloc.set_header(cref, header);
    }
    Ok(())
}

/// Deletes a clause that is not deleted. Its words stay as garbage.
pub fn delete_clause<A: Allocator + Copy>(
    alloc: &mut ClauseAlloc<A>,
    db: &mut ClauseDb<A>,
    cref: ClauseRef,
)
    requires place { IsClauseRef (stored_clauses alloc.old) cref }
    requires live { (header_at (stored_clauses alloc.old) cref).deleted ≡ false }
    requires tracks { Tracks db.old alloc.old }
    ensures deleted { RewritesHeaderAt alloc.old alloc.new cref (λ header. record header { deleted = true }) }
    ensures noted { db.new
        ≡ with_deleted (header_at (stored_clauses alloc.old) cref).tier
        (length (literals_at (stored_clauses alloc.old) cref)) db.old }
    ensures tracks { Tracks db.new alloc.new }
{
    let mut header = alloc.header(cref);
    db.note_deleted(header.tier(), header.len());
    header.set_deleted(true);
    alloc.set_header(cref, header);
}

/// Deletes a clause that is not deleted unless it is the reason of its first literal, as the caller says. Returns
/// whether it was deleted.
pub fn try_delete_clause<A: Allocator + Copy>(
    alloc: &mut ClauseAlloc<A>,
    db: &mut ClauseDb<A>,
    cref: ClauseRef,
    is_reason: bool,
) -> bool
    requires place { IsClauseRef (stored_clauses alloc.old) cref }
    requires live { (header_at (stored_clauses alloc.old) cref).deleted ≡ false }
    requires tracks { Tracks db.old alloc.old }
    ensures deletes { result ≡ not is_reason }
    ensures deleted { is_reason ≡ false →
        RewritesHeaderAt alloc.old alloc.new cref (λ header. record header { deleted = true }) }
    ensures kept { is_reason ≡ true → alloc.new ≡ alloc.old }
    ensures kept_too { is_reason ≡ true → db.new ≡ db.old }
    ensures tracks { Tracks db.new alloc.new }
{
    if !is_reason {
        delete_clause(alloc, db, cref);
    }
    !is_reason
}
