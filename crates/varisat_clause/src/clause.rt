//! A clause of a store, to be read or changed.
ghost use Rattle.std.specs.Prelude.{◌≡◌, ◌+◌, ◌≤◌, length, min};
ghost use Rattle.varisat_clause.specs.Stored.{IsClauseRef, header_at, literals_at, shortened};
ghost use Rattle.varisat_clause.specs.Stores.{stored_clauses, IsSound, RewritesClauses, RewritesHeaderAt, TakesLiteralsAt};

use crate::alloc::{ClauseAlloc, ClauseRef};
use crate::header::{ClauseHeader, Tier};
use std::alloc::Allocator;
use varisat_literals::Lit;

/// A clause of a store.
#[derive(Clone, Copy)]
pub struct Clause<'a> {
    /// Its header.
    pub header: ClauseHeader,
    /// Its literals.
    pub literals: &'a [Lit],
}

impl<'a> Clause<'a> {
    /// The header.
    pub fn header(&self) -> ClauseHeader
        ensures { result ≡ self.now.header }
    {
        self.header
    }

    /// The literals.
    pub fn lits(&self) -> &'a [Lit]
        ensures { result.now ≡ self.now.literals.now }
    {
        self.literals
    }
}

/// A clause of a store, to be changed: the store and the clause's place in it.
#[derive(Drop)]
pub struct ClauseMut<'a, A: Allocator + Copy> {
    pub alloc: &'a mut ClauseAlloc<A>,
    pub cref: ClauseRef,
}

/// The header of a clause of a store, to be changed: the store and the clause's place in it. On a clause of a database
/// the tier and the flag deleted are changed by the calls of the database alone.
#[derive(Drop)]
pub struct ClauseHeaderMut<'a, A: Allocator + Copy> {
    pub alloc: &'a mut ClauseAlloc<A>,
    pub cref: ClauseRef,
}

impl<A: Allocator + Copy> ClauseAlloc<A> {
    /// The clause.
    pub fn clause(&self, cref: ClauseRef) -> Clause<'_>
        requires sound { IsSound self.now }
        requires place { IsClauseRef (stored_clauses self.now) cref }
        ensures header { result.header ≡ header_at (stored_clauses self.now) cref }
        ensures literals { result.literals.now ≡ literals_at (stored_clauses self.now) cref }
    {
        Clause {
            header: self.header(cref),
            literals: self.lits(cref),
        }
    }

    /// The clause, to be changed.
    pub fn clause_mut(&mut self, cref: ClauseRef) -> ClauseMut<'_, A>
        ensures same_reference { result.alloc.ghost_name ≡ self.entry.ghost_name }
        ensures store { result.alloc.now ≡ self.old }
        ensures place { result.cref ≡ cref }
    {
        ClauseMut { alloc: self, cref }
    }

    /// The header of the clause, to be changed.
    pub fn header_mut(&mut self, cref: ClauseRef) -> ClauseHeaderMut<'_, A>
        ensures same_reference { result.alloc.ghost_name ≡ self.entry.ghost_name }
        ensures store { result.alloc.now ≡ self.old }
        ensures place { result.cref ≡ cref }
    {
        ClauseHeaderMut { alloc: self, cref }
    }
}

impl<'a, A: Allocator + Copy> ClauseMut<'a, A> {
    ghost use Rattle.std.specs.Borrow.{sem};
    ghost use Rattle.varisat_clause.specs.ClauseLending.{lends_of_clause};

    /// The header.
    pub fn header(&self) -> ClauseHeader
        requires sound { IsSound self.now.alloc.now }
        requires place { IsClauseRef (stored_clauses self.now.alloc.now) self.now.cref }
        ensures { result ≡ header_at (stored_clauses self.now.alloc.now) self.now.cref }
    {
        self.alloc.header(self.cref)
    }

    /// The header, to be changed. The clause is given for it.
    pub fn header_mut(self) -> ClauseHeaderMut<'a, A>
        ensures same_reference { result.alloc.ghost_name ≡ self.entry.alloc.ghost_name }
        ensures store { result.alloc.now ≡ self.entry.alloc.now }
        ensures place { result.cref ≡ self.entry.cref }
    {
        let ClauseMut { alloc, cref } = self;
        ClauseHeaderMut { alloc, cref }
    }

    /// The literals.
    pub fn lits(&self) -> &[Lit]
        requires sound { IsSound self.now.alloc.now }
        requires place { IsClauseRef (stored_clauses self.now.alloc.now) self.now.cref }
        ensures { result.now ≡ literals_at (stored_clauses self.now.alloc.now) self.now.cref }
    {
        self.alloc.lits(self.cref)
    }

    /// The literals, to be changed.
    pub fn lits_mut(&mut self) -> &mut [Lit]
        requires sound { IsSound self.old.alloc.now }
        requires place { IsClauseRef (stored_clauses self.old.alloc.now) self.old.cref }
        ensures* lends { sem 𝓛 (lends_of_clause A.row A.Allocator self.entry result) }
        ensures value { result.now ≡ literals_at (stored_clauses self.old.alloc.now) self.old.cref }
        ensures alone { TakesLiteralsAt self.old.alloc.now self.old.cref (length result.now) }
    {
        let cref = self.cref;
        let alloc = &mut *self.alloc;
        alloc.lits_mut(cref)
    }
}

impl<'a, A: Allocator + Copy> ClauseHeaderMut<'a, A> {
    /// The header.
    pub fn header(&self) -> ClauseHeader
        requires sound { IsSound self.now.alloc.now }
        requires place { IsClauseRef (stored_clauses self.now.alloc.now) self.now.cref }
        ensures { result ≡ header_at (stored_clauses self.now.alloc.now) self.now.cref }
    {
        self.alloc.header(self.cref)
    }

    /// Replaces the header by one of the same length.
    pub fn set_header(&mut self, header: ClauseHeader)
        requires sound { IsSound self.old.alloc.now }
        requires place { IsClauseRef (stored_clauses self.old.alloc.now) self.old.cref }
        requires length { header.len ≡ (header_at (stored_clauses self.old.alloc.now) self.old.cref).len }
        ensures same_reference { self.new.alloc.ghost_name ≡ self.old.alloc.ghost_name }
        ensures same_place { self.new.cref ≡ self.old.cref }
        ensures changed { RewritesHeaderAt self.old.alloc.now self.new.alloc.now self.old.cref (λ _. header) }
    {
        let cref = self.cref;
        let alloc = &mut *self.alloc;
        alloc.set_header(cref, header);
    }

    /// Drops the last literals of the clause, so that as many are left.
    pub fn set_len(&mut self, count: usize)
        requires sound { IsSound self.old.alloc.now }
        requires place { IsClauseRef (stored_clauses self.old.alloc.now) self.old.cref }
        requires least { 3 ≤ count }
        requires most { count ≤ (header_at (stored_clauses self.old.alloc.now) self.old.cref).len }
        ensures same_reference { self.new.alloc.ghost_name ≡ self.old.alloc.ghost_name }
        ensures same_place { self.new.cref ≡ self.old.cref }
        ensures changed { RewritesClauses self.old.alloc.now self.new.alloc.now
            (λ clauses. shortened clauses self.old.cref count) }
    {
        let cref = self.cref;
        let alloc = &mut *self.alloc;
        alloc.shorten(cref, count);
    }

    /// Says whether the clause is deleted.
    pub fn set_deleted(&mut self, deleted: bool)
        requires sound { IsSound self.old.alloc.now }
        requires place { IsClauseRef (stored_clauses self.old.alloc.now) self.old.cref }
        ensures same_reference { self.new.alloc.ghost_name ≡ self.old.alloc.ghost_name }
        ensures same_place { self.new.cref ≡ self.old.cref }
        ensures changed { RewritesHeaderAt self.old.alloc.now self.new.alloc.now self.old.cref
            (λ header. record header { deleted = deleted }) }
    {
        let mut header = self.header();
        header.set_deleted(deleted);
        self.set_header(header);
    }

    /// Sets the tier.
    pub fn set_tier(&mut self, tier: Tier)
        requires sound { IsSound self.old.alloc.now }
        requires place { IsClauseRef (stored_clauses self.old.alloc.now) self.old.cref }
        ensures same_reference { self.new.alloc.ghost_name ≡ self.old.alloc.ghost_name }
        ensures same_place { self.new.cref ≡ self.old.cref }
        ensures changed { RewritesHeaderAt self.old.alloc.now self.new.alloc.now self.old.cref
            (λ header. record header { tier = tier }) }
    {
        let mut header = self.header();
        header.set_tier(tier);
        self.set_header(header);
    }

    /// Marks or unmarks the clause.
    pub fn set_mark(&mut self, mark: bool)
        requires sound { IsSound self.old.alloc.now }
        requires place { IsClauseRef (stored_clauses self.old.alloc.now) self.old.cref }
        ensures same_reference { self.new.alloc.ghost_name ≡ self.old.alloc.ghost_name }
        ensures same_place { self.new.cref ≡ self.old.cref }
        ensures changed { RewritesHeaderAt self.old.alloc.now self.new.alloc.now self.old.cref
            (λ header. record header { mark = mark }) }
    {
        let mut header = self.header();
        header.set_mark(mark);
        self.set_header(header);
    }

    /// Sets or clears the flag active.
    pub fn set_active(&mut self, active: bool)
        requires sound { IsSound self.old.alloc.now }
        requires place { IsClauseRef (stored_clauses self.old.alloc.now) self.old.cref }
        ensures same_reference { self.new.alloc.ghost_name ≡ self.old.alloc.ghost_name }
        ensures same_place { self.new.cref ≡ self.old.cref }
        ensures changed { RewritesHeaderAt self.old.alloc.now self.new.alloc.now self.old.cref
            (λ header. record header { active = active }) }
    {
        let mut header = self.header();
        header.set_active(active);
        self.set_header(header);
    }

    /// Sets the glue to the number, or to 63 where that is less.
    pub fn set_glue(&mut self, glue: usize)
        requires sound { IsSound self.old.alloc.now }
        requires place { IsClauseRef (stored_clauses self.old.alloc.now) self.old.cref }
        ensures same_reference { self.new.alloc.ghost_name ≡ self.old.alloc.ghost_name }
        ensures same_place { self.new.cref ≡ self.old.cref }
        ensures changed { RewritesHeaderAt self.old.alloc.now self.new.alloc.now self.old.cref
            (λ header. record header { glue = min glue 63 }) }
    {
        let mut header = self.header();
        header.set_glue(glue);
        self.set_header(header);
    }

    /// Sets the activity.
    pub fn set_activity(&mut self, activity: u32)
        requires sound { IsSound self.old.alloc.now }
        requires place { IsClauseRef (stored_clauses self.old.alloc.now) self.old.cref }
        ensures same_reference { self.new.alloc.ghost_name ≡ self.old.alloc.ghost_name }
        ensures same_place { self.new.cref ≡ self.old.cref }
        ensures changed { RewritesHeaderAt self.old.alloc.now self.new.alloc.now self.old.cref
            (λ header. record header { activity = activity }) }
    {
        let mut header = self.header();
        header.set_activity(activity);
        self.set_header(header);
    }
}
