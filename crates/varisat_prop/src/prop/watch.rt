//! Watch lists, by which propagation finds the clauses that a literal may have made false or unit. A clause is watched
//! by its first two literals: it stands in the lists of their opposites.
ghost use Rattle.std.specs.Prelude.{◌≡◌, ◌<◌, ◌*◌, ◌≤◌, ◌-◌, ◌++◌, ◌∷◌, true, false, [], length, replicate, OnOk};
ghost use Rattle.varisat_theory.specs.promises.Membership.{◌∈◌};
ghost use Rattle.varisat_theory.specs.promises.Literals.{Literal, opposite};
ghost use Rattle.varisat_literals.specs.promises.Numbers.{variable_limit};
ghost use Rattle.varisat_prop.specs.Watches.{no_watches, watches_of, with_watches};
ghost use Rattle.varisat_prop.specs.Visits.{WatchesClause};

use crate::clause::ClauseRef;
use crate::prop::watch_list::{Watch, WatchList};
use std::alloc::{AllocError, Allocator};
use std::marker::Model;
use std::mem;
use varisat_literals::Lit;

/// For each literal the watches to be looked at when it becomes true.
#[derive(Drop)]
pub struct Watchlists<A: Allocator + Copy> {
    watches: Vec<WatchList<A>, A>,
    /// Whether the lists are kept up to date. Else they are empty, until propagation fills them anew.
    enabled: bool,
    // What `prefetch` read, added up: what is not used the compiler doesn't have read.
    prefetched: u32,
}

impl<A: Allocator + Copy> Model for Watchlists<A> {
    ghost use Rattle.varisat_prop.specs.Watches.{Watches};

    ghost Value = { Watches };

    ghost view = { λ s. record { lists = s.watches.items; enabled = s.enabled } };
}

impl<A: Allocator + Copy> Watchlists<A> {
    ghost use Rattle.std.specs.Borrow.{sem};
    ghost use Rattle.varisat_prop.specs.Lending.{lends_list};

    /// No lists, which are kept up to date. It takes no memory.
    pub fn new_in(alloc: A) -> Watchlists<A>
        ensures { result ≡ no_watches }
    {
        Watchlists {
            watches: Vec::new(alloc),
            enabled: true,
            prefetched: 0,
        }
    }

    /// How many lists there are.
    pub fn len(&self) -> usize
        ensures { result ≡ length self.now.lists }
    {
        self.watches.len()
    }

    /// Whether the lists are kept up to date.
    pub fn enabled(&self) -> bool
        ensures { result ≡ self.now.enabled }
    {
        self.enabled
    }

    /// Keeps the lists up to date from now on.
    pub fn enable(&mut self)
        ensures { self.new ≡ record self.old { enabled = true } }
    {
        self.enabled = true;
    }

    /// Takes all watches out. No list is kept up to date from now on, until propagation fills them anew.
    pub fn disable(&mut self)
        ensures count { length self.new.lists ≡ length self.old.lists }
        ensures empty { (x : Literal) → watches_of self.new x ≡ [] }
        ensures enabled { self.new.enabled ≡ false }
    {
        for place in 0..self.len() {
            self.list_mut(place).clear();
        }
        self.enabled = false;
    }

    /// One more literal, without watches.
    fn push_list(&mut self) -> Result<(), AllocError>
        ensures { OnOk result (self.new ≡ record self.old { lists = self.old.lists ++ [] ∷ [] }) }
    {
        let alloc = *self.watches.allocator();
        self.watches.push(WatchList::new_in(alloc))?;
        Ok(())
    }

    /// Raises the count of variables. The new ones have no watches.
    pub fn set_var_count(&mut self, count: usize) -> Result<(), AllocError>
        requires raised { length self.old.lists ≤ 2 * count }
        requires small { count ≤ variable_limit }
        ensures { OnOk result
            (self.new
            ≡ record self.old { lists = self.old.lists ++ replicate (2 * count - length self.old.lists) [] }) }
    {
        let old_count = self.watches.len();
        let mut added = 0;
        'lists: while added < 2 * count - old_count {
            self.push_list()?;
            added += 1;
        }
        Ok(())
    }

    /// The list at the place.
    fn list_mut(&mut self, place: usize) -> &mut WatchList<A>
        requires { place < length self.old.lists }
        ensures* lends { sem 𝓛 (lends_list A.row A.Allocator self.entry place result) }
        ensures value { result.now ≡ watches_of self.old place }
    {
        &mut self.watches[place]
    }

    /// The watches of the literal.
    pub fn watched_by_mut(&mut self, lit: Lit) -> &mut WatchList<A>
        requires { lit < length self.old.lists }
        ensures* lends { sem 𝓛 (lends_list A.row A.Allocator self.entry lit result) }
        ensures value { result.now ≡ watches_of self.old lit }
    {
        self.list_mut(lit.code())
    }

    /// Reads where the watches of the literal stand some time before they are needed, so that they are not waited for then. The
    /// number is what else was read for that.
    #[inline(always)]
    pub fn prefetch(&mut self, lit: Lit, also: u32)
        ensures { self.new ≡ self.old }
    {
        if let Some(list) = self.watches.get(lit.code()) {
            let read = list.prefetch().wrapping_add(also);
            self.prefetched = self.prefetched.wrapping_add(read);
        }
    }

    /// Takes the watches of the literal out.
    pub fn take_list(&mut self, lit: Lit) -> WatchList<A>
        requires { lit < length self.old.lists }
        ensures list { result ≡ watches_of self.old lit }
        ensures taken { self.new ≡ with_watches self.old lit [] }
    {
        let alloc = *self.watches.allocator();
        mem::replace(self.watched_by_mut(lit), WatchList::new_in(alloc))
    }

    /// Puts the watches of the literal back.
    pub fn put_list(&mut self, lit: Lit, list: WatchList<A>)
        requires { lit < length self.old.lists }
        ensures { self.new ≡ with_watches self.old lit list }
    {
        *self.watched_by_mut(lit) = list;
    }

    /// One more watch of the literal.
    #[inline(always)]
    pub fn add_watch(&mut self, lit: Lit, watch: Watch) -> Result<(), AllocError>
        requires { lit < length self.old.lists }
        ensures { OnOk result (self.new ≡ with_watches self.old lit (watches_of self.old lit ++ watch ∷ [])) }
    {
        self.watched_by_mut(lit).push(watch)?;
        Ok(())
    }

    /// Watches the clause with these literals by the first two, where the lists are kept up to date.
    pub fn watch_clause(&mut self, cref: ClauseRef, lits: &[Lit]) -> Result<(), AllocError>
        requires several { 2 ≤ length lits.now }
        requires listed { (l : Literal) → l ∈ lits.now → opposite l < length self.old.lists }
        ensures { OnOk result (WatchesClause self.old self.new cref lits.now) }
    {
        if !self.enabled() {
            return Ok(());
        }
        let (first, second) = (lits[0], lits[1]);
        let watch = Watch {
            cref,
            blocking: second,
        };
        self.add_watch(!first, watch)?;
        let watch = Watch {
            cref,
            blocking: first,
        };
        self.add_watch(!second, watch)?;
        Ok(())
    }
}
