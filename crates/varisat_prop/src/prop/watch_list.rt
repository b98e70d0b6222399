//! The watches of one literal.
ghost use Rattle.std.specs.Prelude.{◌≡◌, ◌<◌, ◌≤◌, ◌⊎◌, ◌++◌, ◌∷◌, [], take, length, OnOk, slice_set};
ghost use Rattle.varisat_prop.specs.Visits.{taken_watches, AreInPlace};

use crate::clause::ClauseRef;
use std::alloc::{AllocError, Allocator};
use std::marker::Model;
use std::mem;
use varisat_literals::Lit;

/// A watch on a clause.
#[derive(Clone, Copy, Debug)]
pub struct Watch {
    pub cref: ClauseRef,
    /// A literal of the clause. As long as it is true there is no need to look at the clause.
    pub blocking: Lit,
}

/// How many watches stand in place.
pub(crate) const FEW: usize = 2;

/// The watches of a literal, for as long as propagation goes through them.
#[derive(Drop)]
pub(crate) enum Taken<A: Allocator + Copy> {
    /// Copies of those that stand in place, and how many of the two these are.
    Few([Watch; 2], usize),
    /// All of them, where they don't stand in place.
    Many(Vec<Watch, A>),
}

/// A list of watches. Up to two stand in place: where clauses are short few literals have more, and who has looked at the list has
/// them too, and needs not wait for memory once more.
#[derive(Drop)]
pub struct WatchList<A: Allocator + Copy> {
    pub(crate) few: [Watch; 2],
    // How many stand in place; where it is more than two all watches stand in `many`.
    pub(crate) count: u32,
    pub(crate) many: Vec<Watch, A>,
}

impl<A: Allocator + Copy> Model for WatchList<A> {
    ghost use Rattle.std.specs.Prelude.{◌≡◌, ◌≤◌, List, []};
    ghost use Rattle.varisat_prop.specs.declared.prop.watch_list.Watch.{Watch};
    ghost use Rattle.varisat_prop.specs.ShortLists.{short_list};

    ghost Value = { List Watch };

    ghost view = { λ s. short_list 2 s.few s.count s.many.items };

    ghost invariant = { λ s. (s.count ≤ 3) × (s.count ≤ 2 → s.many.items ≡ []) };
}

impl<A: Allocator + Copy> WatchList<A> {
    /// No watches. It takes no memory.
    pub fn new_in(alloc: A) -> WatchList<A>
        ensures { result ≡ [] }
    {
        let none = Watch {
            cref: ClauseRef::from_offset(0),
            blocking: Lit::from_code(0),
        };
        WatchList {
            few: [none; 2],
            count: 0,
            many: Vec::new(alloc),
        }
    }

    /// The watches.
    pub fn as_slice(&self) -> &[Watch]
        ensures { result.now ≡ self.now }
    {
        let count = self.count as usize;
        if count <= FEW {
            return &self.few[..count];
        }
        self.many.as_slice()
    }

    /// Writes a watch over the one at the place.
    pub fn set(&mut self, place: usize, watch: Watch)
        requires { place < length self.old }
        ensures { self.new ≡ slice_set self.old place watch }
    {
        if self.count as usize <= FEW {
            self.few[place] = watch;
            return;
        }
        self.many[place] = watch;
    }

    /// Puts a watch behind the others.
    // Propagation moves a watch for most clauses that it looks at. The lists that it moves them to are long where that costs time,
    // so that what such a list needs is compiled in place, and the rest is not.
    #[inline(always)]
    pub fn push(&mut self, watch: Watch) -> Result<(), AllocError>
        ensures { OnOk result (self.new ≡ self.old ++ watch ∷ []) }
    {
        if self.count as usize > FEW && self.many.len() < self.many.capacity() {
            self.many.push_reserved(watch);
            return Ok(());
        }
        self.push_out_of_line(watch)
    }

    /// Puts a watch behind the others, wherever they stand.
    #[inline(never)]
    fn push_out_of_line(&mut self, watch: Watch) -> Result<(), AllocError>
        ensures { OnOk result (self.new ≡ self.old ++ watch ∷ []) }
    {
        let count = self.count as usize;
        if count < FEW {
            self.few[count] = watch;
            self.count += 1;
            return Ok(());
        }
        if count > FEW {
            self.many.push(watch)?;
            return Ok(());
        }
        self.many.extend_from_slice(&self.few)?;
        self.count += 1;
        self.many.push(watch)?;
        Ok(())
    }

    /// Reads how many watches stand in place, so that memory has the list at hand. The number means nothing.
    #[inline(always)]
    pub(crate) fn prefetch(&self) -> u32 {
        self.count
    }

    /// Takes the watches out, or copies them where they stand in place: then they stay, until others are put there.
    // A whole list that is moved out and back waits for what was written to its parts just before.
    #[inline(always)]
    pub(crate) fn take(&mut self) -> Taken<A>
        ensures watches { taken_watches result ≡ self.old }
        ensures few { AreInPlace result }
        ensures left { (self.new ≡ self.old) ⊎ (self.new ≡ []) }
    {
        let count = self.count as usize;
        if count <= FEW {
            return Taken::Few([self.few[0], self.few[1]], count);
        }
        let alloc = *self.many.allocator();
        Taken::Many(mem::replace(&mut self.many, Vec::new(alloc)))
    }

    /// Has as its watches the first ones of these, as many as `count`.
    #[inline(always)]
    pub(crate) fn put_few(&mut self, few: [Watch; 2], count: usize)
        requires { count ≤ 2 }
        ensures { self.new ≡ take count few }
    {
        self.few = few;
        self.count = count as u32;
        self.many.clear();
    }

    /// Has these as its watches.
    #[inline(always)]
    pub(crate) fn put_many(&mut self, many: Vec<Watch, A>)
        ensures { self.new ≡ many.items }
    {
        self.count = FEW as u32 + 1;
        self.many = many;
    }

    /// Takes all watches out.
    pub fn clear(&mut self)
        ensures { self.new ≡ [] }
    {
        self.count = 0;
        self.many.clear();
    }

    /// Takes out all but the first ones, as many as `count`.
    pub fn truncate(&mut self, count: usize)
        ensures { self.new ≡ take count self.old }
    {
        let old_count = self.count as usize;
        if old_count > FEW {
            self.many.truncate(count);
        } else if count < old_count {
            self.count = count as u32;
        }
    }
}
