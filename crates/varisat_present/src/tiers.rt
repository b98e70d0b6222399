//! Watches in two tiers. Clauses that led to a conflict a short while ago mostly do so again, and new ones do soon, so their
//! watches are looked at first: then fewer literals are propagated before a conflict is found.
use crate::copies::number_of;
use crate::watches::{Tier, Watch, Watches};
use std::alloc::{AllocError, Allocator};
use varisat_literals::Lit;

/// After so many propagations all watches are cold again. Most clauses serve sooner or later, so without this most would
/// be hot.
const SPELL: u32 = 2000;

/// The watches on clauses, each of which is hot or cold.
#[derive(Drop)]
pub struct Tiers<A: Allocator + Copy> {
    watches: Watches<A>,
    /// By a clause's place whether its watches are hot.
    are_hot: Vec<bool, A>,
    /// The places of the clauses whose watches are hot, and of some that were deleted.
    places: Vec<u32, A>,
    /// The literals with hot watches, some of them repeated, and some that have none any more.
    warmed: Vec<Lit, A>,
    /// How many propagations there were since all watches were cold.
    age: u32,
    /// Whether there was any, so that a new clause is a line and none of the formula.
    is_begun: bool,
}

impl<A: Allocator + Copy> Tiers<A> {
    /// No watches. It takes no memory.
    pub fn new_in(alloc: A) -> Tiers<A> {
        Tiers {
            watches: Watches::new_in(alloc),
            are_hot: Vec::new(alloc),
            places: Vec::new(alloc),
            warmed: Vec::new(alloc),
            age: 0,
            is_begun: false,
        }
    }

    /// Takes all watches out, and begins anew with the clause at place 0.
    pub fn clear(&mut self) {
        self.watches.clear();
        self.are_hot.clear();
        self.places.clear();
        self.warmed.clear();
        self.age = 0;
    }

    /// The tier of a new clause.
    pub fn newest(&self) -> Tier {
        if self.is_begun { Tier::Hot } else { Tier::Cold }
    }

    /// The next place has no clause that is watched.
    pub fn skip(&mut self) -> Result<(), AllocError> {
        self.are_hot.push(false)?;
        Ok(())
    }

    /// Notes a literal that gets its first hot watch.
    fn note_warmed(&mut self, literal: Lit) -> Result<(), AllocError> {
        if self.watches.is_empty(Tier::Hot, literal) {
            self.warmed.push(literal)?;
        }
        Ok(())
    }

    /// One more watch on a literal.
    pub fn add(&mut self, tier: Tier, literal: Lit, watch: Watch) -> Result<(), AllocError> {
        if let Tier::Hot = tier {
            self.note_warmed(literal)?;
        }
        self.watches.add(tier, literal, watch)
    }

    /// Both literals are watched by this key.
    fn add_both(&mut self, tier: Tier, key: u32, one: Lit, other: Lit) -> Result<(), AllocError> {
        let blocking = other;
        self.add(tier, one, Watch { key, blocking })?;
        let blocking = one;
        self.add(tier, other, Watch { key, blocking })
    }

    /// The clause at the next place is watched by this key.
    pub fn add_next(
        &mut self,
        tier: Tier,
        key: u32,
        one: Lit,
        other: Lit,
    ) -> Result<(), AllocError> {
        if let Tier::Hot = tier {
            self.places.push(number_of(self.are_hot.len()))?;
            self.are_hot.push(true)?;
        } else {
            self.are_hot.push(false)?;
        }
        self.add_both(tier, key, one, other)
    }

    /// The tier of the clause at the place.
    fn tier_of(&self, place: usize) -> Tier {
        if place < self.are_hot.len() && self.are_hot[place] {
            Tier::Hot
        } else {
            Tier::Cold
        }
    }

    /// Takes out the watches by this key, which is that of the clause at the place.
    pub fn remove(&mut self, place: usize, key: u32, one: Lit, other: Lit) {
        let tier = self.tier_of(place);
        self.watches.remove(tier, key, one);
        self.watches.remove(tier, key, other);
    }

    /// The watches by this key, which is that of the clause at the place, become hot.
    pub fn warm(&mut self, place: u32, key: u32, one: Lit, other: Lit) -> Result<(), AllocError> {
        let at = place as usize;
        if at >= self.are_hot.len() || self.are_hot[at] {
            return Ok(());
        }
        self.watches.remove(Tier::Cold, key, one);
        self.watches.remove(Tier::Cold, key, other);
        self.are_hot[at] = true;
        self.places.push(place)?;
        self.add_both(Tier::Hot, key, one, other)
    }

    /// The clauses are cold from then on.
    fn unmark(&mut self) {
        for i in 0..self.places.len() {
            let at = self.places[i] as usize;
            if at < self.are_hot.len() {
                self.are_hot[at] = false;
            }
        }
        self.places.clear();
    }

    /// The hot watches on a literal become cold.
    fn cool_list(&mut self, literal: Lit) -> Result<(), AllocError> {
        let list = self.watches.take_list(Tier::Hot, literal);
        for i in 0..list.len() {
            self.watches.add(Tier::Cold, literal, list[i])?;
        }
        Ok(())
    }

    /// All watches become cold.
    fn cool(&mut self) -> Result<(), AllocError> {
        self.unmark();
        for i in 0..self.warmed.len() {
            if let Some(literal) = self.warmed.get(i).copied() {
                self.cool_list(literal)?;
            }
        }
        self.warmed.clear();
        Ok(())
    }

    /// Another propagation begins.
    pub fn begin(&mut self) -> Result<(), AllocError> {
        self.is_begun = true;
        self.age = self.age.saturating_add(1);
        if self.age > SPELL {
            self.age = 0;
            self.cool()?;
        }
        Ok(())
    }

    /// Whether a list has no watches.
    pub fn is_empty(&self, tier: Tier, literal: Lit) -> bool {
        self.watches.is_empty(tier, literal)
    }

    /// Takes a list out.
    pub fn take_list(&mut self, tier: Tier, literal: Lit) -> Vec<Watch, A> {
        self.watches.take_list(tier, literal)
    }

    /// Puts a list back.
    pub fn put_list(&mut self, tier: Tier, literal: Lit, list: Vec<Watch, A>) {
        self.watches.put_list(tier, literal, list);
    }
}
