//! Watched literals: which copies of clauses to look at when a literal becomes false.
use crate::clause::find_other;
use crate::known::{Known, PLACE_LIMIT};
use std::alloc::{AllocError, Allocator};
use std::collections::BTreeMap;
use std::mem;
use varisat_literals::Lit;

/// A watch on a clause.
#[derive(Clone, Copy)]
pub struct Watch {
    /// Where the clause's copy begins, or the clause's place with `OF_TWO` if it has two literals.
    pub key: u32,
    /// A literal of the clause, the other one if it has two. As long as it is true there is no need to look at the clause.
    pub blocking: Lit,
}

/// Marks the keys of clauses of two literals.
pub const OF_TWO: u32 = 0x8000_0000;

/// Which watches on a literal are meant.
#[derive(Clone, Copy)]
pub enum Tier {
    Hot,
    Cold,
}

/// The number of a literal's list. The two of a literal lie side by side.
fn slot_of(tier: Tier, literal: Lit) -> usize {
    let cold = literal.code().saturating_mul(2);
    match tier {
        Tier::Hot => cold.saturating_add(1),
        Tier::Cold => cold,
    }
}

/// From this number on lists are looked up in a map.
const SLOT_LIMIT: usize = PLACE_LIMIT * 2;

/// For each literal the watches on it, in two lists.
#[derive(Drop)]
pub struct Watches<A: Allocator + Copy> {
    alloc: A,
    /// By their numbers, for those below `SLOT_LIMIT`.
    lists: Vec<Vec<Watch, A>, A>,
    /// For the others.
    far: BTreeMap<usize, Vec<Watch, A>, A>,
}

impl<A: Allocator + Copy> Watches<A> {
    /// No watches. It takes no memory.
    pub fn new_in(alloc: A) -> Watches<A> {
        Watches {
            alloc,
            lists: Vec::new(alloc),
            far: BTreeMap::new(alloc),
        }
    }

    /// Takes all watches out.
    pub fn clear(&mut self) {
        for slot in 0..self.lists.len() {
            self.lists[slot].clear();
        }
        self.far.clear();
    }

    /// The list of this number, if it was made.
    fn list_mut(&mut self, slot: usize) -> Option<&mut Vec<Watch, A>> {
        if slot >= SLOT_LIMIT {
            self.far.get_mut(&slot)
        } else {
            self.lists.get_mut(slot)
        }
    }

    /// Whether a list has no watches.
    pub fn is_empty(&self, tier: Tier, literal: Lit) -> bool {
        let slot = slot_of(tier, literal);
        if slot < self.lists.len() {
            return self.lists[slot].is_empty();
        }
        match self.far.get(&slot) {
            None => true,
            Some(list) => list.is_empty(),
        }
    }

    /// Takes a list out.
    pub fn take_list(&mut self, tier: Tier, literal: Lit) -> Vec<Watch, A> {
        let empty = Vec::new(self.alloc);
        match self.list_mut(slot_of(tier, literal)) {
            Some(list) => mem::replace(list, empty),
            None => empty,
        }
    }

    /// Puts a list back.
    pub fn put_list(&mut self, tier: Tier, literal: Lit, list: Vec<Watch, A>) {
        if let Some(place) = self.list_mut(slot_of(tier, literal)) {
            *place = list;
        }
    }

    // The rare cases of `add` have functions of their own, so that it saves few registers.
    /// One more watch in a list whose number is not below `SLOT_LIMIT`.
    #[cold]
    #[inline(never)]
    fn add_far(&mut self, slot: usize, watch: Watch) -> Result<(), AllocError> {
        self.far
            .entry(slot)?
            .or_insert(Vec::new(self.alloc))
            .push(watch)?;
        Ok(())
    }

    /// Makes lists up to that of the number.
    #[cold]
    #[inline(never)]
    fn reach(&mut self, slot: usize) -> Result<(), AllocError> {
        for _ in self.lists.len()..slot.saturating_add(1) {
            self.lists.push(Vec::new(self.alloc))?;
        }
        Ok(())
    }

    /// One more watch on a literal.
    pub fn add(&mut self, tier: Tier, literal: Lit, watch: Watch) -> Result<(), AllocError> {
        let slot = slot_of(tier, literal);
        if slot >= SLOT_LIMIT {
            self.add_far(slot, watch)?;
            return Ok(());
        }
        if slot >= self.lists.len() {
            self.reach(slot)?;
        }
        if slot < self.lists.len() {
            self.lists[slot].push(watch)?;
        }
        Ok(())
    }

    /// Takes out a watch on a literal by this key.
    pub fn remove(&mut self, tier: Tier, key: u32, literal: Lit) {
        let Some(list) = self.list_mut(slot_of(tier, literal)) else {
            return;
        };
        for i in 0..list.len() {
            if list[i].key == key {
                let _ = list.swap_remove(i);
                return;
            }
        }
    }
}

/// The first literal of the clause that is not the given one, if there is one.
fn find_different(clause: &[Lit], literal: Lit) -> Option<Lit> {
    for l in clause {
        if l.code() != literal.code() {
            return Some(*l);
        }
    }
    None
}

/// Two different literals of the clause, if it has two. Those that are not false come first.
pub fn best_two<A: Allocator + Copy>(known: &Known<A>, clause: &[Lit]) -> Option<(Lit, Lit)> {
    if clause.is_empty() {
        return None;
    }
    let first = clause[0];
    let one = match find_other(known, clause, !first) {
        None => first,
        Some(free) => free,
    };
    match find_other(known, clause, one) {
        Some(free) => Some((one, free)),
        None => match find_different(clause, one) {
            Some(other) => Some((one, other)),
            None => None,
        },
    }
}
