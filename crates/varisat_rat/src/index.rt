//! Where clauses may be found by their literals. What it returns are guesses: who asks looks at the clause.
use std::alloc::{AllocError, Allocator};
use varisat_literals::Lit;

/// A number that looks like a random one.
fn mixed(number: u32, factor: u32) -> u32 {
    let product = number.wrapping_add(1).wrapping_mul(factor);
    (product ^ (product >> 15)).wrapping_mul(0x85eb_ca77)
}

/// A number that is the same for clauses that are equal as sets: literals in another order, or repeated, do not change it.
// So it may add up nothing: it takes the least and the greatest of two random numbers of each literal.
pub fn key_of(clause: &[Lit]) -> u32 {
    let mut least: u32 = 0xffff_ffff;
    let mut greatest: u32 = 0;
    let mut other_least: u32 = 0xffff_ffff;
    let mut other_greatest: u32 = 0;
    for l in clause {
        let code = l.code() as u32;
        let one = mixed(code, 0x9e37_79b1);
        let other = mixed(code, 0xc2b2_ae35);
        if one < least {
            least = one;
        }
        if one > greatest {
            greatest = one;
        }
        if other < other_least {
            other_least = other;
        }
        if other > other_greatest {
            other_greatest = other;
        }
    }
    let sum = mixed(least, 0x9e37_79b1)
        .wrapping_add(mixed(greatest, 0xc2b2_ae35))
        .wrapping_add(mixed(other_least, 0x27d4_eb2f))
        .wrapping_add(mixed(other_greatest, 0x1656_67b1));
    sum ^ (sum >> 16)
}

/// Chains of the places whose clauses have keys of the same remainder, the newest place first.
#[derive(Drop)]
pub struct ClauseIndex<A: Allocator + Copy> {
    // By the remainder the first place of the chain, and one more. 0 ends a chain.
    heads: Vec<u32, A>,
    // By the place the next one of its chain, and one more.
    links: Vec<u32, A>,
    keys: Vec<u32, A>,
}

impl<A: Allocator + Copy> ClauseIndex<A> {
    /// No places. It takes no memory.
    pub fn new_in(alloc: A) -> ClauseIndex<A> {
        ClauseIndex {
            heads: Vec::new(alloc),
            links: Vec::new(alloc),
            keys: Vec::new(alloc),
        }
    }

    /// How many places were added.
    pub fn len(&self) -> usize {
        self.links.len()
    }

    /// The first place of the key's chain, and one more, or 0.
    pub fn first(&self, key: u32) -> u32 {
        let count = self.heads.len();
        if count == 0 {
            return 0;
        }
        self.heads[key as usize % count]
    }

    /// The place behind this one in its chain, and one more, or 0.
    pub fn after(&self, place: usize) -> u32 {
        if place < self.links.len() {
            self.links[place]
        } else {
            0
        }
    }

    /// Puts a place at the head of its chain.
    fn link(&mut self, place: usize) {
        let count = self.heads.len();
        if count == 0
            || place >= self.links.len()
            || place >= self.keys.len()
            || place >= 0xffff_ffff
        {
            return;
        }
        let head = self.keys[place] as usize % count;
        self.links[place] = self.heads[head];
        self.heads[head] = place as u32 + 1;
    }

    /// Makes twice as many chains as there are places.
    fn grow(&mut self) -> Result<(), AllocError> {
        let count = self.links.len().saturating_mul(2).saturating_add(64);
        self.heads.clear();
        self.heads.resize(count, 0)?;
        for place in 0..self.links.len() {
            self.link(place);
        }
        Ok(())
    }

    /// Adds the next place.
    pub fn add(&mut self, key: u32) -> Result<(), AllocError> {
        if self.links.len() >= self.heads.len() {
            self.grow()?;
        }
        let place = self.links.len();
        self.links.push(0)?;
        self.keys.push(key)?;
        self.link(place);
        Ok(())
    }
}
