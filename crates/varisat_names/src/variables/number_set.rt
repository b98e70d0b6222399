//! Sets of numbers, as bits.
ghost use Rattle.std.specs.Prelude.{ℕ, ◌≡◌, ◌<◌, ◌/◌, true, false, [], length, slice_index_or, OnOk, OnErr};
ghost use Rattle.varisat_names.specs.promises.Maps.{updated};
ghost use Rattle.varisat_names.specs.inside.NumberSets.{holds};

use std::alloc::{AllocError, Allocator};
use std::marker::Model;

/// How many numbers a word has bits for.
const WORD: usize = 64;

/// A set of numbers. It takes a bit for each number up to the highest that was ever in it.
#[derive(Drop)]
pub struct NumberSet<A: Allocator + Copy> {
    words: Vec<u64, A>,
}

impl<A: Allocator + Copy> Model for NumberSet<A> {
    ghost use Rattle.std.specs.Prelude.{List, ℕ};

    ghost Value = { List ℕ };

    ghost view = { λ s. s.words.items };
}

impl<A: Allocator + Copy> NumberSet<A> {
    /// No numbers. It takes no memory.
    pub fn new_in(alloc: A) -> NumberSet<A>
        ensures { result ≡ [] }
    {
        NumberSet {
            words: Vec::new(alloc),
        }
    }

    /// Whether the number is in the set.
    pub fn contains(&self, number: usize) -> bool
        ensures { result ≡ holds self.now number }
    {
        let place = number / WORD;
        if place < self.words.len() {
            (self.words[place] >> (number % WORD)) & 1 == 1
        } else {
            false
        }
    }

    /// The number joins the set. Where memory is refused the set has the same numbers.
    pub fn insert(&mut self, number: usize) -> Result<(), AllocError>
        ensures joined { OnOk result ((i : ℕ) → holds self.new i ≡ updated (holds self.old) number true i) }
        ensures refused { OnErr result ((i : ℕ) → holds self.new i ≡ holds self.old i) }
    {
        if number / WORD < self.words.len() {
            self.set(number);
            return Ok(());
        }
        self.reach(number)?;
        self.set(number);
        Ok(())
    }

    /// The number is in the set no longer.
    pub fn remove(&mut self, number: usize)
        ensures { (i : ℕ) → holds self.new i ≡ updated (holds self.old) number false i }
    {
        let place = number / WORD;
        if place < self.words.len() {
            self.words[place] &= !(1 << (number % WORD));
        }
    }

    /// Makes the word of the number, and those before it.
    // Out of line, so that a number whose word is there joins without a frame on the stack.
    #[cold]
    #[inline(never)]
    fn reach(&mut self, number: usize) -> Result<(), AllocError>
        ensures same { (p : ℕ) → slice_index_or self.new p 0 ≡ slice_index_or self.old p 0 }
        ensures made { OnOk result (number / 64 < length self.new) }
    {
        let count = number / WORD + 1;
        if self.words.len() < count {
            self.words.resize(count, 0)?;
        }
        Ok(())
    }

    /// The number joins the set. Its word is there.
    fn set(&mut self, number: usize)
        requires { number / 64 < length self.old }
        ensures { (i : ℕ) → holds self.new i ≡ updated (holds self.old) number true i }
    {
        self.words[number / WORD] |= 1 << (number % WORD);
    }
}
