//! Copies of clauses, side by side, so that a look at one costs one read of memory.
use crate::known::Known;
use std::alloc::{AllocError, Allocator};
use varisat_literals::Lit;

/// What a copy comes to whose one watched literal is false.
#[derive(Clone, Copy)]
pub enum Step {
    /// The first literal is to be watched in place of the false one, beside the second one.
    Moves(Lit, Lit),
    /// Nothing follows as long as this literal is true.
    Stays(Lit),
    /// All literals are false but for the other watched one.
    Leaves(Lit),
    /// The clause was deleted.
    Gone,
}

/// Where a copy begins that is not there.
pub const NO_COPY: u32 = 0x7fff_ffff;

/// The number of a place, or `NO_COPY` for one that has none.
pub fn number_of(place: usize) -> u32 {
    if place >= NO_COPY as usize {
        return NO_COPY;
    }
    place as u32
}

/// How many words a copy takes beside its literals: their number in front, and the clause's place behind them.
const FRAME: usize = 2;

/// So many words of deleted clauses are left where they are.
const FEW: usize = 0x1_0000;

/// The copies. The first two literals of each are those that are watched.
#[derive(Drop)]
pub struct Copies<A: Allocator + Copy> {
    words: Vec<u32, A>,
    /// By the clause's place where its copy begins, or `NO_COPY`.
    starts: Vec<u32, A>,
    /// How many words deleted clauses take.
    wasted: usize,
}

impl<A: Allocator + Copy> Copies<A> {
    /// No copies. It takes no memory.
    pub fn new_in(alloc: A) -> Copies<A> {
        Copies {
            words: Vec::new(alloc),
            starts: Vec::new(alloc),
            wasted: 0,
        }
    }

    /// Whether most of the words are of deleted clauses.
    pub fn is_wasteful(&self) -> bool {
        self.wasted > FEW && self.wasted > self.words.len() / 2
    }

    /// Takes all copies out.
    pub fn clear(&mut self) {
        self.words.clear();
        self.starts.clear();
        self.wasted = 0;
    }

    /// The next place, which is returned, has no copy.
    pub fn skip(&mut self) -> Result<u32, AllocError> {
        let place = number_of(self.starts.len());
        self.starts.push(NO_COPY)?;
        Ok(place)
    }

    /// Adds the literals but these two, and returns how many there are with them.
    fn add_others(&mut self, clause: &[Lit], one: Lit, other: Lit) -> Result<u32, AllocError> {
        let mut count: u32 = 2;
        for l in clause {
            if l.code() == one.code() || l.code() == other.code() {
                continue;
            }
            self.words.push(l.code() as u32)?;
            count = count.saturating_add(1);
        }
        Ok(count)
    }

    /// Adds a copy of the clause at the next place, of which these two literals are watched. Returns where it begins.
    pub fn add(&mut self, clause: &[Lit], one: Lit, other: Lit) -> Result<u32, AllocError> {
        let start = self.words.len();
        let place = self.starts.len();
        if start >= NO_COPY as usize || place >= NO_COPY as usize {
            self.starts.push(NO_COPY)?;
            return Ok(NO_COPY);
        }
        self.words.push(0)?;
        self.words.push(one.code() as u32)?;
        self.words.push(other.code() as u32)?;
        let count = self.add_others(clause, one, other)?;
        self.words.push(place as u32)?;
        if start < self.words.len() {
            self.words[start] = count;
        }
        self.starts.push(start as u32)?;
        Ok(start as u32)
    }

    /// Where the copy of the clause at the place begins.
    pub fn start_of(&self, place: usize) -> u32 {
        if place < self.starts.len() {
            self.starts[place]
        } else {
            NO_COPY
        }
    }

    /// The literals of the copy that begins there.
    pub fn codes(&self, start: u32) -> &[u32] {
        let start = start as usize;
        if start >= self.words.len() {
            return &[];
        }
        let end = start + 1 + self.words[start] as usize;
        if end >= self.words.len() {
            return &[];
        }
        &self.words[start + 1..end]
    }

    /// The place of the clause whose copy begins there.
    pub fn place_of(&self, start: u32) -> u32 {
        let start = start as usize;
        if start >= self.words.len() {
            return NO_COPY;
        }
        let end = start + 1 + self.words[start] as usize;
        if end >= self.words.len() {
            return NO_COPY;
        }
        self.words[end]
    }

    /// The clause at the place was deleted.
    pub fn forget(&mut self, place: usize) {
        let start = self.start_of(place) as usize;
        if start >= self.words.len() || place >= self.starts.len() {
            return;
        }
        let size = (self.words[start] as usize).saturating_add(FRAME);
        self.wasted = self.wasted.saturating_add(size);
        self.words[start] = 0;
        self.starts[place] = NO_COPY;
    }

    /// What the copy comes to that begins there, whose one watched literal is given and false.
    pub fn step(&mut self, known: &Known<A>, start: u32, literal: Lit) -> Step {
        let start = start as usize;
        if start >= self.words.len() {
            return Step::Gone;
        }
        let end = start + 1 + self.words[start] as usize;
        if end < start + 3 || end >= self.words.len() {
            return Step::Gone;
        }
        // Nothing depends on which of the two is the literal, which no processor could foretell.
        let code = literal.code() as u32;
        let pair = self.words[start + 1] ^ self.words[start + 2] ^ code;
        let other = Lit::from_code(pair as usize);
        if known.holds(other) {
            return Step::Stays(other);
        }
        for at in start + 3..end {
            let free = Lit::from_code(self.words[at] as usize);
            if known.is_false(free) {
                continue;
            }
            self.words[start + 1] = pair;
            self.words[start + 2] = free.code() as u32;
            self.words[at] = code;
            return Step::Moves(free, other);
        }
        Step::Leaves(other)
    }
}
